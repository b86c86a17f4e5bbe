// The rates of a book with their starting days, and which of them is in force on a day.
#![tactic(auto)]

ghost use Rattle.std.specs.Prelude.{◌≡◌, ◌≤◌, ◌<◌, eqb};
ghost use Rattle.rates.specs.Rows.{most_rows, start_of, holds, place_of, no_rates, listed_rates, with_rate};
ghost use Rattle.rates.specs.Force.{has_started, or_later, in_force, is_unset};

use calendar::{Day, StoredDay};

// The most rows of a book; `most_rows` in specs/.
pub const MOST_ROWS: usize = 16;

// A rate and the calendar day on which it starts. Its fields are narrow, because the book holds 16 of these and is
// copied at every call, and there is no gap between two rows.
#[derive(Clone, Copy)]
pub struct RateRow {
    pub start: StoredDay,
    pub rate: u16,
}

// The rates of a book. They are the first count rows, in the order in which their starting days were first entered. It
// is a plain list with a count, since the definitions build it and the theorem compares it, and since a heap could run
// out, which no refusal names. For the same reason it has no ghost field that keeps the count below 17: each definition
// in specs/ that builds a book, as `no_rates` and `with_rate` do, would have to build that field and its proof too.
#[derive(Clone, Copy)]
pub struct Rates {
    pub rows: [RateRow; MOST_ROWS],
    pub count: usize,
}

// This fills a free row.
const NO_ROW: RateRow = RateRow {
    start: StoredDay(0),
    rate: 0,
};

impl RateRow {
    // Whether the row has started by a day.
    #[tactic(auto, unfolding(crate::specs::Force::has_started))]
    fn has_started(self, today: Day) -> bool
        ensures { result ≡ has_started today self }
    {
        self.start.day() <= today
    }

    // Whether the row starts on a day.
    fn starts_on(self, day: Day) -> bool
        ensures { result ≡ eqb (start_of self).0 day.0 }
    {
        self.start.day() == day
    }

    // Of the row and what was found among others, the one that starts later; the row, if both start on one day.
    #[tactic(auto, unfolding(crate::specs::Force::or_later))]
    fn or_later(self, found: Option<RateRow>) -> Option<RateRow>
        ensures { result ≡ or_later self found }
    {
        let later = found.filter(|other| self.start < other.start);
        later.or(Some(self))
    }
}

impl Rates {
    // The rates of a fresh book: there are none.
    pub fn none() -> Rates
        ensures { result ≡ no_rates }
    {
        Rates {
            rows: [NO_ROW; MOST_ROWS],
            count: 0,
        }
    }

    // The rows that are held.
    fn listed(&self) -> &[RateRow]
        requires { self.now.count ≤ most_rows }
        ensures { result.now ≡ listed_rates self.now }
    {
        &self.rows[..self.count]
    }

    // The row in force on a day, if there is one. The rows are passed from the last to the first.
    pub fn in_force(&self, today: Day) -> Option<RateRow>
        requires { self.now.count ≤ most_rows }
        ensures { result ≡ in_force today (listed_rates self.now) }
    {
        let started = self
            .listed()
            .iter()
            .rev()
            .filter(|row| row.has_started(today));
        started.fold(None, |found, row| row.or_later(found))
    }

    // Whether no row has started by a day.
    pub fn none_started(&self, today: Day) -> bool
        requires { self.now.count ≤ most_rows }
        ensures { result ≡ is_unset (in_force today (listed_rates self.now)) }
    {
        self.in_force(today).is_none()
    }

    // The place of the row with a starting day, or the first free place.
    fn place_of(&self, start: Day) -> usize
        requires { self.now.count ≤ most_rows }
        ensures { result ≡ place_of start (listed_rates self.now) }
    {
        let found = self.listed().iter().position(|row| row.starts_on(start));
        found.unwrap_or(self.count)
    }

    // Whether one of the rows has this starting day.
    pub fn has_row(&self, start: Day) -> bool
        requires { self.now.count ≤ most_rows }
        ensures { result ≡ holds start (listed_rates self.now) }
    {
        self.listed().iter().any(|row| row.starts_on(start))
    }

    // Enters a row, in the place of the one with the same starting day or in the first free place.
    pub fn enter(&mut self, row: RateRow)
        requires { (self.old.count ≤ most_rows) × (place_of (start_of row) (listed_rates self.old) < most_rows) }
        ensures { self.new ≡ with_rate row self.old }
    {
        let at = self.place_of(row.start.day());
        self.rows[at] = row;
        if at == self.count {
            self.count = at + 1;
        }
    }
}
