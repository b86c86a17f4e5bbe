// The calendar: days, the book's closed days, clearing days, and ages counted in them. A calendar day and a count of
// clearing days are two types, and only the functions of this crate lead from one to the other.
#![tactic(auto)]

ghost use Rattle.std.specs.Prelude.{◌≡◌, ◌≤◌, length};
ghost use Rattle.calendar.specs.Closed.{stored_day, day_of, last_day, most_closed, rises_from, closed_refused, closed_days, listed_days, Rises, among};
ghost use Rattle.calendar.specs.Days.{clearing, next_after, nth_after, age_at, weekdays_to, takes_away, closed_between};

// The last day of the calendar; `last_day` in specs/.
pub const LAST_DAY: u64 = 65_535;

// The most closed days of a book; `most_closed` in specs/.
pub const MOST_CLOSED: usize = 64;

// A calendar day by its number; day 0 is Saturday 1 January 2000.
#[derive(Clone, Copy, PartialEq, Eq, PartialOrd, Ord)]
pub struct Day(pub u64);

// A calendar day as a book stores it, in two bytes. It is turned into a `Day` before it is compared with one.
#[derive(Clone, Copy, PartialEq, Eq, PartialOrd, Ord)]
pub struct StoredDay(pub u16);

// A count of clearing days, or an age.
#[derive(Clone, Copy, PartialEq, Eq, PartialOrd, Ord)]
pub struct ClearingDays(pub u64);

// The book's closed days: the first `count` places of `days`. The places after them are free. It is a plain record, since
// `closed_days` in specs/ builds it and the theorem compares whole books; a heap could run out, and no refusal says so.
#[derive(Clone, Copy)]
pub struct ClosedDays {
    pub days: [Day; MOST_CLOSED],
    pub count: usize,
}

// Whether the days of a list rise strictly and end by the last day.
#[tactic(auto, using(crate::proofs::Closed::rises_more, crate::proofs::Closed::rises_end))]
fn is_rising(days: &[u64]) -> bool
    ensures { result ≡ rises_from 0 days.now }
{
    let mut least: u64 = 0;
    for day in days {
        if *day < least || LAST_DAY < *day {
            return false;
        }
        least = *day + 1;
    }
    true
}

// Whether a list of closed days is refused.
#[tactic(auto, unfolding(crate::specs::Closed::closed_refused))]
pub fn refuses_closed(days: &[u64]) -> bool
    ensures value { result ≡ closed_refused days.now }
    ensures days_stay { days.exit.now ≡ days.entry.now }
{
    MOST_CLOSED < days.len() || !is_rising(days)
}

// How many weekdays there are up to a day, as if no day were closed. The week under way has begun with a weekend.
#[tactic(auto, using(crate::proofs::Counting::weekdays_by_weeks))]
fn weekdays_to(day: Day) -> u64
    ensures { result ≡ weekdays_to day.0 }
{
    5 * (day.0 / 7) + (day.0 % 7).saturating_sub(1)
}

// Whether a closed day is a weekday that is later than one day and not later than another.
#[tactic(auto, unfolding(crate::specs::Days::takes_away))]
fn takes_away(closed: Day, after: Day, to: Day) -> bool
    ensures { result ≡ takes_away closed after to }
{
    after < closed && closed <= to && 2 <= closed.0 % 7
}

impl Day {
    // The day as a book stores it. It is no `From`, because it requires a day that fits two bytes.
    pub fn stored(self) -> StoredDay
        requires { self.0 ≤ last_day }
        ensures { result ≡ stored_day self }
    {
        StoredDay(self.0 as u16)
    }
}

impl StoredDay {
    // The calendar day that is stored. It is a method, as `Day::stored` is, so that both directions read alike.
    pub fn day(self) -> Day
        ensures { result ≡ day_of self }
    {
        Day(self.0 as u64)
    }
}

impl ClosedDays {
    // The closed days of a list.
    #[tactic(auto, using(crate::proofs::Closed::stored_more, crate::proofs::Closed::stored_all))]
    pub fn of(list: &[u64]) -> ClosedDays
        requires { length list.now ≤ most_closed }
        ensures value { result ≡ closed_days list.now }
        ensures list_stays { list.exit.now ≡ list.entry.now }
    {
        let mut days = [Day(0); MOST_CLOSED];
        for (i, day) in list.iter().enumerate() {
            days[i] = Day(*day);
        }
        ClosedDays {
            days: days,
            count: list.len(),
        }
    }

    // The days that the book lists as closed.
    #[tactic(auto, unfolding(crate::specs::Closed::listed_days))]
    fn listed(&self) -> &[Day]
        ensures { result.now ≡ listed_days self.now }
    {
        &self.days[..self.count.min(MOST_CLOSED)]
    }

    // Whether a day is among the closed days.
    #[tactic(auto, using(crate::proofs::Closed::among_any))]
    fn has(&self, day: Day) -> bool
        ensures { result ≡ among (listed_days self.now) day }
    {
        self.listed().contains(&day)
    }

    // Whether a day is a clearing day.
    #[tactic(auto, unfolding(crate::specs::Days::clearing))]
    pub fn is_clearing(&self, day: Day) -> bool
        ensures { result ≡ clearing (listed_days self.now) day }
    {
        2 <= day.0 % 7 && !self.has(day)
    }

    // The next clearing day after a day.
    #[tactic(auto, using(crate::proofs::Walks::next_more, crate::proofs::Walks::next_none))]
    pub fn next_after(&self, day: Day) -> Option<Day>
        ensures { result ≡ next_after (listed_days self.now) day }
    {
        for d in day.0..LAST_DAY {
            let next = Day(d + 1);
            if self.is_clearing(next) {
                return Some(next);
            }
        }
        None
    }

    // The n-th clearing day after a day: for n above 0, the next one after the (n - 1)-th.
    #[tactic(auto, unfolding(crate::specs::Days::nth_after, crate::specs::Days::next_of), using(crate::proofs::Walks::nth_none, crate::proofs::Walks::nth_more))]
    pub fn nth_after(&self, day: Day, n: ClearingDays) -> Option<Day>
        ensures { result ≡ nth_after (listed_days self.now) day n }
    {
        let count = n.0;
        if count == 0 {
            return Some(day);
        }
        let previous = self.nth_after(day, ClearingDays(count - 1))?;
        self.next_after(previous)
    }

    // How many closed days are weekdays that are later than one day and not later than another.
    #[tactic(auto, using(crate::proofs::Closed::between_count))]
    fn closed_between(&self, after: Day, to: Day) -> u64
        ensures { result ≡ closed_between (listed_days self.now) after to }
    {
        self.listed()
            .iter()
            .filter(|closed| takes_away(**closed, after, to))
            .count() as u64
    }

    // The age at today of what was due on a day: the weekdays since then without the closed days among them.
    #[tactic(auto, using(crate::proofs::Ages::age_early, crate::proofs::Counting::age_weekdays))]
    pub fn age_at(&self, due: Day, today: Day) -> ClearingDays
        requires { Rises self.now }
        ensures { result ≡ age_at (listed_days self.now) due today }
    {
        if today <= due {
            return ClearingDays(0);
        }
        let closed = self.closed_between(due, today);
        ClearingDays(weekdays_to(today) - weekdays_to(due) - closed)
    }
}
