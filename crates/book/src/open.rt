// Open.
ghost use Rattle.std.specs.Prelude.{◌≡◌};
ghost use Rattle.basics.specs.Reasons.{number_of};
ghost use Rattle.book.specs.Open.{terms_of, fresh_book, refused_book, open_refused, opened};
ghost use Rattle.book.specs.Book.{Valid};

use crate::{Book, BookDay, Opened};
use basics::Reason;
use calendar::{ClearingDays, ClosedDays, Day};
use instructions::Legs;
use ledger::{Ledger, Setup, Terms};
use rates::Rates;
use reprint::LastClose;

// The stages by the number of the terms: 0, or else 1.
fn terms_of(terms: u64) -> Terms
    ensures { result ≡ terms_of terms }
{
    if terms == 0 {
        return Terms {
            notice: ClearingDays(29),
            grace: ClearingDays(30),
            last: ClearingDays(35),
        };
    }
    Terms {
        notice: ClearingDays(7),
        grace: ClearingDays(10),
        last: ClearingDays(13),
    }
}

impl Opened {
    // A refused Open returns a book that is always the same.
    fn refused(reason: Reason) -> Opened
        ensures { result ≡ open_refused (number_of reason) }
    {
        Opened {
            answer: u64::from(reason),
            book: Book::refused(),
        }
    }
}

impl Book {
    // Makes a fresh book.
    fn fresh(first: Day, closed_days: ClosedDays, terms: u64) -> Book
        ensures { result ≡ fresh_book first closed_days terms }
    {
        Book {
            legs: Legs::none(),
            ledger: Ledger::new(),
            last: LastClose::none(),
            rates: Rates::none(),
            setup: Setup {
                closed_days,
                terms: terms_of(terms),
            },
            day: BookDay {
                today: first,
                close_since: false,
                has_closed: false,
            },
        }
    }

    // The book that a refused Open returns.
    fn refused() -> Book
        ensures { result ≡ refused_book }
    {
        let none = [0u64; 0];
        Book::fresh(Day(2), ClosedDays::of(&none), 0)
    }

    // Opens a book on its first day, with its closed days and its terms.
    pub fn open(first: Day, closed: &[u64], terms: u64) -> Opened
        ensures value { result ≡ opened first closed.now terms }
        ensures valid { Valid result.book }
        ensures closed_stays { closed.exit.now ≡ closed.entry.now }
    {
        if 1 < terms {
            return Opened::refused(Reason::BadParty);
        }
        if calendar::refuses_closed(closed) {
            return Opened::refused(Reason::BadClosedDays);
        }
        let days = ClosedDays::of(closed);
        if refusals::is_bad_first(&days, first) {
            return Opened::refused(Reason::BadDay);
        }
        Opened {
            answer: 0,
            book: Book::fresh(first, days, terms),
        }
    }
}
