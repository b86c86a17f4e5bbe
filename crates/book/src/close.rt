// Close: the end of the day.
ghost use Rattle.std.specs.Prelude.{◌≡◌, length};
ghost use Rattle.book.specs.Book.{Valid};
ghost use Rattle.book.specs.Close.{close, close_words};

use crate::{Book, BookDay, Closed};
use basics::Reason;
use closing::DayEnd;
use reprint::LastClose;

impl Book {
    // Takes penalties, gives notices, buys in and compensates; then the offers are dropped and today is the next
    // clearing day. The rate is the one in force today. The lines are kept for Again.
    pub fn close(mut self, price: u64, lines: &mut [u64]) -> Closed
        requires { Valid self }
        ensures value { result ≡ close self price (length lines.old) }
        ensures lines_after { lines.new ≡ close_words self price lines.old }
        ensures valid { Valid result.book }
    {
        if let Err(reason) = refusals::close_in(price, lines.len()) {
            return Closed::refused(self, reason);
        }
        let setup = self.setup;
        let rates = self.rates;
        let today = self.day.today;
        let Some(next) = setup.closed_days.next_after(today) else {
            return Closed::refused(self, Reason::NoNextDay);
        };
        let Some(row) = rates.in_force(today) else {
            return Closed::refused(self, Reason::NoRate);
        };
        let end = DayEnd {
            setup,
            today,
            price,
            rate: row.rate as u64,
        };
        let mut ledger = self.ledger;
        let count = closing::close(&mut ledger, &end, lines);
        self.ledger = ledger;
        self.last = LastClose::of(lines, count);
        self.day = BookDay {
            today: next,
            close_since: true,
            has_closed: true,
        };
        Closed {
            answer: 0,
            count,
            book: self,
        }
    }
}
