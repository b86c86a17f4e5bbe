// Rate: a rate with its starting day.
ghost use Rattle.std.specs.Prelude.{◌≡◌};
ghost use Rattle.book.specs.Book.{Valid};
ghost use Rattle.book.specs.Rating.{rated};

use crate::{Book, Done};
use calendar::Day;
use rates::RateRow;

impl Book {
    // Enters a rate with its starting day. If the book holds a rate with this starting day, the new one replaces it.
    pub fn rate(mut self, start: Day, rate: u64) -> Done
        requires { Valid self }
        ensures value { result ≡ rated self start rate }
        ensures valid { Valid result.book }
    {
        let mut rates = self.rates;
        if let Err(reason) = refusals::rate(self.day.today, &rates, start, rate) {
            return Done::refused(self, reason);
        }
        rates.enter(RateRow {
            start: start.stored(),
            rate: rate as u16,
        });
        self.rates = rates;
        Done {
            answer: 0,
            book: self,
        }
    }
}
