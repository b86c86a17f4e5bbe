// Again: the lines of the latest Close once more.
ghost use Rattle.std.specs.Prelude.{◌≡◌, length};
ghost use Rattle.book.specs.Book.{Valid};
ghost use Rattle.book.specs.Again.{again, again_words};

use crate::{Book, Closed};

impl Book {
    // Gives the lines of the latest accepted Close once more, to be printed again. The book stays as it is.
    pub fn again(mut self, lines: &mut [u64]) -> Closed
        requires { Valid self }
        ensures value { result ≡ again self (length lines.old) }
        ensures lines_after { lines.new ≡ again_words self lines.old }
        ensures valid { Valid result.book }
    {
        let last = self.last;
        let allowed = refusals::again(self.day.has_closed, lines.len());
        let answer = basics::answer_of(&allowed);
        let mut count = 0;
        if answer == 0 {
            last.write(lines);
            count = last.count;
        }
        Closed {
            answer,
            count,
            book: self,
        }
    }
}
