// The book of one bond and its calls. Every call takes the book and hands it back in an answer struct, with the answer
// number (0 is done) and the results; a refused call hands back its number, zeros and the same book.
#![tactic(auto)]

ghost use Rattle.std.specs.Prelude.{◌≡◌};
ghost use Rattle.basics.specs.Reasons.{number_of};
ghost use Rattle.book.specs.Instructing.{done_refused};
ghost use Rattle.book.specs.Close.{close_refused};

use basics::Reason;
use calendar::Day;
use instructions::Legs;
use ledger::{Ledger, Parts, Setup};
use rates::Rates;
use reprint::LastClose;

mod again;
mod buying;
mod close;
mod instructing;
mod month;
mod open;
mod rating;
mod showing;

// What the days have brought: the day that it is, and which Closes there were. These are two flags and no enum, because
// the laws `month_refuses` and `again_refuses` name them.
#[derive(Clone, Copy)]
pub struct BookDay {
    pub today: Day,
    // Whether a Close was accepted since Open or the last accepted Month.
    pub close_since: bool,
    // Whether a Close was accepted since Open.
    pub has_closed: bool,
}

// The settlement-discipline book of one bond. The large arrays stand first and the small fields last, so that there is
// no gap in front of an array; the compiler then copies only the arrays that a call changes. The rates are small too.
// They come last, because in front of the setup they make a Close slower.
#[derive(Clone, Copy)]
pub struct Book {
    pub legs: Legs,
    pub ledger: Ledger,
    // The lines of the latest accepted Close.
    pub last: LastClose,
    pub setup: Setup,
    pub day: BookDay,
    pub rates: Rates,
}

// The answer of Open.
#[derive(Clone, Copy)]
pub struct Opened {
    pub answer: u64,
    pub book: Book,
}

// The answer of Enter: the leg's number, and the obligation's plus 1, or 0.
#[derive(Clone, Copy)]
pub struct Entered {
    pub answer: u64,
    pub leg: u64,
    pub obligation: u64,
    pub book: Book,
}

// The answer of Withdraw, of Offer, of Rate and of Month.
#[derive(Clone, Copy)]
pub struct Done {
    pub answer: u64,
    pub book: Book,
}

// The answer of Cancel: the quantity moved.
#[derive(Clone, Copy)]
pub struct Cancelled {
    pub answer: u64,
    pub moved: u64,
    pub book: Book,
}

// The answer of Deliver: the cash.
#[derive(Clone, Copy)]
pub struct Delivered {
    pub answer: u64,
    pub cash: u64,
    pub book: Book,
}

// The answer of Close and of Again: the number of lines.
#[derive(Clone, Copy)]
pub struct Closed {
    pub answer: u64,
    pub count: usize,
    pub book: Book,
}

// The answer of Status: the instructed quantity and its parts.
#[derive(Clone, Copy)]
pub struct Shown {
    pub answer: u64,
    pub quantity: u64,
    pub parts: Parts,
    pub book: Book,
}

// The answer of Account: the signed cents.
#[derive(Clone, Copy)]
pub struct Balance {
    pub answer: u64,
    pub cents: i64,
    pub book: Book,
}

// The answer of Look: the number plus 1 of a late obligation, or 0.
#[derive(Clone, Copy)]
pub struct Looked {
    pub answer: u64,
    pub obligation: u64,
    pub book: Book,
}

impl Done {
    // A refused call leaves the book as it is.
    fn refused(book: Book, reason: Reason) -> Done
        ensures { result ≡ done_refused book (number_of reason) }
    {
        Done {
            answer: u64::from(reason),
            book,
        }
    }
}

impl Closed {
    // A refused Close or Again has no lines, and the book stays as it is.
    fn refused(book: Book, reason: Reason) -> Closed
        ensures { result ≡ close_refused book (number_of reason) }
    {
        Closed {
            answer: u64::from(reason),
            count: 0,
            book,
        }
    }
}
