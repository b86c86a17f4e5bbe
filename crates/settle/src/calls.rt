// What a line asks, and the calls that play it.
ghost use Rattle.std.specs.Prelude.{◌≡◌, true, ◌-◌, ◌≤◌, length, take};
ghost use Rattle.answers.specs.Told.{most_shown, numbers_told};
ghost use Rattle.book.specs.Book.{Valid};
ghost use Rattle.lines.specs.Input.{size};
ghost use Rattle.reading.specs.Calls.{most_numbers, shape_right};
ghost use Rattle.settle.specs.Asked.{nothing_asked, asked_with, asked_lent, asked_call, asks, noted, Listed};
ghost use Rattle.settle.specs.Calls.{played_with, at_first, opens, enters, after_open, after_enter, after_done, after_cancel, after_deliver, after_close, after_call, words_after};
ghost use Rattle.settle.specs.Calls.{close_asked, again_asked, month_asked, shown_as, balance_as, looked_as};
ghost use Rattle.settle.specs.Calls.{targets, words_targeted, edition_told};

use answers::Answer;
use book::{Balance, Book, Cancelled, Closed, Delivered, Done, Entered, Looked, Opened, Shown};
use calendar::Day;
use lines::Taken;
use reading::{Line, Name, Shape};

// What a line asks. The first six numbers of the buffer are copied for every call; a call with fewer arguments does not
// use the rest, which may be left from earlier lines. They are six fields and no array, so that the definitions name
// each of them and need no value for a place that is not there. `from` and `to` are the places of the list of an open
// or a month. `lent` says how many words a close, an again, a month or a target is lent, and `fill` with what value
// they are filled.
#[derive(Clone, Copy)]
pub struct Asked {
    pub line: Line,
    pub first: u64,
    pub second: u64,
    pub third: u64,
    pub fourth: u64,
    pub fifth: u64,
    pub sixth: u64,
    pub from: usize,
    pub to: usize,
    pub lent: usize,
    pub fill: u64,
}

// The book after a line, and the answer to the line.
#[derive(Clone, Copy)]
pub struct Played {
    pub book: Book,
    pub answer: Answer,
}

// A line that asks nothing of the book.
fn asks_nothing(line: Line) -> Asked
    ensures { result ≡ nothing_asked line }
{
    Asked {
        line: line,
        first: 0,
        second: 0,
        third: 0,
        fourth: 0,
        fifth: 0,
        sixth: 0,
        from: 0,
        to: 0,
        lent: 0,
        fill: 0,
    }
}

// A call with the places of its list, and with the words that it is lent.
fn asks_with(line: Line, n: &[u64], from: usize, to: usize, lent: usize, fill: u64) -> Asked
    requires { 6 ≤ length n.now }
    ensures { result ≡ asked_with line n.now from to lent fill }
{
    Asked {
        line: line,
        first: n[0],
        second: n[1],
        third: n[2],
        fourth: n[3],
        fifth: n[4],
        sixth: n[5],
        from: from,
        to: to,
        lent: lent,
        fill: fill,
    }
}

// A call that is lent words. Its last two numbers say how many and with what value they are filled.
fn asks_lent(line: Line, n: &[u64], from: usize, to: usize, count: usize) -> Asked
    requires { (2 ≤ count) × (count ≤ length n.now) × (6 ≤ length n.now) }
    ensures { result ≡ asked_lent line n.now from to count }
{
    asks_with(line, n, from, to, n[count - 2] as usize, n[count - 1])
}

// A call whose arguments are the first count numbers.
fn asks_call(name: Name, shape: Shape, count: usize, n: &[u64]) -> Asked
    requires most_numbers_in_bounds { most_numbers ≤ length n.now }
    requires n_value { (shape_right shape (take count n.now) ≡ true) × (count ≤ length n.now) }
    ensures { result ≡ asked_call name shape count n.now }
{
    let line = Line::Call(name, shape, count);
    match shape {
        Shape::Plain(_) => asks_with(line, n, 0, 0, 0, 0),
        Shape::Days => asks_with(line, n, 3, count, 0, 0),
        Shape::Lent(_) => asks_lent(line, n, 0, 0, count),
        Shape::Amounts => asks_lent(line, n, 1, count - 2, count),
    }
}

// What the line asks of which bytes were taken. It asks nothing before it has ended.
pub fn ask(taken: Taken, line: &[u8], n: &mut [u64]) -> Asked
    requires { (size taken ≤ length line.now) × (most_numbers ≤ length n.old) }
    ensures value { result ≡ asks taken line.now n.old }
    ensures n_after { n.new ≡ noted taken line.now n.old }
    ensures listed { Listed result n.new }
{
    let Some(size) = taken.line else {
        return asks_nothing(Line::Comment);
    };
    match reading::read_line(&line[..size], n) {
        Line::Call(name, shape, count) => asks_call(name, shape, count, n),
        Line::Comment => asks_nothing(Line::Comment),
        Line::NoCall => asks_nothing(Line::NoCall),
    }
}

impl Played {
    // The book after a call, and the numbers with which the call is answered.
    fn told(book: Book, shown: &[u64]) -> Played
        requires { length shown.now ≤ most_shown }
        ensures { result ≡ played_with book (numbers_told shown.now) }
    {
        Played {
            book: book,
            answer: Answer::numbers(shown),
        }
    }
}

impl From<Opened> for Played {
    ghost from_gives = { λ opened played. played ≡ after_open opened };

    fn from(opened: Opened) -> Played {
        Played::told(opened.book, &[opened.answer])
    }
}

impl From<Entered> for Played {
    ghost from_gives = { λ entered played. played ≡ after_enter entered };

    fn from(entered: Entered) -> Played {
        Played::told(
            entered.book,
            &[entered.answer, entered.leg, entered.obligation],
        )
    }
}

impl From<Done> for Played {
    ghost from_gives = { λ done played. played ≡ after_done done };

    fn from(done: Done) -> Played {
        Played::told(done.book, &[done.answer])
    }
}

impl From<Cancelled> for Played {
    ghost from_gives = { λ cancelled played. played ≡ after_cancel cancelled };

    fn from(cancelled: Cancelled) -> Played {
        Played::told(cancelled.book, &[cancelled.answer, cancelled.moved])
    }
}

impl From<Delivered> for Played {
    ghost from_gives = { λ delivered played. played ≡ after_deliver delivered };

    fn from(delivered: Delivered) -> Played {
        Played::told(delivered.book, &[delivered.answer, delivered.cash])
    }
}

pub fn open(a: Asked, n: &[u64]) -> Played
    requires { Listed a n.now }
    ensures value { result ≡ opens a n.now }
    ensures valid { Valid result.book }
{
    Played::from(Book::open(Day(a.first), &n[a.from..a.to], a.second))
}

// An enter has a function of its own, because its arguments would make the loop over the lines hard to read.
pub fn enter(book: Book, a: Asked) -> Played
    requires { Valid book }
    ensures value { result ≡ enters book a }
    ensures valid { Valid result.book }
{
    Played::from(book.enter(a.first, a.second, a.third, a.fourth, a.fifth, Day(a.sixth)))
}

// What is answered to a close or an again that was lent this number of words, filled with this value.
fn closed(done: Closed, lent: usize, fill: u64) -> Played
    ensures { result ≡ after_close done lent fill }
{
    Played {
        book: done.book,
        answer: Answer::closed(done.answer, done.count, lent, fill),
    }
}

#[tactic(auto, unfolding(crate::specs::Calls::answer_by, crate::specs::Calls::words_by))]
pub fn close(book: Book, a: Asked, words: &mut [u64]) -> Played
    requires { (Valid book) × (a.lent ≤ length words.old) }
    ensures value { result ≡ after_call book a (close_asked a) }
    ensures words_after { words.new ≡ words_after book a (close_asked a) words.old }
    ensures valid { Valid result.book }
{
    let lent = a.lent;
    words[..lent].fill(a.fill);
    let done = book.close(a.first, &mut words[..lent]);
    closed(done, lent, a.fill)
}

#[tactic(auto, unfolding(crate::specs::Calls::answer_by, crate::specs::Calls::words_by))]
pub fn again(book: Book, a: Asked, words: &mut [u64]) -> Played
    requires { (Valid book) × (a.lent ≤ length words.old) }
    ensures value { result ≡ after_call book a (again_asked a) }
    ensures words_after { words.new ≡ words_after book a (again_asked a) words.old }
    ensures valid { Valid result.book }
{
    let lent = a.lent;
    words[..lent].fill(a.fill);
    let shown = book.again(&mut words[..lent]);
    closed(shown, lent, a.fill)
}

#[tactic(auto, unfolding(crate::specs::Calls::answer_by, crate::specs::Calls::words_by))]
pub fn month(book: Book, a: Asked, n: &[u64], words: &mut [u64]) -> Played
    requires { (Valid book) × (Listed a n.now) × (a.lent ≤ length words.old) }
    ensures value { result ≡ after_call book a (month_asked a n.now) }
    ensures words_after { words.new ≡ words_after book a (month_asked a n.now) words.old }
    ensures valid { Valid result.book }
{
    let lent = a.lent;
    words[..lent].fill(a.fill);
    let done = book.month(&n[a.from..a.to], &mut words[..lent]);
    Played {
        book: done.book,
        answer: Answer::with_words(&[done.answer], lent),
    }
}

// What is answered to a status.
pub fn shown(shown: Shown) -> Answer
    ensures { result ≡ shown_as shown }
{
    let parts = shown.parts;
    Answer::numbers(&[
        shown.answer,
        shown.quantity,
        parts.delivered as u64,
        parts.bought_in as u64,
        parts.compensated as u64,
        parts.cancelled as u64,
        parts.outstanding as u64,
    ])
}

// What is answered to an account.
pub fn balance(balance: Balance) -> Answer
    ensures { result ≡ balance_as balance }
{
    Answer::balance(balance.answer, balance.cents)
}

// What is answered to a look.
pub fn looked(looked: Looked) -> Answer
    ensures { result ≡ looked_as looked }
{
    Answer::numbers(&[looked.answer, looked.obligation])
}

// A target takes no book: it writes closed days, with which a book may be opened later.
pub fn target_days(a: Asked, words: &mut [u64]) -> Answer
    requires { a.lent ≤ length words.old }
    ensures value { result ≡ targets a }
    ensures words_after { words.new ≡ words_targeted a words.old }
{
    let lent = a.lent;
    words[..lent].fill(a.fill);
    let done = holidays::target_days(a.first, a.second, &mut words[..lent]);
    Answer::with_words(&[done.answer, done.count as u64], lent)
}

// The edition of the rules that the book follows: the number of the latest change in docs/RULES.md.
pub const EDITION: u64 = 5;

pub fn rules() -> Answer
    ensures { result ≡ edition_told }
{
    Answer::numbers(&[0, EDITION])
}

// Before the first line the book is the one that a refused Open returns.
pub fn before_all() -> Played
    ensures value { result ≡ at_first }
    ensures valid { Valid result.book }
{
    let opened = Book::open(Day(0), &[], 2);
    Played {
        book: opened.book,
        answer: Answer::nothing(),
    }
}
