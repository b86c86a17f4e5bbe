// The settled examples that are worded as calls, played on a book from an Open.
ghost use Rattle.std.specs.Prelude.{◌≡◌, [], ◌∷◌, ◌++◌, ◌<◌, length};
ghost use Rattle.ledger.specs.Lines.{most_lines, fewest_words};
ghost use Rattle.book.specs.Book.{Valid};
ghost use Rattle.journal.specs.Calls.{offer};
ghost use Rattle.journal.specs.Played.{begun};
ghost use Rattle.examples.specs.Played.{opening, book_after, sale_on, from_start, close_at, days_pass, to_buy_in, accepted, match_played, two_sales, bought_at, opened_friday, sold_friday};
ghost use Rattle.examples.specs.Table.{one_of_three};

use crate::compared;
use book::Book;
use calendar::Day;
use ledger::{FEWEST_WORDS, WORDS_IN_LINE};
use std::io::Stdout;

// The book of an Open on day 2, without closed days and by terms 1.
fn opened() -> Book
    ensures value { result ≡ (begun opening).book }
    ensures valid { Valid result }
{
    let none = [0u64; 0];
    let opened = Book::open(Day(2), &none, 1);
    opened.book
}

// The book of the Open with a rate from its first day on.
fn rated(rate: u64) -> Book
    ensures value { result ≡ book_after (begun opening).book (from_start rate ∷ []) }
    ensures valid { Valid result }
{
    let entered = opened().rate(Day(2), rate);
    entered.book
}

// A book with a sale that is due on a day.
fn with_sale(book: Book, due: u64, seller: u64, buyer: u64, quantity: u64, amount: u64) -> Book
    requires { Valid book }
    ensures value { result ≡ book_after book (sale_on due seller buyer quantity amount) }
    ensures valid { Valid result }
{
    let delivers = book.enter(seller, buyer, 0, quantity, amount, Day(due));
    let one = delivers.book;
    let receives = one.enter(buyer, seller, 1, quantity, amount, Day(due));
    receives.book
}

// A Close, which ends the day.
fn day_ends(book: Book, price: u64) -> Book
    requires { Valid book }
    ensures value { result ≡ book_after book (close_at price ∷ []) }
    ensures valid { Valid result }
{
    let mut lines = [0u64; FEWEST_WORDS];
    let closed = book.close(price, &mut lines);
    closed.book
}

// Several days end, each with a Close at par.
fn days_pass(book: Book, count: u64) -> Book
    requires { Valid book }
    ensures value { result ≡ book_after book (days_pass count) }
    ensures valid { Valid result }
{
    let mut today = book;
    for _ in 0..count {
        today = day_ends(today, 100_000);
    }
    today
}

// The book on the first day that takes offers, if the Close at age = grace is at this price.
fn in_buy_in(price: u64) -> Book
    ensures value { result ≡ book_after (begun opening).book (to_buy_in price) }
    ensures valid { Valid result }
{
    day_ends(
        days_pass(with_sale(rated(0), 2, 0, 1, 10, 1_000_000), 10),
        price,
    )
}

// Example 4: two offers over a Close at 99,999.
pub fn cap(output: Stdout) -> u64
    ensures { result ≡ 0 }
{
    let taken = in_buy_in(99_999).offer(0, 7, 5, 107_998);
    let after = taken.book;
    let refused = after.offer(0, 7, 5, 107_999);
    compared(output, 4, taken.answer, 0) + compared(output, 4, refused.answer, 18)
}

// A leg that delivers, and then three that receive: the first finds no match, the second is refused, the third matches.
fn one_of_three(output: Stdout, item: u64, delivering: u64, above: u64, most: u64) -> u64
    requires { match_played delivering above most ≡ accepted 1 ++ one_of_three }
    ensures { result ≡ 0 }
{
    let waits = opened().enter(0, 1, 0, 10, delivering, Day(2));
    let one = waits.book;
    let alone = one.enter(1, 0, 1, 10, above, Day(2));
    let two = alone.book;
    let refused = two.enter(1, 0, 1, 10, 0, Day(2));
    let same = refused.book;
    let matched = same.enter(1, 0, 1, 10, most, Day(2));
    compared(output, item, alone.answer, 0)
        + compared(output, item, alone.obligation, 0)
        + compared(output, item, refused.answer, 3)
        + compared(output, item, matched.obligation, 1)
}

// Examples 5 and 6: an Enter that finds no match, one that is refused, and one that matches.
pub fn tolerance(output: Stdout) -> u64
    ensures { result ≡ 0 }
{
    one_of_three(output, 5, 10_000_000, 10_000_201, 10_000_200)
        + one_of_three(output, 6, 10_000_001, 10_002_502, 10_002_501)
}

// Example 7: three Delivers, one after another.
pub fn deliveries(output: Stdout) -> u64
    ensures { result ≡ 0 }
{
    let sold = with_sale(opened(), 2, 0, 1, 3, 1_000);
    let first = sold.deliver(0, 1);
    let one = first.book;
    let second = one.deliver(0, 1);
    let two = second.book;
    let third = two.deliver(0, 1);
    compared(output, 7, first.cash, 333)
        + compared(output, 7, second.cash, 333)
        + compared(output, 7, third.cash, 334)
}

// A book with one more offer for obligation 0.
fn with_offer(book: Book, supplier: u64, quantity: u64, price: u64) -> Book
    requires { Valid book }
    ensures value { result ≡ book_after book (offer 0 supplier quantity price ∷ []) }
    ensures valid { Valid result }
{
    let offered = book.offer(0, supplier, quantity, price);
    offered.book
}

// Compares supplier, quantity and cents in a line of a Close's list with the settled ones. The first line has number 0.
fn bought(
    output: Stdout,
    item: u64,
    lines: &[u64],
    line: usize,
    supplier: u64,
    quantity: u64,
    cents: u64,
) -> u64
    requires { (line < most_lines) × (length lines.now ≡ fewest_words) × (bought_at line lines.now ≡ supplier ∷ quantity ∷ cents ∷ []) }
    ensures { result ≡ 0 }
{
    let at = WORDS_IN_LINE * line;
    compared(output, item, lines[at + 4], supplier)
        + compared(output, item, lines[at + 2], quantity)
        + compared(output, item, lines[at + 3], cents)
}

// Example 10: three offers, and the lines of the Close of their day.
pub fn auction(output: Stdout) -> u64
    ensures { result ≡ 0 }
{
    let first = with_offer(in_buy_in(100_000), 1, 7, 101_000);
    let second = with_offer(first, 2, 5, 100_500);
    let third = with_offer(second, 3, 7, 101_000);
    let mut lines = [0u64; FEWEST_WORDS];
    let closed = third.close(100_000, &mut lines);
    compared(output, 10, closed.count as u64, 3)
        + bought(output, 10, &lines, 1, 2, 5, 2_500)
        + bought(output, 10, &lines, 2, 1, 5, 5_000)
}

// Example 14: two offers at one price, of which the Close takes the earlier.
pub fn equal_prices(output: Stdout) -> u64
    ensures { result ≡ 0 }
{
    let first = with_offer(in_buy_in(100_000), 1, 10, 101_000);
    let second = with_offer(first, 2, 12, 101_000);
    let mut lines = [0u64; FEWEST_WORDS];
    let closed = second.close(100_000, &mut lines);
    compared(output, 14, closed.count as u64, 2) + bought(output, 14, &lines, 1, 1, 10, 10_000)
}

// The book of the Open with a rate of 10 and two sales of member 3, after the Close of their day.
fn closed_once() -> Book
    ensures value { result ≡ book_after (begun opening).book (from_start 10 ∷ two_sales ++ close_at 100000 ∷ []) }
    ensures valid { Valid result }
{
    let sold = with_sale(
        with_sale(rated(10), 2, 3, 0, 200, 1_000),
        2,
        3,
        1,
        100,
        1_000,
    );
    let mut lines = [0u64; FEWEST_WORDS];
    let closed = sold.close(100_000, &mut lines);
    closed.book
}

// Example 11: a Close with two lines, a Month, and an Again, which gives the same two lines.
pub fn reprint(output: Stdout) -> u64
    ensures { result ≡ 0 }
{
    let mut collected = [0u64; 32];
    collected[3] = 100;
    let mut payouts = [7u64; 32];
    let paid = closed_once().month(&collected, &mut payouts);
    let after = paid.book;
    let mut lines = [0u64; FEWEST_WORDS];
    let shown = after.again(&mut lines);
    compared(output, 11, shown.count as u64, 2)
        + compared(output, 11, lines[3], 200)
        + compared(output, 11, lines[9], 100)
}

// Example 12: on the same book, a Month that collects all that member 3 owes, and a Month for which everybody paid.
pub fn everybody_paid(output: Stdout) -> u64
    ensures { result ≡ 0 }
{
    let mut collected = [0u64; 32];
    collected[3] = 300;
    let mut typed = [7u64; 32];
    closed_once().month(&collected, &mut typed);
    let none = [0u64; 0];
    let mut empty = [7u64; 32];
    closed_once().month(&none, &mut empty);
    compared(output, 12, typed[0], 200)
        + compared(output, 12, empty[0], 200)
        + compared(output, 12, typed[1], 100)
        + compared(output, 12, empty[1], 100)
}

// The book of example 15: it opens on day 6 with two rates, which were entered in falling order of their starting days.
fn on_friday() -> Book
    ensures value { result ≡ book_after (begun opened_friday).book sold_friday }
    ensures valid { Valid result }
{
    let none = [0u64; 0];
    let opened = Book::open(Day(6), &none, 1);
    let fresh = opened.book;
    let ahead = fresh.rate(Day(7), 20);
    let one = ahead.book;
    let current = one.rate(Day(6), 10);
    let two = current.book;
    with_sale(two, 6, 3, 0, 1_000, 1_000)
}

// Example 15: the penalties of a Friday and of the Monday after it, between which another rate starts.
pub fn starting_days(output: Stdout) -> u64
    ensures { result ≡ 0 }
{
    let mut lines = [0u64; FEWEST_WORDS];
    let friday = on_friday().close(100_000, &mut lines);
    let monday = friday.book;
    let mut later = [0u64; FEWEST_WORDS];
    let closed = monday.close(100_000, &mut later);
    compared(output, 15, lines[3], 1_000)
        + compared(output, 15, closed.count as u64, 1)
        + compared(output, 15, later[3], 2_000)
}
