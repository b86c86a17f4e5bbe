// The end of a day: what a Close does to each obligation and to the accounts, and the lines that it reports.
#![tactic(auto)]

ghost use Rattle.std.specs.Prelude.{◌≡◌, ◌+◌, ◌*◌, ◌≤◌, true, length};
ghost use Rattle.std.proofs.lemmas.List.Edits.{sets};
ghost use Rattle.amounts.specs.Amounts.{most_close_price, most_offer_price};
ghost use Rattle.ledger.specs.Setup.{ValidTerms};
ghost use Rattle.ledger.specs.Lines.{words_in_line};
ghost use Rattle.ledger.specs.Obligations.{age_by, Sound, Takes};
ghost use Rattle.offers.specs.Held.{listed_offers};
ghost use Rattle.closing.specs.Lines.{kind_number, words_of, one, Wrote, Room};
ghost use Rattle.closing.specs.Stages.{plain_line, priced, penalty_on, measures_at};
ghost use Rattle.closing.specs.Stages.{penalised, notice_at, bought_from, bought_all, buy_in_at, compensated};
ghost use Rattle.closing.specs.Close.{stages, closed_ledger, close_lines};
ghost use Rattle.closing.specs.Asked.{Priced, Buys, ValidEnd, Closes, Closable, ClosedAs};

use calendar::{ClearingDays, Day};
use ledger::{Ledger, Obligation, Part, Setup, Terms, WORDS_IN_LINE};
use offers::{Given, Offers};

// What a Close works with: the setup and the day of the book, the price that it was given, and the rate in force.
#[derive(Clone, Copy)]
pub struct DayEnd {
    pub setup: Setup,
    pub today: Day,
    pub price: u64,
    pub rate: u64,
}

// What a Close does to an obligation beside its penalty. These are flags and no steps, because the rules decide all three
// before the first step changes the obligation (`measures_at` in specs/).
#[derive(Clone, Copy)]
pub struct Measures {
    pub notice: bool,
    pub buy_in: bool,
    pub compensation: bool,
}

// The kinds of a line.
#[derive(Clone, Copy)]
pub enum Kind {
    Penalty,
    Notice,
    Bought,
    Compensation,
}

impl From<Kind> for u64 {
    ghost from_gives = { λ k n. n ≡ kind_number k };

    // The number of a kind, which is the first word of its lines.
    fn from(kind: Kind) -> u64 {
        match kind {
            Kind::Penalty => 1,
            Kind::Notice => 2,
            Kind::Bought => 3,
            Kind::Compensation => 4,
        }
    }
}

// A line of a Close. Its kind is the number of a `Kind`, since a line is also read back from a list of words.
#[derive(Clone, Copy)]
pub struct Line {
    pub kind: u64,
    pub obligation: u64,
    pub quantity: u64,
    pub cents: u64,
    pub supplier: u64,
    pub price: u64,
}

// An obligation in the course of its Close, with its number, and how many lines there are so far. The list of the lines is
// lent to each step and is no field, because each contract would then also have to say that the field keeps its list.
#[derive(Clone, Copy)]
pub struct Closing {
    pub number: u64,
    pub obligation: Obligation,
    pub count: usize,
}

// Writes a line after the count lines that are there. One copy of all six words was tried, and its proof did not close,
// because no law joins the library's write of a part of a list with `sets`.
#[tactic(auto, using(basics::proofs::Stores::six_stores))]
pub fn put_line(lines: &mut [u64], count: usize, line: Line)
    requires { words_in_line * (count + 1) ≤ length lines.old }
    ensures { lines.new ≡ sets lines.old (words_in_line * count) (words_of line) }
{
    let at = WORDS_IN_LINE * count;
    lines[at] = line.kind;
    lines[at + 1] = line.obligation;
    lines[at + 2] = line.quantity;
    lines[at + 3] = line.cents;
    lines[at + 4] = line.supplier;
    lines[at + 5] = line.price;
}

// Stores the price in the obligation at age = grace. The cap needs it later.
#[tactic(auto, unfolding(crate::specs::Stages::priced))]
fn keep_price(o: Obligation, terms: Terms, age: ClearingDays, price: u64) -> Obligation
    requires { price ≤ most_close_price }
    ensures { result ≡ priced terms age.0 price o }
{
    if age == terms.grace {
        return o.keep_price(price);
    }
    o
}

// Decides what is done to an obligation of this age beside its penalty.
#[tactic(auto, unfolding(crate::specs::Stages::measures_at))]
fn measures_at(terms: Terms, age: ClearingDays, o: Obligation) -> Measures
    requires { ValidTerms terms }
    ensures { result ≡ measures_at terms age.0 o }
{
    let last = o.last_of(terms);
    Measures {
        notice: age == terms.notice,
        buy_in: ledger::buys_in(terms.grace, last, age),
        compensation: age == last,
    }
}

impl Closing {
    // A line on this obligation. Its last two words, supplier and price of the offer, are 0.
    fn plain_line(&self, kind: Kind, quantity: u64, cents: u64) -> Line
        ensures { result ≡ plain_line (kind_number kind) self.now.number quantity cents }
    {
        Line {
            kind: u64::from(kind),
            obligation: self.number,
            quantity: quantity,
            cents: cents,
            supplier: 0,
            price: 0,
        }
    }

    // Reports one line.
    #[tactic(auto, using(crate::proofs::Lines::wrote_one))]
    fn report(&mut self, line: Line, lines: &mut [u64])
        requires { Room self.old.count lines.old (one self.old.obligation line) }
        ensures { Wrote self.old lines.old self.new lines.new (one self.old.obligation line) }
    {
        put_line(lines, self.count, line);
        self.count += 1;
    }

    // Reports the penalty on what is outstanding before any buy-in.
    #[tactic(auto, unfolding(crate::specs::Stages::penalised))]
    fn penalise(&mut self, cents: u64, lines: &mut [u64])
        requires { Room self.old.count lines.old (penalised self.old.number cents self.old.obligation) }
        ensures { Wrote self.old lines.old self.new lines.new (penalised self.old.number cents self.old.obligation) }
    {
        let left = self.obligation.parts.outstanding as u64;
        let line = self.plain_line(Kind::Penalty, left, cents);
        self.report(line, lines);
    }

    // Reports a notice.
    #[tactic(auto, unfolding(crate::specs::Stages::notice_at))]
    fn give_notice(&mut self, lines: &mut [u64])
        requires { Room self.old.count lines.old (notice_at true self.old.number self.old.obligation) }
        ensures { Wrote self.old lines.old self.new lines.new (notice_at true self.old.number self.old.obligation) }
    {
        let left = self.obligation.parts.outstanding as u64;
        let line = self.plain_line(Kind::Notice, left, 0);
        self.report(line, lines);
    }

    // Buys in what one offer gives, and reports it.
    #[tactic(auto, unfolding(crate::specs::Stages::bought_from), using(crate::proofs::Lines::wrote_from, ledger::proofs::Keeping::outstanding_most))]
    fn buy_from(&mut self, from: Given, lines: &mut [u64])
        requires takes { (Takes self.old.obligation from.quantity) × (from.offer.price ≤ most_offer_price) }
        requires room { Room self.old.count lines.old (bought_from self.old.number from self.old.obligation) }
        ensures { Wrote self.old lines.old self.new lines.new (bought_from self.old.number from self.old.obligation) }
    {
        let quantity = from.quantity as u64;
        let price = from.offer.price as u64;
        let cash = self.obligation.cash_for(quantity);
        let line = Line {
            kind: u64::from(Kind::Bought),
            obligation: self.number,
            quantity: quantity,
            cents: amounts::charge_for(quantity, price, cash),
            supplier: from.offer.supplier as u64,
            price: price,
        };
        self.obligation = self.obligation.move_to(Part::BoughtIn, quantity);
        self.report(line, lines);
    }

    // Buys in what each offer gives, in the order of the auction.
    fn buy_all(&mut self, given: &[Given], lines: &mut [u64])
        requires buys { Buys self.old.obligation given.now }
        requires room { Room self.old.count lines.old (bought_all self.old.number given.now self.old.obligation) }
        ensures { Wrote self.old lines.old self.new lines.new (bought_all self.old.number given.now self.old.obligation) }
    {
        for from in given {
            self.buy_from(*from, lines);
        }
    }

    // Makes the buy-in.
    fn buy_in(&mut self, offers: &Offers, lines: &mut [u64])
        requires sound { (Sound self.old.obligation) × (Priced offers.now) }
        requires room { Room self.old.count lines.old (buy_in_at true (listed_offers offers.now) self.old.number self.old.obligation) }
        ensures { Wrote self.old lines.old self.new lines.new (buy_in_at true (listed_offers offers.now) self.old.number self.old.obligation) }
    {
        let left = self.obligation.parts.outstanding as u64;
        let bought = offers.buy_in(self.number, left);
        self.buy_all(&bought.given[..bought.count], lines);
    }

    // Compensates what is left, unless it is 0.
    #[tactic(auto, unfolding(crate::specs::Stages::compensated), using(crate::proofs::Lines::wrote_from, crate::proofs::Lines::wrote_nothing, ledger::proofs::Keeping::outstanding_most))]
    fn compensate(&mut self, price: u64, lines: &mut [u64])
        requires sound { (Sound self.old.obligation) × (price ≤ most_close_price) }
        requires room { Room self.old.count lines.old (compensated price self.old.number self.old.obligation) }
        ensures { Wrote self.old lines.old self.new lines.new (compensated price self.old.number self.old.obligation) }
    {
        let left = self.obligation.parts.outstanding as u64;
        if left != 0 {
            let cents = amounts::compensation_of(left, price);
            let line = self.plain_line(Kind::Compensation, left, cents);
            self.obligation = self.obligation.move_to(Part::Compensated, left);
            self.report(line, lines);
        }
    }

    // Closes an obligation that is due and has this penalty. What is done to it beside the penalty is decided before
    // the first step.
    fn close_due(&mut self, cents: u64, day: &DayEnd, offers: &Offers, lines: &mut [u64])
        requires closes { (Closes day.now offers.now self.old.obligation) × (cents ≡ penalty_on day.now self.old.obligation) }
        requires room { Room self.old.count lines.old (stages day.now (age_by day.now.setup day.now.today self.old.obligation) (listed_offers offers.now) self.old.number self.old.obligation) }
        ensures { Wrote self.old lines.old self.new lines.new (stages day.now (age_by day.now.setup day.now.today self.old.obligation) (listed_offers offers.now) self.old.number self.old.obligation) }
    {
        let terms = day.setup.terms;
        let o = self.obligation;
        let age = day.setup.closed_days.age_at(o.deal.day, day.today);
        let measures = measures_at(terms, age, o);
        self.obligation = keep_price(o, terms, age, day.price);
        self.penalise(cents, lines);
        if measures.notice {
            self.give_notice(lines);
        }
        if measures.buy_in {
            self.buy_in(offers, lines);
        }
        if measures.compensation {
            self.compensate(day.price, lines);
        }
    }
}

impl DayEnd {
    // The penalty of an obligation at this end of a day.
    #[tactic(auto, unfolding(crate::specs::Stages::penalty_on), using(ledger::proofs::Keeping::outstanding_most))]
    fn penalty_on(&self, o: Obligation) -> u64
        requires { (Sound o) × (ValidEnd self.now) }
        ensures { result ≡ penalty_on self.now o }
    {
        amounts::penalty_of(o.parts.outstanding as u64, self.price, self.rate)
    }
}

// Closes a ledger: it closes each obligation that is due, in rising number, and moves its penalty between the accounts.
// Then it removes the offers. It returns how many lines it reported.
pub fn close(ledger: &mut Ledger, day: &DayEnd, lines: &mut [u64]) -> usize
    requires { Closable day.now ledger.old lines.old }
    ensures { ClosedAs (closed_ledger day.now ledger.old) (close_lines day.now ledger.old) ledger.new result lines.old lines.new }
{
    let mut count = 0;
    for i in 0..ledger.count {
        let o = ledger.obligations[i];
        if o.is_due(day.today) {
            let cents = day.penalty_on(o);
            let sides = o.penalty_sides();
            netting::transfer(
                &mut ledger.accounts,
                sides.debtor as usize,
                sides.creditor as usize,
                cents,
            );
            let mut closing = Closing {
                number: i as u64,
                obligation: o,
                count: count,
            };
            closing.close_due(cents, day, &ledger.offers, lines);
            ledger.obligations[i] = closing.obligation;
            count = closing.count;
        }
    }
    ledger.offers = Offers::none();
    count
}
