// Instructions: Enter, Withdraw, Cancel, Deliver.
ghost use Rattle.std.specs.Prelude.{◌≡◌, ◌≤◌};
ghost use Rattle.basics.specs.Reasons.{answer_of};
ghost use Rattle.basics.specs.Refusals.{answer};
ghost use Rattle.instructions.specs.Legs.{most_legs, fetched_leg};
ghost use Rattle.ledger.specs.Ledger.{fetched, effect_of, ValidLedger};
ghost use Rattle.book.specs.Book.{Valid};
ghost use Rattle.book.specs.Instructing.{obligation_of, with_match, Matchable, enter, withdraw};
ghost use Rattle.book.specs.Instructing.{withdraw_refusals, cancel_change, cancel, deliver_change, deliver};

use crate::{Book, Cancelled, Delivered, Done, Entered};
use basics::Reason;
use calendar::Day;
use instructions::{Entry, Instruction, Leg, LegState, Legs};
use ledger::{Change, Deal, Fetched, Ledger, Obligation, Part};

// The obligation of a new leg and the one that it matches.
fn obligation_of(new: Leg, old: Leg) -> Obligation
    ensures { result ≡ obligation_of new old }
{
    let seller = new.delivering(old);
    Obligation::new(Deal {
        amount: seller.amount,
        day: new.day,
        quantity: new.quantity,
        seller: seller.member,
        buyer: new.receiving(old).member,
    })
}

// The refusals of a Withdraw of one of these legs.
fn may_withdraw(legs: &Legs, leg: u64, member: u64) -> Result<(), Reason>
    requires { legs.now.count ≤ most_legs }
    ensures { answer_of result ≡ answer (withdraw_refusals (fetched_leg legs.now leg) member) }
{
    refusals::member_in(member)?;
    let found = legs.fetch(leg).ok_or(Reason::NotFound)?;
    if !instructions::is_waiting(found.state) {
        return Err(Reason::NotFound);
    }
    if found.member as u64 != member {
        return Err(Reason::NotEntitled);
    }
    Ok(())
}

// What a Cancel comes to on the obligation that it names. Its result is the quantity that is cancelled.
fn cancel_change(ledger: &Ledger, obligation: u64, member: u64) -> Result<Change, Reason>
    requires { ValidLedger ledger.now }
    ensures { effect_of result ≡ cancel_change member (fetched ledger.now obligation) }
{
    refusals::member_in(member)?;
    let Fetched::Found(found) = ledger.fetch(obligation) else {
        return Err(Reason::NotFound);
    };
    refusals::cancel_of(found, member)?;
    Ok(Change {
        result: found.moved_by_wish(member),
        obligation: found.wish(member),
    })
}

// What a Deliver comes to on the obligation that it names. Its result is the cash.
fn deliver_change(
    ledger: &Ledger,
    obligation: u64,
    today: Day,
    quantity: u64,
) -> Result<Change, Reason>
    requires { ValidLedger ledger.now }
    ensures { effect_of result ≡ deliver_change today quantity (fetched ledger.now obligation) }
{
    refusals::deliver_in(quantity)?;
    let Fetched::Found(found) = ledger.fetch(obligation) else {
        return Err(Reason::NotFound);
    };
    refusals::deliver_of(today, found, quantity)?;
    Ok(Change {
        result: found.cash_for(quantity),
        obligation: found.move_to(Part::Delivered, quantity),
    })
}

// The ledger after an Enter. If the new leg matches one of these legs, it has one obligation more.
fn with_match(ledger: &mut Ledger, legs: &Legs, entry: &Result<Entry, Reason>)
    requires { Matchable entry.now ledger.old }
    ensures { ledger.new ≡ with_match legs.now entry.now ledger.old }
{
    let mut rows = ledger.obligations;
    match entry {
        Err(_) | Ok(Entry::Alone(_)) => {}
        Ok(Entry::Matching(new, k)) => {
            rows[ledger.count] = obligation_of(*new, legs.rows[*k]);
            ledger.count += 1;
        }
    }
    ledger.obligations = rows;
}

impl Book {
    // Enters an instruction, which matches the lowest waiting leg that fits it, or waits.
    pub fn enter(
        mut self,
        member: u64,
        other: u64,
        side: u64,
        quantity: u64,
        amount: u64,
        day: Day,
    ) -> Entered
        requires { Valid self }
        ensures value { result ≡ enter self member other side quantity amount day }
        ensures valid { Valid result.book }
    {
        let asked = Instruction {
            member,
            other,
            side,
            quantity,
            amount,
            day,
        };
        // The number of legs is read from the book and not from the copy of the legs. By this read the compiler keeps
        // the legs and the obligations apart, so that a call copies only the one of the two that it changes.
        let number = self.legs.count;
        let mut legs = self.legs;
        let closed_days = self.setup.closed_days;
        let obligations = self.ledger.count as u64;
        let allowed = refusals::enter(&closed_days, self.day.today, number, asked);
        let entry = legs.entry(allowed, asked);
        with_match(&mut self.ledger, &legs, &entry);
        legs.enter(&entry, obligations);
        self.legs = legs;
        let answer = basics::answer_of(&entry);
        let leg = Entry::leg_number(&entry, number as u64);
        let obligation = Entry::obligation_number(&entry, obligations);
        Entered {
            answer,
            leg,
            obligation,
            book: self,
        }
    }

    // Withdraws a leg of the member, which must be waiting.
    pub fn withdraw(mut self, leg: u64, member: u64) -> Done
        requires { Valid self }
        ensures value { result ≡ withdraw self leg member }
        ensures valid { Valid result.book }
    {
        let mut legs = self.legs;
        let allowed = may_withdraw(&legs, leg, member);
        let answer = basics::answer_of(&allowed);
        if answer == 0 {
            legs.set_state(leg, LegState::Withdrawn);
        }
        self.legs = legs;
        Done { answer, book: self }
    }

    // Records a party's wish to cancel; the second wish cancels what is outstanding.
    pub fn cancel(mut self, obligation: u64, member: u64) -> Cancelled
        requires { Valid self }
        ensures value { result ≡ cancel self obligation member }
        ensures valid { Valid result.book }
    {
        let change = cancel_change(&self.ledger, obligation, member);
        self.ledger.change(obligation, &change);
        let answer = basics::answer_of(&change);
        let moved = ledger::result_of(&change);
        Cancelled {
            answer,
            moved,
            book: self,
        }
    }

    // Delivers a quantity of an obligation, against cash.
    pub fn deliver(mut self, obligation: u64, quantity: u64) -> Delivered
        requires { Valid self }
        ensures value { result ≡ deliver self obligation quantity }
        ensures valid { Valid result.book }
    {
        let change = deliver_change(&self.ledger, obligation, self.day.today, quantity);
        self.ledger.change(obligation, &change);
        let answer = basics::answer_of(&change);
        let cash = ledger::result_of(&change);
        Delivered {
            answer,
            cash,
            book: self,
        }
    }
}
