// The refusals of Enter, Cancel, Deliver, Offer, Rate, Close and Again that need no book: from the input, on the
// obligation that was fetched, and by the rates. A function with the name of a call tests all refusals of the call,
// `.._in` those from its input, and `.._of` those on the obligation. It gives the reason of the first that holds.
#![tactic(auto)]

ghost use Rattle.std.specs.Prelude.{◌≡◌, ◌≤◌};
ghost use Rattle.basics.specs.Reasons.{answer_of};
ghost use Rattle.basics.specs.Refusals.{answer};
ghost use Rattle.amounts.specs.Amounts.{most_offer_price, most_close_price};
ghost use Rattle.instructions.specs.Legs.{leg_of};
ghost use Rattle.ledger.specs.Setup.{ValidTerms};
ghost use Rattle.rates.specs.Rows.{most_rows};
ghost use Rattle.refusals.specs.Calls.{bad_first, bad_parties, bad_day, enter_refusals, member_refusals_in, cancel_refusals_of, deliver_refusals_in};
ghost use Rattle.refusals.specs.Calls.{deliver_refusals_of, offer_refusals_in, not_in_buy_in, offer_refusals_of, bad_start, last_kept, no_place, rate_refusals};
ghost use Rattle.refusals.specs.Calls.{is_short, close_refusals_in, again_refusals};

use amounts::{MOST_AMOUNT, MOST_CLOSE_PRICE, MOST_OFFER_PRICE, MOST_QUANTITY, MOST_RATE};
use basics::Reason;
use calendar::{ClearingDays, ClosedDays, Day, LAST_DAY};
use instructions::{Instruction, MOST_LEGS};
use ledger::{FEWEST_WORDS, LATEST_DAY, MOST_SUPPLIER, Obligation, Terms};
use netting::LAST_MEMBER;
use offers::MOST_OFFERS;
use rates::{MOST_ROWS, Rates};

// Whether the members or the side of an instruction are refused.
pub fn are_bad_parties(asked: Instruction) -> bool
    ensures { result ≡ bad_parties asked.member asked.other asked.side }
{
    LAST_MEMBER < asked.member
        || (LAST_MEMBER < asked.other || (asked.member == asked.other || 1 < asked.side))
}

// Whether a first day is refused: it is above the last day, or it is not a clearing day.
pub fn is_bad_first(closed_days: &ClosedDays, first: Day) -> bool
    ensures { result ≡ bad_first closed_days.now first }
{
    LAST_DAY < first.0 || !closed_days.is_clearing(first)
}

// Whether a settlement day is refused: it is not a clearing day, is before today or is above the latest day.
fn is_bad_day(closed_days: &ClosedDays, today: Day, day: Day) -> bool
    ensures { result ≡ bad_day closed_days.now today day }
{
    !closed_days.is_clearing(day) || (day < today || LATEST_DAY < day.0)
}

// The refusals of an instruction, in a book with these closed days, this day and this many legs.
#[tactic(auto, unfolding(crate::specs::Calls::enter_refusals), using(basics::proofs::Refusals::pass, basics::proofs::Refusals::stop, basics::proofs::Refusals::all_passed))]
pub fn enter(
    closed_days: &ClosedDays,
    today: Day,
    legs: usize,
    asked: Instruction,
) -> Result<(), Reason>
    ensures { answer_of result ≡ answer (enter_refusals closed_days.now today legs (leg_of asked)) }
{
    if are_bad_parties(asked) {
        return Err(Reason::BadParty);
    }
    if basics::is_outside(1, MOST_QUANTITY, asked.quantity) {
        return Err(Reason::BadQuantity);
    }
    if basics::is_outside(1, MOST_AMOUNT, asked.amount) {
        return Err(Reason::BadAmount);
    }
    if is_bad_day(closed_days, today, asked.day) {
        return Err(Reason::BadDay);
    }
    if MOST_LEGS <= legs {
        return Err(Reason::LegsFull);
    }
    Ok(())
}

// The refusals of a call by the member that it names: all of an Account and of a Look, and those of a Cancel by its input.
#[tactic(auto, using(basics::proofs::Refusals::pass, basics::proofs::Refusals::stop, basics::proofs::Refusals::all_passed))]
pub fn member_in(member: u64) -> Result<(), Reason>
    ensures { answer_of result ≡ answer (member_refusals_in member) }
{
    if LAST_MEMBER < member {
        return Err(Reason::BadParty);
    }
    Ok(())
}

// The refusals of a wish to cancel a fetched obligation.
#[tactic(auto, unfolding(crate::specs::Calls::cancel_refusals_of), using(basics::proofs::Refusals::pass, basics::proofs::Refusals::stop, basics::proofs::Refusals::all_passed))]
pub fn cancel_of(found: Obligation, member: u64) -> Result<(), Reason>
    ensures { answer_of result ≡ answer (cancel_refusals_of found member) }
{
    if !found.is_party(member) || found.has_wished(member) {
        return Err(Reason::NotEntitled);
    }
    if found.parts.outstanding == 0 {
        return Err(Reason::TooLittleOutstanding);
    }
    Ok(())
}

// The refusals of a delivery by its own numbers.
#[tactic(auto, using(basics::proofs::Refusals::pass, basics::proofs::Refusals::stop, basics::proofs::Refusals::all_passed))]
pub fn deliver_in(quantity: u64) -> Result<(), Reason>
    ensures { answer_of result ≡ answer (deliver_refusals_in quantity) }
{
    if basics::is_outside(1, MOST_QUANTITY, quantity) {
        return Err(Reason::BadQuantity);
    }
    Ok(())
}

// The refusals of a delivery of a fetched obligation.
#[tactic(auto, unfolding(crate::specs::Calls::deliver_refusals_of), using(basics::proofs::Refusals::pass, basics::proofs::Refusals::stop, basics::proofs::Refusals::all_passed))]
pub fn deliver_of(today: Day, found: Obligation, quantity: u64) -> Result<(), Reason>
    ensures { answer_of result ≡ answer (deliver_refusals_of today found quantity) }
{
    if (found.parts.outstanding as u64) < quantity {
        return Err(Reason::TooLittleOutstanding);
    }
    if today < found.deal.day {
        return Err(Reason::WrongStage);
    }
    Ok(())
}

// The refusals of an offer by its own numbers. They and those of `offer_of` are not inlined, because each refusal would
// be one more way through an Offer. With so many ways the compiler copies the whole book in and out.
#[tactic(auto, unfolding(crate::specs::Calls::offer_refusals_in), using(basics::proofs::Refusals::pass, basics::proofs::Refusals::stop, basics::proofs::Refusals::all_passed))]
#[inline(never)]
pub fn offer_in(supplier: u64, quantity: u64, price: u64) -> Result<(), Reason>
    ensures { answer_of result ≡ answer (offer_refusals_in supplier quantity price) }
{
    if MOST_SUPPLIER < supplier {
        return Err(Reason::BadParty);
    }
    if basics::is_outside(1, MOST_QUANTITY, quantity) {
        return Err(Reason::BadQuantity);
    }
    if basics::is_outside(1, MOST_OFFER_PRICE, price) {
        return Err(Reason::BadAmount);
    }
    Ok(())
}

// Whether the obligation of an offer is too early or too late in its stages: it is not in its buy-in days.
fn is_not_in_buy_in(terms: Terms, today: Day, age: ClearingDays, found: Obligation) -> bool
    requires { ValidTerms terms }
    ensures { result ≡ not_in_buy_in terms today age.0 found }
{
    today < found.deal.day || !ledger::buys_in(terms.grace, found.last_of(terms), age)
}

// The refusals of an offer for a fetched obligation with its age, in a book with this many offers.
#[tactic(auto, unfolding(crate::specs::Calls::offer_refusals_of), using(basics::proofs::Refusals::pass, basics::proofs::Refusals::stop, basics::proofs::Refusals::all_passed))]
#[inline(never)]
pub fn offer_of(
    terms: Terms,
    today: Day,
    age: ClearingDays,
    offers: usize,
    found: Obligation,
    price: u64,
) -> Result<(), Reason>
    requires { (ValidTerms terms) × (price ≤ most_offer_price) × (found.stage.grace_price ≤ most_close_price) }
    ensures { answer_of result ≡ answer (offer_refusals_of terms today age.0 offers found price) }
{
    if found.parts.outstanding == 0 {
        return Err(Reason::TooLittleOutstanding);
    }
    if is_not_in_buy_in(terms, today, age, found) {
        return Err(Reason::WrongStage);
    }
    if MOST_OFFERS <= offers {
        return Err(Reason::OffersFull);
    }
    if amounts::above_cap(price, found.stage.grace_price as u64) {
        return Err(Reason::AboveCap);
    }
    Ok(())
}

// Whether a starting day is refused: it is before today or above the last day.
fn is_bad_start(today: Day, start: Day) -> bool
    ensures { result ≡ bad_start today start }
{
    start < today || LAST_DAY < start.0
}

// Whether the last place is kept for a row that has started, so that a Close can come.
#[tactic(auto, unfolding(crate::specs::Calls::last_kept))]
fn keeps_last(today: Day, held: &Rates, start: Day) -> bool
    requires { held.now.count ≤ most_rows }
    ensures { result ≡ last_kept today held.now start }
{
    held.count + 1 == MOST_ROWS && (today < start && held.none_started(today))
}

// Whether there is no place for a row with this starting day.
#[tactic(auto, unfolding(crate::specs::Calls::no_place))]
fn has_no_place(today: Day, held: &Rates, start: Day) -> bool
    requires { held.now.count ≤ most_rows }
    ensures { result ≡ no_place today held.now start }
{
    !held.has_row(start) && (MOST_ROWS <= held.count || keeps_last(today, held, start))
}

// The refusals of a Rate, in a book with these rates and this day.
#[tactic(auto, unfolding(crate::specs::Calls::rate_refusals), using(basics::proofs::Refusals::pass, basics::proofs::Refusals::stop, basics::proofs::Refusals::all_passed))]
pub fn rate(today: Day, held: &Rates, start: Day, rate: u64) -> Result<(), Reason>
    requires { held.now.count ≤ most_rows }
    ensures { answer_of result ≡ answer (rate_refusals today held.now start rate) }
{
    if MOST_RATE < rate {
        return Err(Reason::BadAmount);
    }
    if is_bad_start(today, start) {
        return Err(Reason::BadStart);
    }
    if has_no_place(today, held, start) {
        return Err(Reason::RatesFull);
    }
    Ok(())
}

// Whether a list is too short for the lines of a Close.
fn is_short(words: usize) -> bool
    ensures { result ≡ is_short words }
{
    words < FEWEST_WORDS
}

// The refusals of a Close by its own numbers, with this many words lent.
#[tactic(auto, unfolding(crate::specs::Calls::close_refusals_in), using(basics::proofs::Refusals::pass, basics::proofs::Refusals::stop, basics::proofs::Refusals::all_passed))]
pub fn close_in(price: u64, words: usize) -> Result<(), Reason>
    ensures { answer_of result ≡ answer (close_refusals_in price words) }
{
    if basics::is_outside(1, MOST_CLOSE_PRICE, price) {
        return Err(Reason::BadAmount);
    }
    if is_short(words) {
        return Err(Reason::BadLength);
    }
    Ok(())
}

// The refusals of an Again, with this many words lent. `closed` says whether a Close was accepted since Open.
#[tactic(auto, unfolding(crate::specs::Calls::again_refusals), using(basics::proofs::Refusals::pass, basics::proofs::Refusals::stop, basics::proofs::Refusals::all_passed))]
pub fn again(closed: bool, words: usize) -> Result<(), Reason>
    ensures { answer_of result ≡ answer (again_refusals closed words) }
{
    if is_short(words) {
        return Err(Reason::BadLength);
    }
    if !closed {
        return Err(Reason::NeverClosed);
    }
    Ok(())
}
