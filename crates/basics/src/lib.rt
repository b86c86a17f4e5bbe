// This crate holds what every chapter of the rules uses. The code has the smaller of two numbers, whether a number is
// outside two limits, and the reasons why a call is refused. specs/ has the choice by a test, sums over a list, lists of
// refusals, and the number of each reason. proofs/ has their laws, and laws on lists that the kit does not have.
#![tactic(auto)]

ghost use Rattle.std.specs.Prelude.{◌≡◌, min};
ghost use Rattle.basics.specs.Reasons.{number_of, answer_of};
ghost use Rattle.basics.specs.Refusals.{outside};

// Why a call is refused. docs/RULES.md has a number for each reason, R1 to R26, and says of each call when it is refused
// for it.
#[derive(Clone, Copy, PartialEq, Eq)]
pub enum Reason {
    // R1: there is no such member, supplier, side or terms, or both members are the same.
    BadParty,
    // R2: a quantity is outside its limits.
    BadQuantity,
    // R3: an amount, a price or a rate is outside its limits.
    BadAmount,
    // R4: the list of closed days is too long or does not rise.
    BadClosedDays,
    // R5: a list that is lent does not have the length that the call needs.
    BadLength,
    // R11: a day is no clearing day, or is too early or too late.
    BadDay,
    // R12: the book has no place for a leg.
    LegsFull,
    // R13: there is no such leg or obligation, or the leg does not wait.
    NotFound,
    // R14: the member may not ask this of the leg or the obligation, or has asked it before.
    NotEntitled,
    // R15: nothing is outstanding, or less than the quantity.
    TooLittleOutstanding,
    // R16: the obligation is too early or too late in its stages.
    WrongStage,
    // R17: the book has no place for an offer.
    OffersFull,
    // R18: a price is above the cap.
    AboveCap,
    // R19: more is collected from a member than it owes.
    OverCollected,
    // R20: there is no next clearing day.
    NoNextDay,
    // R21: there was no Close since Open or the last Month.
    NoCloseSince,
    // R22: there was no Close since Open.
    NeverClosed,
    // R23: the years of a Target are outside their limits.
    BadYears,
    // R24: a starting day is outside its limits.
    BadStart,
    // R25: the book has no place for a rate.
    RatesFull,
    // R26: no rate has started.
    NoRate,
}

impl From<Reason> for u64 {
    ghost from_gives = { λ r n. n ≡ number_of r };

    // The number of a refusal for this reason.
    fn from(reason: Reason) -> u64 {
        match reason {
            Reason::BadParty => 1,
            Reason::BadQuantity => 2,
            Reason::BadAmount => 3,
            Reason::BadClosedDays => 4,
            Reason::BadLength => 5,
            Reason::BadDay => 11,
            Reason::LegsFull => 12,
            Reason::NotFound => 13,
            Reason::NotEntitled => 14,
            Reason::TooLittleOutstanding => 15,
            Reason::WrongStage => 16,
            Reason::OffersFull => 17,
            Reason::AboveCap => 18,
            Reason::OverCollected => 19,
            Reason::NoNextDay => 20,
            Reason::NoCloseSince => 21,
            Reason::NeverClosed => 22,
            Reason::BadYears => 23,
            Reason::BadStart => 24,
            Reason::RatesFull => 25,
            Reason::NoRate => 26,
        }
    }
}

// The answer number of a call: 0 if it is done, and otherwise the number of the reason why it is refused.
pub fn answer_of<T>(done: &Result<T, Reason>) -> u64
    ensures { result ≡ answer_of done.now }
{
    match done {
        Ok(_) => 0,
        Err(reason) => u64::from(*reason),
    }
}

// Returns the smaller of two numbers, as the `min` of the library does. Each public function stays, and so does this one.
pub fn smaller(a: u64, b: u64) -> u64
    ensures { result ≡ min a b }
{
    if a < b { a } else { b }
}

// Whether a number is below `low` or above `high`.
pub fn is_outside(low: u64, high: u64, x: u64) -> bool
    ensures { result ≡ outside low high x }
{
    x < low || high < x
}
