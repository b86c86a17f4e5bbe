// Money: values, penalties, compensation, cash for a part, charges, the matching tolerance, the cap, and quotients of
// products. All amounts are cents. The `requires` clauses state the limits of refusals 2 and 3, within which nothing
// overflows.
#![tactic(auto)]

ghost use Rattle.std.specs.Prelude.{◌≡◌, ◌+◌, ◌-◌, ◌*◌, ◌/◌, ◌≤◌, ◌<◌, ◌^◌};
ghost use Rattle.amounts.specs.Amounts.{most_quantity, most_amount, most_close_price, most_offer_price, most_rate, value, penalty, compensation, due_for, cash, charge, tolerance, amounts_match, above_cap};
ghost use Rattle.amounts.specs.Quotients.{rounded, divided};

// The limits of refusals 2 and 3. Each has its definition in specs/ under the same name, as `most_quantity`.
pub const MOST_QUANTITY: u64 = 100_000;

pub const MOST_AMOUNT: u64 = 20_000_000_000;

pub const MOST_CLOSE_PRICE: u64 = 150_000;

pub const MOST_OFFER_PRICE: u64 = 200_000;

pub const MOST_RATE: u64 = 100;

// A rate is in millionths of a value.
const RATE_PARTS: u64 = 1_000_000;

// Compensation is a tenth of a value.
const COMPENSATION_PARTS: u64 = 10;

// Delivering amounts up to this one have the narrow tolerance, and larger ones the wide one.
const NARROW_UP_TO: u64 = 10_000_000;

const NARROW_TOLERANCE: u64 = 200;

const WIDE_TOLERANCE: u64 = 2_500;

// The cap is 108 hundredths of the price of the Close at age = grace.
const CAP_HUNDREDTHS: u64 = 108;

// A quotient and its remainder.
#[derive(Clone, Copy)]
pub struct Divided {
    pub quotient: u64,
    pub remainder: u64,
}

// Returns what q units are worth at a price.
#[tactic(auto, unfolding(crate::specs::Amounts::value), using(crate::proofs::Bounds::product_most))]
pub fn value_of(q: u64, price: u64) -> u64
    requires { (q ≤ most_quantity) × (price ≤ most_offer_price) }
    ensures { result ≡ value q price }
{
    q * price
}

// Returns the quotient, rounded to the nearest whole number; a half goes up.
#[tactic(auto, unfolding(crate::specs::Quotients::rounded))]
pub fn rounded_quotient(n: u64, d: u64) -> u64
    requires { (0 < d) × (n < 2 ^ 63) × (d < 2 ^ 63) }
    ensures { result ≡ rounded n d }
{
    (n + d / 2) / d
}

// Returns the penalty of one day on q units that are outstanding.
#[tactic(auto, unfolding(crate::specs::Amounts::penalty), using(crate::proofs::Bounds::product_most, crate::proofs::Bounds::value_most))]
pub fn penalty_of(q: u64, price: u64, rate: u64) -> u64
    requires { (q ≤ most_quantity) × (price ≤ most_close_price) × (rate ≤ most_rate) }
    ensures { result ≡ penalty q price rate }
{
    rounded_quotient(value_of(q, price) * rate, RATE_PARTS)
}

// Returns the compensation for q units.
#[tactic(auto, unfolding(crate::specs::Amounts::compensation), using(crate::proofs::Bounds::value_most))]
pub fn compensation_of(q: u64, price: u64) -> u64
    requires { (q ≤ most_quantity) × (price ≤ most_close_price) }
    ensures { result ≡ compensation q price }
{
    rounded_quotient(value_of(q, price), COMPENSATION_PARTS)
}

// Returns what is due of an amount once t of q units are settled.
#[tactic(auto, unfolding(crate::specs::Amounts::due_for), using(crate::proofs::Bounds::product_most))]
fn due_for(amount: u64, q: u64, t: u64) -> u64
    requires { (amount ≤ most_amount) × (0 < q) × (q ≤ most_quantity) × (t ≤ q) }
    ensures { result ≡ due_for amount q t }
{
    amount * t / q
}

// Returns the cash of a delivery: s of q units were settled before it, and t are settled after it.
#[tactic(auto, unfolding(crate::specs::Amounts::cash), using(crate::proofs::Cash::due_rises))]
pub fn cash_for(amount: u64, q: u64, s: u64, t: u64) -> u64
    requires { (amount ≤ most_amount) × (0 < q) × (q ≤ most_quantity) × (s ≤ t) × (t ≤ q) }
    ensures { result ≡ cash amount q s t }
{
    due_for(amount, q, t) - due_for(amount, q, s)
}

// Returns the charge for q units that are bought at a price, where this cash is due for them.
#[tactic(auto, unfolding(crate::specs::Amounts::charge))]
pub fn charge_for(q: u64, price: u64, cash: u64) -> u64
    requires { (q ≤ most_quantity) × (price ≤ most_offer_price) }
    ensures { result ≡ charge q price cash }
{
    value_of(q, price).saturating_sub(cash)
}

// Returns the tolerance of a match.
#[tactic(auto, unfolding(crate::specs::Amounts::tolerance))]
pub fn tolerance_of(delivering: u64) -> u64
    ensures { result ≡ tolerance delivering }
{
    if delivering <= NARROW_UP_TO {
        NARROW_TOLERANCE
    } else {
        WIDE_TOLERANCE
    }
}

// Says whether two amounts are within the tolerance.
#[tactic(auto, unfolding(crate::specs::Amounts::amounts_match))]
pub fn amounts_match(delivering: u64, receiving: u64) -> bool
    ensures { result ≡ amounts_match delivering receiving }
{
    delivering.abs_diff(receiving) <= tolerance_of(delivering)
}

// Says whether the price of an offer is above the cap.
#[tactic(auto, unfolding(crate::specs::Amounts::above_cap))]
pub fn above_cap(price: u64, grace_price: u64) -> bool
    requires { (price ≤ most_offer_price) × (grace_price ≤ most_close_price) }
    ensures { result ≡ above_cap price grace_price }
{
    CAP_HUNDREDTHS * grace_price < 100 * price
}

// Returns the quotient and the remainder of part × factor by whole; both are 0 where the whole is 0. The product may
// exceed 64 bits, so it has 128. The part is no more than the whole, so the quotient fits 64 bits again.
pub fn product_divided(part: u64, factor: u64, whole: u64) -> Divided
    requires { part ≤ whole }
    ensures { result ≡ divided (part * factor) whole }
{
    if whole == 0 {
        return Divided {
            quotient: 0,
            remainder: 0,
        };
    }
    let product = u128::from(part) * u128::from(factor);
    let divisor = u128::from(whole);
    Divided {
        quotient: (product / divisor) as u64,
        remainder: (product % divisor) as u64,
    }
}
