// Month: what is collected from the members that owe, and paid out to those that claim.
#![tactic(auto)]

ghost use Rattle.std.specs.Prelude.{◌≡◌, false, length, pos};
ghost use Rattle.basics.specs.Reasons.{answer_of};
ghost use Rattle.netting.specs.Accounts.{debts, Bounded, balance};
ghost use Rattle.payments.specs.Month.{bad_amounts, bad_lists, over_collected, amounts_paid, month_answer_by, paid_out};

use basics::Reason;
use netting::MEMBER_COUNT;

// Whether a list of this many collected amounts is neither empty nor one with an amount for each member.
fn are_bad_amounts(collected: usize) -> bool
    ensures { result ≡ bad_amounts collected }
{
    collected != 0 && collected != MEMBER_COUNT
}

// Whether one of the two lists has a wrong length.
fn are_bad_lists(collected: usize, places: usize) -> bool
    ensures { result ≡ bad_lists collected places }
{
    are_bad_amounts(collected) || places != MEMBER_COUNT
}

// Returns what each member paid: the amounts of the list, or what each owes if the list is empty.
fn amounts_of(accounts: &[i64; MEMBER_COUNT], list: &[u64]) -> [u64; MEMBER_COUNT]
    requires { bad_amounts (length list.now) ≡ false }
    ensures value { result ≡ amounts_paid (debts accounts.now) list.now }
    ensures list_stays { list.exit.now ≡ list.entry.now }
{
    if list.is_empty() {
        return accounts.map(netting::owed_by);
    }
    let mut amounts = [0; MEMBER_COUNT];
    amounts.copy_from_slice(list);
    amounts
}

// Whether an amount of the list is above what its member owes.
fn is_over(accounts: &[i64; MEMBER_COUNT], list: &[u64]) -> bool
    ensures { result ≡ over_collected accounts.now list.now }
{
    let mut paid = accounts.iter().zip(list);
    paid.any(|(account, amount)| netting::owed_by(*account) < *amount)
}

// Collects and pays out, or refuses. `since` says whether a Close was accepted since Open or since the last accepted
// Month. If the list of collected amounts is empty, each member paid what it owes.
#[tactic(auto, using(crate::proofs::Collected::collected_fits, crate::proofs::Collected::collected_shareable), unfolding(crate::specs::Month::month_refusals, crate::specs::Month::paid_out, basics::specs::Refusals::answer))]
pub fn settle_month(
    accounts: &[i64; MEMBER_COUNT],
    since: bool,
    collected: &[u64],
    places: &mut [u64],
) -> Result<(), Reason>
    requires { (Bounded accounts.now) × (balance accounts.now ≡ pos 0) }
    ensures value { answer_of result ≡ month_answer_by accounts.now since collected.now (length places.old) }
    ensures places_after { places.new ≡ paid_out accounts.now since collected.now places.old }
    ensures collected_stays { collected.exit.now ≡ collected.entry.now }
{
    if are_bad_lists(collected.len(), places.len()) {
        return Err(Reason::BadLength);
    }
    if is_over(accounts, collected) {
        return Err(Reason::OverCollected);
    }
    if !since {
        return Err(Reason::NoCloseSince);
    }
    let total = netting::sum_of(&amounts_of(accounts, collected));
    places.copy_from_slice(&netting::shares_of(*accounts, total));
    Ok(())
}
