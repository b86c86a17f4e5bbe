// The members' accounts: a penalty that passes from one to another, what each account claims and owes, and how the sum
// collected in a month is shared.
#![tactic(auto)]

ghost use Rattle.std.specs.Prelude.{◌≡◌, ◌*◌, ◌≤◌, ◌<◌, ◌^◌, length, get_or, sum_by};
ghost use Rattle.basics.specs.Lists.{sum};
ghost use Rattle.amounts.specs.Quotients.{divided};
ghost use Rattle.netting.specs.Accounts.{claim, owed, claims, transferred};
ghost use Rattle.netting.specs.Accounts.{member_count, most_account, Bounded, Transferable, Shareable};
ghost use Rattle.netting.specs.Shares.{comes_before, rank, shares};
ghost use Rattle.netting.specs.Portions.{Dividable, parts, floor_of, remainder_of, portions, cent_of, share_of};

use amounts::Divided;
use std::array;

// How many members there are; `member_count` in specs/.
pub const MEMBER_COUNT: usize = 32;

// The highest number of a member; `last_member` in specs/.
pub const LAST_MEMBER: u64 = MEMBER_COUNT as u64 - 1;

// What the code computes before any share: for each member the quotient, which is its share rounded down, and the
// remainder; and the cents left.
#[derive(Drop)]
struct Portions {
    parts: [Divided; MEMBER_COUNT],
    left: u64,
}

// Returns what an account claims.
pub fn claim_of(account: i64) -> u64
    ensures { result ≡ claim account }
{
    account.max(0).unsigned_abs()
}

// Returns what an account owes.
pub fn owed_by(account: i64) -> u64
    ensures { result ≡ owed account }
{
    account.min(0).unsigned_abs()
}

// Moves cents from the account of one member to that of another. It reads the creditor's account after it has stored
// the debit, so a transfer from a member to itself would change nothing.
pub fn transfer(accounts: &mut [i64], debtor: usize, creditor: usize, cents: u64)
    requires { (Transferable debtor creditor cents accounts.old) × (length accounts.old ≡ member_count) }
    ensures { accounts.new ≡ transferred debtor creditor cents accounts.old }
{
    accounts[debtor] -= cents as i64;
    accounts[creditor] += cents as i64;
}

// Returns the sum of some amounts.
#[tactic(auto, using(crate::proofs::Library::sum_is))]
pub fn sum_of(amounts: &[u64]) -> u64
    requires { sum amounts.now < 2 ^ 64 }
    ensures { result ≡ sum amounts.now }
{
    amounts.iter().sum()
}

// Returns for each claim its share rounded down, and the remainder. Both are 0 where nobody claims.
fn parts_of(collected: u64, claims: &[u64; MEMBER_COUNT]) -> [Divided; MEMBER_COUNT]
    requires { Dividable collected claims.now }
    ensures { result ≡ parts collected claims.now }
{
    let whole = sum_of(claims);
    claims.map(|claim| amounts::product_divided(collected, claim, whole))
}

// Returns what all shares rounded down add up to.
fn given_by(parts: &[Divided]) -> u64
    requires { sum_by (λ d. d.quotient) parts.now < 2 ^ 64 }
    ensures { result ≡ sum_by (λ d. d.quotient) parts.now }
{
    parts.iter().map(|part| part.quotient).sum()
}

// Returns the portions of all claims, and the cents that the rounding leaves. The shares rounded down never exceed what
// was collected.
#[tactic(auto, using(crate::proofs::Steps::quotients_are, crate::proofs::Shared::floors_most), unfolding(crate::specs::Portions::portions, crate::specs::Shares::cents_left))]
fn portions_of(collected: u64, claims: &[u64; MEMBER_COUNT]) -> Portions
    requires { Dividable collected claims.now }
    ensures { result ≡ portions collected claims.now }
{
    let parts = parts_of(collected, claims);
    let left = collected - given_by(&parts);
    Portions { parts, left }
}

// Says whether member k comes before member m for a cent: the larger remainder comes first, and of two alike the lower
// member.
#[tactic(auto, unfolding(crate::specs::Shares::comes_before))]
fn comes_before(parts: &[Divided; MEMBER_COUNT], k: usize, m: usize) -> bool
    requires { (k < member_count) × (m < member_count) }
    ensures { result ≡ comes_before (remainder_of parts.now) k m }
{
    let (first, second) = (parts[k].remainder, parts[m].remainder);
    second < first || second == first && k < m
}

// Returns how many members come before member m for a cent.
fn rank_of(parts: &[Divided; MEMBER_COUNT], m: usize) -> u64
    requires { m < member_count }
    ensures { result ≡ rank (remainder_of parts.now) m }
{
    let ahead = (0..MEMBER_COUNT).filter(|k| comes_before(parts, *k, m));
    ahead.count() as u64
}

// Returns 1 if member m gets one of the cents left, and 0 if not. Where no cent is left, it computes no rank.
#[tactic(auto, unfolding(crate::specs::Portions::cent_of))]
fn cent_of(portions: &Portions, m: usize) -> u64
    requires { m < member_count }
    ensures { result ≡ cent_of portions.now m }
{
    if portions.left == 0 {
        return 0;
    }
    u64::from(rank_of(&portions.parts, m) < portions.left)
}

// Returns what one member gets: 0 without a claim, else its share rounded down and perhaps a cent.
#[tactic(auto, using(crate::proofs::Steps::cent_most), unfolding(crate::specs::Portions::share_of))]
fn share_of(claim: u64, portions: &Portions, m: usize) -> u64
    requires { (m < member_count) × (floor_of portions.now.parts m ≤ 2 ^ 48) }
    ensures { result ≡ share_of claim portions.now m }
{
    if claim == 0 {
        return 0;
    }
    portions.parts[m].quotient + cent_of(portions, m)
}

// Returns what each member gets of the sum collected in a month.
pub fn shares_of(accounts: [i64; MEMBER_COUNT], collected: u64) -> [u64; MEMBER_COUNT]
    requires { Shareable accounts collected }
    ensures { result ≡ shares collected (claims accounts) }
{
    let claims = accounts.map(claim_of);
    let portions = portions_of(collected, &claims);
    array::from_fn(|m| share_of(claims[m], &portions, m))
}
