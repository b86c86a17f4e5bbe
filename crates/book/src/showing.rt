// Reading: Status, Account, Look.
ghost use Rattle.std.specs.Prelude.{◌≡◌, ◌≤◌};
ghost use Rattle.ledger.specs.Ledger.{most_obligations};
ghost use Rattle.book.specs.Book.{Valid};
ghost use Rattle.book.specs.Showing.{status, account, is_late, LooksAt, Looks};

use crate::{Balance, Book, Looked, Shown};
use basics::Reason;
use calendar::Day;
use ledger::{Fetched, NO_PARTS, Obligation};

// Whether a member sells an obligation that is late: due before today, with something outstanding.
#[tactic(auto, unfolding(crate::specs::Showing::is_late))]
fn is_late(today: Day, member: u64, o: Obligation) -> bool
    ensures { result ≡ is_late today member o }
{
    o.deal.seller as u64 == member && (o.deal.day < today && 0 < o.parts.outstanding)
}

impl Book {
    // Shows an obligation's quantity and its parts.
    pub fn status(mut self, obligation: u64) -> Shown
        requires { Valid self }
        ensures value { result ≡ status self obligation }
        ensures valid { Valid result.book }
    {
        let Fetched::Found(found) = self.ledger.fetch(obligation) else {
            return Shown {
                answer: u64::from(Reason::NotFound),
                quantity: 0,
                parts: NO_PARTS,
                book: self,
            };
        };
        Shown {
            answer: 0,
            quantity: found.deal.quantity as u64,
            parts: found.parts,
            book: self,
        }
    }

    // Shows a member's account.
    pub fn account(mut self, member: u64) -> Balance
        requires { Valid self }
        ensures value { result ≡ account self member }
        ensures valid { Valid result.book }
    {
        if let Err(reason) = refusals::member_in(member) {
            return Balance {
                answer: u64::from(reason),
                cents: 0,
                book: self,
            };
        }
        let accounts = self.ledger.accounts;
        Balance {
            answer: 0,
            cents: accounts[member as usize],
            book: self,
        }
    }

    // Looks for a late obligation that a member sells; the search stops at the first it meets. S1 of docs/CODE.md names
    // the form of the loop.
    fn late_of(&self, member: u64) -> u64
        requires { self.now.ledger.count ≤ most_obligations }
        ensures { LooksAt self.now member result }
    {
        let obligations = self.ledger.obligations;
        let mut i = 0;
        loop {
            if self.ledger.count <= i {
                break 0;
            }
            if is_late(self.day.today, member, obligations[i]) {
                break i as u64 + 1;
            }
            i += 1;
        }
    }

    // Looks for a late obligation that a member sells.
    pub fn look(mut self, member: u64) -> Looked
        requires { Valid self }
        ensures looks { Looks self member result }
        ensures valid { Valid result.book }
    {
        if let Err(reason) = refusals::member_in(member) {
            return Looked {
                answer: u64::from(reason),
                obligation: 0,
                book: self,
            };
        }
        let obligation = self.late_of(member);
        Looked {
            answer: 0,
            obligation,
            book: self,
        }
    }
}
