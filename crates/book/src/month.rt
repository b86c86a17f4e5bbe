// Month: the accounts are netted and paid.
ghost use Rattle.std.specs.Prelude.{◌≡◌, length};
ghost use Rattle.book.specs.Book.{Valid};
ghost use Rattle.book.specs.Month.{month, month_words};

use crate::{Book, Done};

impl Book {
    // Collects from the members that owe and pays out to those that claim; the accounts are then zero. If the list of
    // collected amounts is empty, each member paid what it owes.
    #[tactic(auto, using(crate::proofs::Paid::paid_valid), unfolding(crate::specs::Month::month))]
    pub fn month(mut self, collected: &[u64], payouts: &mut [u64]) -> Done
        requires { Valid self }
        ensures value { result ≡ month self collected.now (length payouts.old) }
        ensures payouts_after { payouts.new ≡ month_words self collected.now payouts.old }
        ensures valid { Valid result.book }
        ensures collected_stays { collected.exit.now ≡ collected.entry.now }
    {
        let accounts = self.ledger.accounts;
        let done = payments::settle_month(&accounts, self.day.close_since, collected, payouts);
        if done.is_ok() {
            self.ledger.clear();
            self.day.close_since = false;
        }
        Done {
            answer: basics::answer_of(&done),
            book: self,
        }
    }
}
