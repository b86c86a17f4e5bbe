// Buy-in: Offer.
ghost use Rattle.std.specs.Prelude.{◌≡◌};
ghost use Rattle.basics.specs.Reasons.{answer_of};
ghost use Rattle.basics.specs.Refusals.{answer};
ghost use Rattle.book.specs.Book.{Valid};
ghost use Rattle.book.specs.Buying.{offer_refusals, offer};

use crate::{Book, Done};
use basics::Reason;
use ledger::Fetched;
use offers::Offer;

impl Book {
    // The refusals of an Offer for an obligation.
    fn may_offer(
        &self,
        obligation: u64,
        supplier: u64,
        quantity: u64,
        price: u64,
    ) -> Result<(), Reason>
        requires { Valid self.now }
        ensures { answer_of result ≡ answer (offer_refusals self.now obligation supplier quantity price) }
    {
        refusals::offer_in(supplier, quantity, price)?;
        let Fetched::Found(found) = self.ledger.fetch(obligation) else {
            return Err(Reason::NotFound);
        };
        let today = self.day.today;
        let closed_days = self.setup.closed_days;
        let age = closed_days.age_at(found.deal.day, today);
        refusals::offer_of(
            self.setup.terms,
            today,
            age,
            self.ledger.offers.count,
            found,
            price,
        )
    }

    // Takes a supplier's offer for an obligation in its buy-in days.
    pub fn offer(mut self, obligation: u64, supplier: u64, quantity: u64, price: u64) -> Done
        requires { Valid self }
        ensures value { result ≡ offer self obligation supplier quantity price }
        ensures valid { Valid result.book }
    {
        let mut held = self.ledger.offers;
        let allowed = self.may_offer(obligation, supplier, quantity, price);
        let answer = basics::answer_of(&allowed);
        if answer == 0 {
            held.insert(Offer {
                obligation: obligation as u16,
                supplier: supplier as u16,
                quantity: quantity as u32,
                price: price as u32,
            });
        }
        self.ledger.offers = held;
        Done { answer, book: self }
    }
}
