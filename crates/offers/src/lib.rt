// The day's offers, which are kept in the order of the auction, and the pass of a buy-in over them.
#![tactic(auto)]

ghost use Rattle.std.specs.Prelude.{◌≡◌, ◌≤◌, ◌<◌, min, eqb};
ghost use Rattle.std.specs.List.{position_or_len};
ghost use Rattle.basics.specs.Choice.{pick};
ghost use Rattle.offers.specs.Rank.{overtakes};
ghost use Rattle.offers.specs.Held.{most_offers, no_offers, listed_offers, with_offer};
ghost use Rattle.offers.specs.BuyIn.{given, bought_with};

// The most offers of a day; `most_offers` in specs/.
pub const MOST_OFFERS: usize = 64;

// A supplier's offer for one obligation. Its fields are narrow, because the book holds 64 of these and is copied at
// every call, and there is no gap between two offers.
#[derive(Clone, Copy)]
pub struct Offer {
    pub obligation: u16,
    pub supplier: u16,
    pub quantity: u32,
    pub price: u32,
}

// The offers of today, in the order of the auction. They are the first count rows. It is a plain list with a count,
// since the definitions build it and the theorem compares it, and since a heap could run out, which no refusal names.
#[derive(Clone, Copy)]
pub struct Offers {
    pub rows: [Offer; MOST_OFFERS],
    pub count: usize,
}

// The quantity that an offer gives.
#[derive(Clone, Copy)]
pub struct Given {
    pub offer: Offer,
    pub quantity: u32,
}

// What the offers for one obligation give, in the order of the auction. It is in the first count places, for the same
// reason as the offers of today.
#[derive(Clone, Copy)]
pub struct BuyIn {
    pub given: [Given; MOST_OFFERS],
    pub count: usize,
}

// This fills a free row.
const NO_OFFER: Offer = Offer {
    obligation: 0,
    supplier: 0,
    quantity: 0,
    price: 0,
};

// This fills a free place of a buy-in.
const NOTHING_GIVEN: Given = Given {
    offer: NO_OFFER,
    quantity: 0,
};

// Says whether a later offer goes ahead of an earlier one: it does at a lower price only. At the same price the earlier
// one stays ahead, however large the later one is.
#[tactic(auto, unfolding(crate::specs::Rank::overtakes))]
fn goes_ahead(later: Offer, earlier: Offer) -> bool
    ensures { result ≡ overtakes later earlier }
{
    later.price < earlier.price
}

// Returns the quantity that an offer gives to an obligation: the smaller of its own quantity and what is left, and 0 if
// it is for another obligation.
fn quantity_from(x: Offer, obligation: u64, left: u64) -> u32
    ensures { result ≡ pick (eqb x.obligation obligation) (min x.quantity left) 0 }
{
    if x.obligation as u64 == obligation {
        return left.min(x.quantity as u64) as u32;
    }
    0
}

impl Offers {
    // Returns no offers. Each day begins with these.
    pub fn none() -> Offers
        ensures { result ≡ no_offers }
    {
        Offers {
            rows: [NO_OFFER; MOST_OFFERS],
            count: 0,
        }
    }

    // The offers that are held, in the order of the auction.
    fn listed(&self) -> &[Offer]
        requires { self.now.count ≤ most_offers }
        ensures { result.now ≡ listed_offers self.now }
    {
        &self.rows[..self.count]
    }

    // The place of a new offer: that of the first offer that it overtakes, or the first free row if it overtakes none.
    fn place_of(&self, o: Offer) -> usize
        requires { self.now.count ≤ most_offers }
        ensures { result ≡ position_or_len (overtakes o) (listed_offers self.now) }
    {
        let found = self.listed().iter().position(|row| goes_ahead(o, *row));
        found.unwrap_or(self.count)
    }

    // Adds an offer ahead of the first one that it overtakes, or after all of them if it overtakes none. Each offer from
    // there on moves by one row.
    pub fn insert(&mut self, o: Offer)
        requires { self.old.count < most_offers }
        ensures { self.new ≡ with_offer self.old o }
    {
        let at = self.place_of(o);
        self.rows.copy_within(at..self.count, at + 1);
        self.rows[at] = o;
        self.count += 1;
    }

    // Makes the buy-in of one obligation, of which the given quantity is left. It passes once over the offers, in the
    // order of the auction, and skips an offer that gives nothing.
    pub fn buy_in(&self, obligation: u64, left: u64) -> BuyIn
        requires { self.now.count ≤ most_offers }
        ensures { result ≡ bought_with (given obligation left (listed_offers self.now)) }
    {
        let mut bought = [NOTHING_GIVEN; MOST_OFFERS];
        let mut count = 0;
        let mut rest = left;
        for offer in self.listed() {
            let q = quantity_from(*offer, obligation, rest);
            if 0 < q {
                bought[count] = Given {
                    offer: *offer,
                    quantity: q,
                };
                count += 1;
                rest -= q as u64;
            }
        }
        BuyIn {
            given: bought,
            count: count,
        }
    }
}
