// The ledger: obligations with their parts, the day's offers and the members' accounts, and what a delivery and a wish
// to cancel do to an obligation.
#![tactic(auto)]

ghost use Rattle.std.specs.Prelude.{◌≡◌, ◌+◌, ◌≤◌, ◌<◌};
ghost use Rattle.basics.specs.Reasons.{answer_of};
ghost use Rattle.amounts.specs.Amounts.{most_quantity, most_close_price};
ghost use Rattle.ledger.specs.Setup.{ValidTerms};
ghost use Rattle.ledger.specs.Parts.{moved, all_parts};
ghost use Rattle.ledger.specs.Obligations.{new_obligation, settled, cash_of, moving, Sound, Takes};
ghost use Rattle.ledger.specs.Obligations.{last_of, in_buy_in, is_due, sides_of, with_grace_price};
ghost use Rattle.ledger.specs.Obligations.{is_party, has_wished, with_wish, both_wish, wishing, moved_by_wish};
ghost use Rattle.ledger.specs.Ledger.{most_obligations, new_ledger, fetched, effect_of, changed, cleared_ledger};

use basics::Reason;
use calendar::{ClearingDays, ClosedDays, Day};
use netting::MEMBER_COUNT;
use offers::Offers;

// The most obligations of a book; `most_obligations` in specs/.
pub const MOST_OBLIGATIONS: usize = 64;

// The latest settlement day; `latest_day` in specs/.
pub const LATEST_DAY: u64 = 60_000;

// How many words a line of a Close has; `words_in_line` in specs/.
pub const WORDS_IN_LINE: usize = 6;

// The most lines of a Close; `most_lines` in specs/.
pub const MOST_LINES: usize = 192;

// The fewest words of the list of a Close or an Again; `fewest_words` in specs/.
pub const FEWEST_WORDS: usize = WORDS_IN_LINE * MOST_LINES;

// The highest number of a supplier; `most_supplier` in specs/.
pub const MOST_SUPPLIER: u64 = 999;

// The stages of an obligation's life: at which age notice is given, after which age the house buys in, and the age of
// the last day.
#[derive(Clone, Copy)]
pub struct Terms {
    pub notice: ClearingDays,
    pub grace: ClearingDays,
    pub last: ClearingDays,
}

// What a book keeps to from its Open on: its closed days and the terms of its stages.
#[derive(Clone, Copy)]
pub struct Setup {
    pub closed_days: ClosedDays,
    pub terms: Terms,
}

// What can become of a quantity that was outstanding.
#[derive(Clone, Copy)]
pub enum Part {
    Delivered,
    BoughtIn,
    Compensated,
    Cancelled,
}

// What has become of an obligation's quantity so far. The five add up to it.
#[derive(Clone, Copy)]
pub struct Parts {
    pub delivered: u32,
    pub bought_in: u32,
    pub compensated: u32,
    pub cancelled: u32,
    pub outstanding: u32,
}

// What was agreed: a seller owes a buyer a quantity against an amount on a settlement day, which docs/RULES.md calls J.
#[derive(Clone, Copy)]
pub struct Deal {
    pub amount: u64,
    pub day: Day,
    pub quantity: u32,
    pub seller: u8,
    pub buyer: u8,
}

// How far an obligation has come in its stages.
#[derive(Clone, Copy)]
pub struct Stage {
    // The price of the Close at age = grace; 0 before it.
    pub grace_price: u32,
}

// Which parties wish to cancel.
#[derive(Clone, Copy)]
pub struct Wishes {
    pub seller: bool,
    pub buyer: bool,
}

// A deal with what has become of it. Its fields are narrow, because the book holds 64 of these and is copied at every
// call.
#[derive(Clone, Copy)]
pub struct Obligation {
    pub deal: Deal,
    pub parts: Parts,
    pub stage: Stage,
    pub wishes: Wishes,
}

// The two sides of a penalty: the member that it is debited to, and the member that it is credited to.
#[derive(Clone, Copy)]
pub struct Sides {
    pub debtor: u8,
    pub creditor: u8,
}

// The answer to a number that names an obligation. It is no `Option`, because S8 of docs/CODE.md names these two cases.
#[derive(Clone, Copy)]
pub enum Fetched {
    Found(Obligation),
    Absent,
}

// What a call that is done comes to on the obligation that it names: its result, and the obligation as it is then.
#[derive(Clone, Copy)]
pub struct Change {
    pub result: u64,
    pub obligation: Obligation,
}

// The obligations, numbered from 0 (the first count of them), the offers of today and the accounts. The obligations are an
// array and a count, because the definitions build the ledger and compare it, and a heap could run out.
#[derive(Clone, Copy)]
pub struct Ledger {
    pub obligations: [Obligation; MOST_OBLIGATIONS],
    pub count: usize,
    pub offers: Offers,
    pub accounts: [i64; MEMBER_COUNT],
}

// The parts of a quantity of 0. They and the three values below are constants and no defaults, since a default Day would
// be a day 0, which no rule speaks of.
pub const NO_PARTS: Parts = Parts {
    delivered: 0,
    bought_in: 0,
    compensated: 0,
    cancelled: 0,
    outstanding: 0,
};

// A new obligation has come to no stage yet.
const NEW_STAGE: Stage = Stage { grace_price: 0 };

// Of a new obligation nobody wishes to cancel.
const NO_WISHES: Wishes = Wishes {
    seller: false,
    buyer: false,
};

// A place that no obligation has taken holds this one.
const NO_OBLIGATION: Obligation = Obligation {
    deal: Deal {
        amount: 0,
        day: Day(0),
        quantity: 0,
        seller: 0,
        buyer: 0,
    },
    parts: NO_PARTS,
    stage: NEW_STAGE,
    wishes: NO_WISHES,
};

// Whether an age is one at which the house buys in: above grace up to last.
pub fn buys_in(grace: ClearingDays, last: ClearingDays, age: ClearingDays) -> bool
    ensures { result ≡ in_buy_in grace.0 last.0 age.0 }
{
    grace < age && age <= last
}

impl Parts {
    // Moves a quantity from outstanding to a part.
    #[tactic(auto, unfolding(crate::specs::Parts::all_parts, basics::specs::Lists::total))]
    pub fn move_to(mut self, part: Part, quantity: u64) -> Parts
        requires { (quantity ≤ self.outstanding) × (all_parts self ≤ most_quantity) }
        ensures { result ≡ moved part quantity self }
    {
        let units = quantity as u32;
        self.outstanding -= units;
        match part {
            Part::Delivered => self.delivered += units,
            Part::BoughtIn => self.bought_in += units,
            Part::Compensated => self.compensated += units,
            Part::Cancelled => self.cancelled += units,
        }
        self
    }
}

impl Obligation {
    // Makes the obligation of a new deal, of which all is outstanding.
    pub fn new(deal: Deal) -> Obligation
        ensures { result ≡ new_obligation deal }
    {
        Obligation {
            deal: deal,
            parts: Parts {
                outstanding: deal.quantity,
                ..NO_PARTS
            },
            stage: NEW_STAGE,
            wishes: NO_WISHES,
        }
    }

    // The units settled so far.
    #[tactic(auto, unfolding(crate::specs::Parts::settled_parts, crate::specs::Parts::all_parts, basics::specs::Lists::total))]
    fn settled_so_far(self) -> u64
        requires { Sound self }
        ensures { result ≡ settled self }
    {
        self.parts.delivered as u64 + self.parts.bought_in as u64
    }

    // The cash for a quantity that is settled next.
    #[tactic(auto, unfolding(crate::specs::Obligations::cash_of), using(crate::proofs::Keeping::settled_most))]
    pub fn cash_for(self, quantity: u64) -> u64
        requires { Takes self quantity }
        ensures { result ≡ cash_of self quantity }
    {
        let so_far = self.settled_so_far();
        amounts::cash_for(
            self.deal.amount,
            self.deal.quantity as u64,
            so_far,
            so_far + quantity,
        )
    }

    // A quantity moves from outstanding to a part.
    #[tactic(auto, unfolding(crate::specs::Obligations::moving))]
    pub fn move_to(self, part: Part, quantity: u64) -> Obligation
        requires { Takes self quantity }
        ensures { result ≡ moving part quantity self }
    {
        Obligation {
            parts: self.parts.move_to(part, quantity),
            ..self
        }
    }

    // The age of the obligation on its last day, by the terms of the book.
    #[tactic(auto, unfolding(crate::specs::Obligations::last_of))]
    pub fn last_of(self, terms: Terms) -> ClearingDays
        requires { ValidTerms terms }
        ensures { result.0 ≡ last_of terms self }
    {
        terms.last
    }

    // Who is debited and who is credited with a penalty.
    #[tactic(auto, unfolding(crate::specs::Obligations::sides))]
    pub fn penalty_sides(self) -> Sides
        ensures { result ≡ sides_of self }
    {
        Sides {
            debtor: self.deal.seller,
            creditor: self.deal.buyer,
        }
    }

    // Whether a Close takes this obligation: its day has come, and something is outstanding.
    #[tactic(auto, unfolding(crate::specs::Obligations::is_due))]
    pub fn is_due(self, today: Day) -> bool
        ensures { result ≡ is_due today self }
    {
        self.deal.day <= today && 0 < self.parts.outstanding
    }

    // Keeps the price of the Close at age = grace.
    pub fn keep_price(self, price: u64) -> Obligation
        requires { price ≤ most_close_price }
        ensures { result ≡ with_grace_price price self }
    {
        Obligation {
            stage: Stage {
                grace_price: price as u32,
            },
            ..self
        }
    }

    // Whether a member is the seller or the buyer.
    #[tactic(auto, unfolding(crate::specs::Obligations::is_party))]
    pub fn is_party(self, member: u64) -> bool
        ensures { result ≡ is_party self member }
    {
        self.deal.seller as u64 == member || self.deal.buyer as u64 == member
    }

    // Whether the wish of a party to cancel is recorded.
    #[tactic(auto, unfolding(crate::specs::Obligations::has_wished))]
    pub fn has_wished(self, member: u64) -> bool
        ensures { result ≡ has_wished self member }
    {
        if self.deal.seller as u64 == member {
            self.wishes.seller
        } else {
            self.wishes.buyer
        }
    }

    // Records a party's wish to cancel.
    #[tactic(auto, unfolding(crate::specs::Obligations::with_wish))]
    fn with_wish(mut self, member: u64) -> Obligation
        ensures { result ≡ with_wish member self }
    {
        if self.deal.seller as u64 == member {
            self.wishes.seller = true;
        } else {
            self.wishes.buyer = true;
        }
        self
    }

    // Whether both parties wish to cancel.
    #[tactic(auto, unfolding(crate::specs::Obligations::both_wish))]
    fn both_wish(self) -> bool
        ensures { result ≡ both_wish self }
    {
        self.wishes.seller && self.wishes.buyer
    }

    // Records a party's wish, and cancels what is outstanding if the other party has wished it before.
    #[tactic(auto, unfolding(crate::specs::Obligations::wishing), using(crate::proofs::Keeping::takes_all, crate::proofs::Keeping::with_wish_sound))]
    pub fn wish(self, member: u64) -> Obligation
        requires { Sound self }
        ensures { result ≡ wishing member self }
    {
        let next = self.with_wish(member);
        if next.both_wish() {
            next.move_to(Part::Cancelled, next.parts.outstanding as u64)
        } else {
            next
        }
    }

    // The quantity that a party's wish cancels.
    #[tactic(auto, unfolding(crate::specs::Obligations::moved_by_wish))]
    pub fn moved_by_wish(self, member: u64) -> u64
        ensures { result ≡ moved_by_wish member self }
    {
        if self.with_wish(member).both_wish() {
            self.parts.outstanding as u64
        } else {
            0
        }
    }
}

// The result of a call on an obligation; a refused call has the result 0.
pub fn result_of(change: &Result<Change, Reason>) -> u64
    ensures { result ≡ (effect_of change.now).result }
{
    match change {
        Ok(done) => done.result,
        Err(_) => 0,
    }
}

impl Ledger {
    // The ledger of a fresh book: it has no obligations and no offers, and all accounts are zero.
    pub fn new() -> Ledger
        ensures { result ≡ new_ledger }
    {
        Ledger {
            obligations: [NO_OBLIGATION; MOST_OBLIGATIONS],
            count: 0,
            offers: Offers::none(),
            accounts: [0i64; MEMBER_COUNT],
        }
    }

    // Finds the obligation with a number.
    #[tactic(auto, unfolding(crate::specs::Ledger::fetched))]
    pub fn fetch(&self, number: u64) -> Fetched
        requires { self.now.count ≤ most_obligations }
        ensures { result ≡ fetched self.now number }
    {
        let rows = self.obligations;
        if number < self.count as u64 {
            return Fetched::Found(rows[number as usize]);
        }
        Fetched::Absent
    }

    // Puts the obligation that a call has changed under its number. A refused call changes nothing.
    pub fn change(&mut self, number: u64, change: &Result<Change, Reason>)
        requires { answer_of change.now ≡ 0 → number < most_obligations }
        ensures { self.new ≡ changed number (effect_of change.now) self.old }
    {
        let mut rows = self.obligations;
        if let Ok(done) = change {
            rows[number as usize] = done.obligation;
        }
        self.obligations = rows;
    }

    // Sets all accounts to zero.
    pub fn clear(&mut self)
        ensures { self.new ≡ cleared_ledger self.old }
    {
        self.accounts = [0i64; MEMBER_COUNT];
    }
}
