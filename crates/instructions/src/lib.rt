// Instructions: the legs that members enter, and the search for the leg that a new one matches.
#![tactic(auto)]

ghost use Rattle.std.specs.Prelude.{◌≡◌, ◌≤◌, ◌<◌};
ghost use Rattle.basics.specs.Reasons.{answer_of};
ghost use Rattle.instructions.specs.Legs.{most_legs, is_waiting, leg_of, Fitting, no_legs, entered, in_state, fetched_leg, with_state, with_leg};
ghost use Rattle.instructions.specs.Match.{delivering, receiving, members_cross, same_business, fits, lowest_fit};
ghost use Rattle.instructions.specs.Entry.{entry_of, with_entry, Enterable, leg_number, obligation_number};

use basics::Reason;
use calendar::Day;

// The most legs of a book; `most_legs` in specs/.
pub const MOST_LEGS: usize = 128;

// What has become of a leg. A matched leg names its obligation. Withdrawn comes first, because a place that no leg has
// taken holds it.
#[derive(Clone, Copy, PartialEq, Eq)]
pub enum LegState {
    Withdrawn,
    Waiting,
    Matched(u8),
}

// What an Enter asks. Its numbers may be any.
#[derive(Clone, Copy)]
pub struct Instruction {
    pub member: u64,
    pub other: u64,
    pub side: u64,
    pub quantity: u64,
    pub amount: u64,
    pub day: Day,
}

// One member's instruction, as the book keeps it. Side 0 delivers, side 1 receives. Its fields are narrow, because the
// book holds 128 of these and is copied at every call. The side is a number, because `enter_refusals` tests the side of
// the leg of an instruction, which may be any number.
#[derive(Clone, Copy)]
pub struct Leg {
    pub amount: u64,
    pub day: Day,
    pub quantity: u32,
    pub member: u8,
    pub other: u8,
    pub side: u8,
    pub state: LegState,
}

// The legs that were entered, numbered from 0: the first count rows. They are rows with a count, because definitions
// build them, the theorem compares them, and a heap could run out, which no refusal says.
#[derive(Clone, Copy)]
pub struct Legs {
    pub rows: [Leg; MOST_LEGS],
    pub count: usize,
}

// What an accepted Enter comes to: its leg finds no match and waits, or it matches the leg with a number.
#[derive(Clone, Copy)]
pub enum Entry {
    Alone(Leg),
    Matching(Leg, usize),
}

// A place that no leg has taken holds this leg. It is withdrawn, so that it matches nothing.
const NO_LEG: Leg = Leg {
    amount: 0,
    day: Day(0),
    quantity: 0,
    member: 0,
    other: 0,
    side: 0,
    state: LegState::Withdrawn,
};

// Whether a leg waits.
pub fn is_waiting(state: LegState) -> bool
    ensures { result ≡ is_waiting state }
{
    state == LegState::Waiting
}

impl Instruction {
    // The leg of an instruction, which waits.
    pub fn leg(self) -> Leg
        requires { Fitting self }
        ensures { result ≡ leg_of self }
    {
        Leg {
            amount: self.amount,
            day: self.day,
            quantity: self.quantity as u32,
            member: self.member as u8,
            other: self.other as u8,
            side: self.side as u8,
            state: LegState::Waiting,
        }
    }
}

impl Leg {
    // Of two legs, the one that delivers.
    pub fn delivering(self, other: Leg) -> Leg
        ensures { result ≡ delivering self other }
    {
        if self.side == 0 { self } else { other }
    }

    // Of two legs, the one that receives.
    pub fn receiving(self, other: Leg) -> Leg
        ensures { result ≡ receiving self other }
    {
        if self.side == 0 { other } else { self }
    }

    // Whether each leg's member is the other's other member.
    fn members_cross(self, new: Leg) -> bool
        ensures { result ≡ members_cross self new }
    {
        self.member == new.other && self.other == new.member
    }

    // Whether two legs have the same quantity and settlement day.
    fn same_business(self, new: Leg) -> bool
        ensures { result ≡ same_business self new }
    {
        self.quantity == new.quantity && self.day == new.day
    }

    // Whether a leg is one that a new leg matches.
    #[tactic(auto, unfolding(crate::specs::Match::fits))]
    pub fn fits_new(self, new: Leg) -> bool
        ensures { result ≡ fits self new }
    {
        is_waiting(self.state)
            && self.side != new.side
            && self.members_cross(new)
            && self.same_business(new)
            && amounts::amounts_match(new.delivering(self).amount, new.receiving(self).amount)
    }

    // The same leg in another state.
    pub fn in_state(self, state: LegState) -> Leg
        ensures { result ≡ in_state state self }
    {
        Leg { state, ..self }
    }
}

impl Legs {
    // The legs of a fresh book: there are none.
    pub fn none() -> Legs
        ensures { result ≡ no_legs }
    {
        Legs {
            rows: [NO_LEG; MOST_LEGS],
            count: 0,
        }
    }

    // The legs entered so far.
    pub fn listed(&self) -> &[Leg]
        requires { self.now.count ≤ most_legs }
        ensures { result.now ≡ entered self.now }
    {
        &self.rows[..self.count]
    }

    // Finds the leg with a number.
    #[tactic(auto, unfolding(crate::specs::Legs::fetched_leg))]
    pub fn fetch(&self, number: u64) -> Option<Leg>
        requires { self.now.count ≤ most_legs }
        ensures { result ≡ fetched_leg self.now number }
    {
        self.listed().get(number as usize).copied()
    }

    // Puts the leg with a number into another state.
    pub fn set_state(&mut self, number: u64, state: LegState)
        requires { number < most_legs }
        ensures { self.new ≡ with_state number state self.old }
    {
        self.rows[number as usize].state = state;
    }

    // Adds a leg, which gets the next number.
    fn push(&mut self, new: Leg)
        requires { self.old.count < most_legs }
        ensures { self.new ≡ with_leg new self.old }
    {
        self.rows[self.count] = new;
        self.count += 1;
    }

    // Finds the lowest leg that a new one matches.
    #[tactic(auto, unfolding(crate::specs::Match::lowest_fit, crate::specs::Match::first_fit))]
    pub fn lowest_fit(&self, new: Leg) -> Option<usize>
        requires { self.now.count ≤ most_legs }
        ensures { result ≡ lowest_fit self.now new }
    {
        self.listed().iter().position(|leg| leg.fits_new(new))
    }

    // What an Enter comes to, if it is allowed; otherwise the reason why it is refused.
    pub fn entry(&self, allowed: Result<(), Reason>, asked: Instruction) -> Result<Entry, Reason>
        requires { (self.now.count ≤ most_legs) × (answer_of allowed ≡ 0 → Fitting asked) }
        ensures { result ≡ entry_of self.now allowed asked }
    {
        allowed?;
        let new = asked.leg();
        let entry = match self.lowest_fit(new) {
            Some(k) => Entry::Matching(new, k),
            None => Entry::Alone(new),
        };
        Ok(entry)
    }

    // The legs after an Enter, whose obligation has this number if there is a match. A refused Enter leaves them as they
    // are.
    pub fn enter(&mut self, entry: &Result<Entry, Reason>, obligation: u64)
        requires { (Enterable entry.now self.old) × (obligation ≤ 255) }
        ensures { self.new ≡ with_entry entry.now obligation self.old }
    {
        match entry {
            Err(_) => {}
            Ok(Entry::Alone(new)) => self.push(*new),
            Ok(Entry::Matching(new, k)) => {
                let state = LegState::Matched(obligation as u8);
                self.set_state(*k as u64, state);
                self.push(new.in_state(state));
            }
        }
    }
}

impl Entry {
    // The number of the new leg, where there were so many legs before; 0 if the Enter is refused. It is told for each case,
    // as S9 of docs/CODE.md has it.
    pub fn leg_number(entry: &Result<Entry, Reason>, legs: u64) -> u64
        ensures { result ≡ leg_number entry.now legs }
    {
        match entry {
            Err(_) => 0,
            Ok(Entry::Alone(_)) => legs,
            Ok(Entry::Matching(_, _)) => legs,
        }
    }

    // The number of the new obligation plus 1, where there were so many obligations before; 0 if there is no new one.
    pub fn obligation_number(entry: &Result<Entry, Reason>, obligations: u64) -> u64
        requires { obligations ≤ 255 }
        ensures { result ≡ obligation_number entry.now obligations }
    {
        match entry {
            Err(_) => 0,
            Ok(Entry::Alone(_)) => 0,
            Ok(Entry::Matching(_, _)) => obligations + 1,
        }
    }
}
