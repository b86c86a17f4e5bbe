// The input, line by line. The bytes that were read are taken up to the next line feed, and those of the current line
// are held in a buffer until the line has ended.
#![tactic(auto)]

ghost use Rattle.std.specs.Prelude.{◌≡◌, ◌+◌, ◌≤◌, min, ◌-◌, length};
ghost use Rattle.std.proofs.lemmas.List.Edits.{sets};
ghost use Rattle.basics.specs.Lists.{between};
ghost use Rattle.lines.specs.Input.{at_start, used_up, filled_to, dropped_from, lines_of, one_more, ahead, taken_of};

use writing::LINE_FEED;

// Where the input stands: which bytes were read and not yet taken, and how far the current line has come.
#[derive(Clone, Copy)]
pub struct Feed {
    // The bytes that were read and not yet taken stand in the places from `from` up to `to`, without `to`.
    pub from: usize,
    pub to: usize,
    // How many bytes of the current line are held.
    pub held: usize,
    // How many lines have ended so far.
    pub ended: u64,
}

// What was taken from the input, and where the input stands then.
#[derive(Clone, Copy)]
pub struct Taken {
    pub feed: Feed,
    // How many bytes are held of the current line, if it has ended.
    pub line: Option<usize>,
}

// The number of lines after one more has ended. No journal has as many lines as a number of 64 bits can count, so it
// does not matter that the count stops there.
#[tactic(auto, unfolding(crate::specs::Input::one_more))]
fn one_more(ended: u64) -> u64
    ensures { result ≡ one_more ended }
{
    ended.saturating_add(1)
}

// Adds bytes to the current line, and answers how many bytes of it are held. Bytes that have no place are dropped,
// because a line of that length is a comment or no call, whatever follows.
fn hold(line: &mut [u8], held: usize, part: &[u8]) -> usize
    requires { held ≤ length line.old }
    ensures value { result ≡ min (length line.old) (held + length part.now) }
    ensures line_after { line.new ≡ sets line.old held part.now }
{
    let count = part.len().min(line.len() - held);
    line[held..held + count].copy_from_slice(&part[..count]);
    held + count
}

impl Feed {
    // The feed before anything is read.
    pub fn start() -> Feed
        ensures { result ≡ at_start }
    {
        Feed {
            from: 0,
            to: 0,
            held: 0,
            ended: 0,
        }
    }

    // Whether all bytes that were read are taken.
    #[tactic(auto, unfolding(crate::specs::Input::used_up))]
    pub fn is_used_up(self) -> bool
        ensures { result ≡ used_up self }
    {
        self.to <= self.from
    }

    // The feed after a read that brought `to` bytes.
    #[tactic(auto, unfolding(crate::specs::Input::filled_to))]
    pub fn filled(self, to: usize) -> Feed
        ensures { result ≡ filled_to to self }
    {
        Feed {
            from: 0,
            to,
            ..self
        }
    }

    // Drops the bytes that were read and not yet taken, because the run has failed.
    #[tactic(auto, unfolding(crate::specs::Input::dropped_from))]
    pub fn dropped(self) -> Feed
        ensures { result ≡ dropped_from self }
    {
        Feed {
            from: self.to,
            ..self
        }
    }

    // How many lines the text has, once it is over. Bytes that are still held are a last line without its line feed.
    #[tactic(auto, unfolding(crate::specs::Input::lines_of))]
    pub fn lines(self) -> u64
        ensures { result ≡ lines_of self }
    {
        if 0 < self.held {
            return one_more(self.ended);
        }
        self.ended
    }

    // Takes bytes of the current line: up to its line feed, or all that were read if there is none.
    pub fn take(self, part: &[u8], line: &mut [u8]) -> Taken
        requires { (self.from ≤ self.to) × (self.to ≤ length part.now) × (self.held ≤ length line.old) }
        ensures value { result ≡ taken_of self part.now (length line.old) }
        ensures line_after { line.new ≡ sets line.old self.held (ahead self part.now) }
    {
        let end = writing::place_of(LINE_FEED, part, self.from, self.to);
        let held = hold(line, self.held, &part[self.from..end]);
        if end < self.to {
            return Taken {
                feed: Feed {
                    from: end + 1,
                    to: self.to,
                    held: 0,
                    ended: one_more(self.ended),
                },
                line: Some(held),
            };
        }
        Taken {
            feed: Feed {
                from: self.to,
                held,
                ..self
            },
            line: None,
        }
    }
}
