// The lines of the latest Close. The book keeps them, so that Again can give them once more.
#![tactic(auto)]

ghost use Rattle.std.specs.Prelude.{◌≡◌, ◌+◌, ◌*◌, ◌≤◌, [], length, take};
ghost use Rattle.ledger.specs.Lines.{words_in_line, fewest_words, most_lines};
ghost use Rattle.closing.specs.Lines.{line_at, lines_read, written, SoundLine};
ghost use Rattle.reprint.specs.Kept.{kept_line, line_of, kept_from, lines_kept, Keepable, ValidLast};

use closing::Line;
use ledger::{MOST_LINES, WORDS_IN_LINE};

// A line of a Close as the book keeps it. Its fields are narrow, because the book holds 192 of these and is copied at
// every call, and there is no gap between two lines.
#[derive(Clone, Copy)]
pub struct KeptLine {
    pub cents: u64,
    pub quantity: u32,
    pub price: u32,
    pub kind: u32,
    pub supplier: u16,
    pub obligation: u16,
}

// The lines of the latest Close. They are the first count rows. It is a plain list with a count, since the definitions
// build it and the theorem compares it, and since a heap could run out, which no refusal names.
#[derive(Clone, Copy)]
pub struct LastClose {
    pub rows: [KeptLine; MOST_LINES],
    pub count: usize,
}

// This fills a free row.
const NO_LINE: KeptLine = KeptLine {
    cents: 0,
    quantity: 0,
    price: 0,
    kind: 0,
    supplier: 0,
    obligation: 0,
};

// Reads the line with a number from a list of words. It is no `From`, since it requires that the words fit the narrow
// fields of the line.
fn line_at(lines: &[u64], i: usize) -> KeptLine
    requires { (words_in_line * (i + 1) ≤ length lines.now) × (SoundLine (line_at lines.now i)) }
    ensures { result ≡ kept_line (line_at lines.now i) }
{
    let at = WORDS_IN_LINE * i;
    KeptLine {
        cents: lines[at + 3],
        quantity: lines[at + 2] as u32,
        price: lines[at + 5] as u32,
        kind: lines[at] as u32,
        supplier: lines[at + 4] as u16,
        obligation: lines[at + 1] as u16,
    }
}

impl From<KeptLine> for Line {
    ghost from_gives = { λ k l. l ≡ line_of k };

    // The line as the Close reported it.
    fn from(kept: KeptLine) -> Line {
        Line {
            kind: kept.kind as u64,
            obligation: kept.obligation as u64,
            quantity: kept.quantity as u64,
            cents: kept.cents,
            supplier: kept.supplier as u64,
            price: kept.price as u64,
        }
    }
}

impl LastClose {
    // A fresh book keeps no line.
    pub fn none() -> LastClose
        ensures { result ≡ kept_from [] }
    {
        LastClose {
            rows: [NO_LINE; MOST_LINES],
            count: 0,
        }
    }

    // Keeps the first count lines of a list of words. `i` is the number of the line that is read and of its row, so the
    // loop goes by it.
    pub fn of(lines: &[u64], count: usize) -> LastClose
        requires { Keepable count lines.now }
        ensures value { result ≡ kept_from (lines_read count lines.now) }
        ensures lines_stay { lines.exit.now ≡ lines.entry.now }
    {
        let mut rows = [NO_LINE; MOST_LINES];
        for i in 0..count {
            rows[i] = line_at(lines, i);
        }
        LastClose {
            rows: rows,
            count: count,
        }
    }

    // The lines that are kept.
    fn listed(&self) -> &[KeptLine]
        requires { self.now.count ≤ most_lines }
        ensures { result.now ≡ take self.now.count self.now.rows }
    {
        &self.rows[..self.count]
    }

    // Writes the lines to the front of a list of words. Each word after them stays as it was.
    pub fn write(&self, lines: &mut [u64])
        requires { (ValidLast self.now) × (fewest_words ≤ length lines.old) }
        ensures { lines.new ≡ written (lines_kept self.now) lines.old }
    {
        for (i, row) in self.listed().iter().enumerate() {
            closing::put_line(lines, i, Line::from(*row));
        }
    }
}
