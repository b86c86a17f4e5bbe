// The answers to the lines of a journal, and how each is written as text.
#![tactic(auto)]

ghost use Rattle.std.specs.Prelude.{◌+◌, ◌*◌, ◌<◌, ◌≤◌, ◌≡◌, ◌++◌, length, take, drop};
ghost use Rattle.writing.specs.Answers.{Wrote};
ghost use Rattle.answers.specs.Told.{most_shown, numbers_of, listed, nothing, no_call, numbers_told, balance_told, closed_told, words_told};
ghost use Rattle.answers.specs.Text.{most_answer, Tellable, WithinLent, balance_text, six_text, lines_text, kept_of};
ghost use Rattle.answers.specs.Text.{kept_text, closed_text, words_text, answer_text};

use writing::{Output, SPACE};

// The most bytes of an answer: 22 for each of the most words that are lent, and 100 more.
pub const MOST_ANSWER: usize = 90_212;

// The most numbers that an answer shows: those of a Status.
pub const MOST_SHOWN: usize = 7;

// The numbers that an answer shows. They have no model that hides the places, because the check does not cover the loop
// of `settle` if it copies a value with a model.
#[derive(Clone, Copy)]
pub struct Numbers {
    pub places: [u64; MOST_SHOWN],
    pub count: usize,
}

impl Numbers {
    fn of(shown: &[u64]) -> Numbers
        requires { length shown.now ≤ most_shown }
        ensures { result ≡ numbers_of shown.now }
    {
        let count = shown.len();
        let mut places = [0; MOST_SHOWN];
        places[..count].copy_from_slice(shown);
        Numbers { places, count }
    }

    fn listed(&self) -> &[u64]
        requires { self.now.count ≤ most_shown }
        ensures { result.now ≡ listed self.now }
    {
        &self.places[..self.count]
    }
}

// What a Close or an Again answers: its answer number, how many lines of six words stand in the words that were lent,
// how many words were lent, and with what value they were filled.
#[derive(Clone, Copy)]
pub struct Reported {
    pub answer: u64,
    pub lines: usize,
    pub lent: usize,
    pub fill: u64,
}

// The answer to a line.
#[derive(Clone, Copy)]
pub enum Answer {
    // There is no answer, as to a comment.
    Nothing,
    // The line is no call.
    NoCall,
    // An answer number and results.
    Shown(Numbers),
    // An answer number and signed cents.
    Balance(u64, i64),
    // An answer number, how many lines there are, the lines, and how many words are kept.
    Closed(Reported),
    // An answer number and results, and on the same line the words that were lent, of which there are this many.
    Words(Numbers, usize),
}

impl Answer {
    // No answer.
    #[tactic(auto, unfolding(crate::specs::Told::nothing))]
    pub fn nothing() -> Answer
        ensures { result ≡ nothing }
    {
        Answer::Nothing
    }

    // The answer to a line that is no call.
    #[tactic(auto, unfolding(crate::specs::Told::no_call))]
    pub fn no_call() -> Answer
        ensures { result ≡ no_call }
    {
        Answer::NoCall
    }

    // An answer number and results.
    #[tactic(auto, unfolding(crate::specs::Told::numbers_told))]
    pub fn numbers(shown: &[u64]) -> Answer
        requires { length shown.now ≤ most_shown }
        ensures { result ≡ numbers_told shown.now }
    {
        Answer::Shown(Numbers::of(shown))
    }

    // An answer number and signed cents.
    #[tactic(auto, unfolding(crate::specs::Told::balance_told))]
    pub fn balance(answer: u64, cents: i64) -> Answer
        ensures { result ≡ balance_told answer cents }
    {
        Answer::Balance(answer, cents)
    }

    // An answer number, how many lines there are, how many words were lent for them, and with what value these were
    // filled.
    #[tactic(auto, unfolding(crate::specs::Told::closed_told))]
    pub fn closed(answer: u64, lines: usize, lent: usize, fill: u64) -> Answer
        ensures { result ≡ closed_told answer lines lent fill }
    {
        Answer::Closed(Reported {
            answer,
            lines,
            lent,
            fill,
        })
    }

    // An answer number and results, and how many words were lent.
    #[tactic(auto, unfolding(crate::specs::Told::words_told))]
    pub fn with_words(shown: &[u64], lent: usize) -> Answer
        requires { length shown.now ≤ most_shown }
        ensures { result ≡ words_told shown.now lent }
    {
        Answer::Words(Numbers::of(shown), lent)
    }

    // Writes the answer to a line. The number of the line is only needed if the line is no call.
    #[tactic(auto, unfolding(crate::specs::Text::answer_text))]
    pub fn tell<const N: usize>(&self, line: u64, words: &[u64], out: &mut Output<N>)
        requires { (Tellable self.now words.now) × (length out.old + most_answer ≤ N) }
        ensures { out.new ≡ out.old ++ answer_text self.now line words.now }
    {
        match self {
            Answer::Nothing => {}
            Answer::NoCall => out.no_call(line),
            Answer::Shown(numbers) => out.answer(numbers.listed()),
            Answer::Balance(answer, cents) => tell_balance(*answer, *cents, out),
            Answer::Closed(reported) => tell_closed(*reported, words, out),
            Answer::Words(numbers, lent) => tell_words(numbers.listed(), &words[..*lent], out),
        }
    }

    // Writes the answer to a line at a place of any bytes, and answers the next place. It stands beside `tell` for bytes
    // that are no output: the answer is written into an output of its own, and copied from there.
    #[tactic(auto, using(crate::proofs::Lengths::answer_most))]
    pub fn tell_at(&self, line: u64, words: &[u64], out: &mut [u8], at: usize) -> usize
        requires { (Tellable self.now words.now) × (at + most_answer ≤ length out.old) }
        ensures { Wrote (answer_text self.now line words.now) out.old at out.new result }
    {
        let mut told: Output<MOST_ANSWER> = Output::new();
        self.tell(line, words, &mut told);
        writing::write_bytes(out, at, told.written())
    }
}

// Writes an answer number and signed cents.
#[tactic(auto, unfolding(crate::specs::Text::balance_text))]
fn tell_balance<const N: usize>(answer: u64, cents: i64, out: &mut Output<N>)
    requires { length out.old + 43 ≤ N }
    ensures { out.new ≡ out.old ++ balance_text answer cents }
{
    out.number(answer);
    out.byte(SPACE);
    out.signed(cents);
    out.line_feed();
}

// Writes the answer to a Close or an Again: its answer number and number of lines, the lines, and how many words are
// kept.
fn tell_closed<const N: usize>(reported: Reported, words: &[u64], out: &mut Output<N>)
    requires { (WithinLent reported words.now) × (length out.old + most_answer ≤ N) }
    ensures { out.new ≡ out.old ++ closed_text reported words.now }
{
    let lines = reported.lines;
    let shown = [reported.answer, lines as u64];
    out.answer(&shown);
    tell_lines(words, lines, out);
    let lent = &words[..reported.lent];
    tell_kept(kept_of(&lent[6 * lines..], reported.fill), out);
}

// Writes numbers, and on the same line the words that were lent, as the call left them.
#[tactic(auto, unfolding(crate::specs::Text::words_text))]
fn tell_words<const N: usize>(shown: &[u64], words: &[u64], out: &mut Output<N>)
    requires { length out.old + 21 * length shown.now + 21 * length words.now < N }
    ensures { out.new ≡ out.old ++ words_text shown.now words.now }
{
    out.numbers(shown);
    out.further(words);
    out.line_feed();
}

// Writes a line of a Close or an Again: six words, with two spaces in front.
#[tactic(auto, unfolding(crate::specs::Text::six_text))]
fn tell_six<const N: usize>(six: &[u64], out: &mut Output<N>)
    requires { (length six.now ≡ 6) × (length out.old + 129 ≤ N) }
    ensures { out.new ≡ out.old ++ six_text six.now }
{
    out.bytes(b"  ");
    out.answer(six);
}

// Writes the lines of a Close or an Again. The loop goes by the number of the line, as the definition does: the words
// after the last line are no line, so they cannot be taken in chunks.
fn tell_lines<const N: usize>(words: &[u64], count: usize, out: &mut Output<N>)
    requires { (6 * count ≤ length words.now) × (length out.old + 129 * count ≤ N) }
    ensures { out.new ≡ out.old ++ lines_text words.now count }
{
    for k in 0..count {
        tell_six(&words[6 * k..6 * k + 6], out);
    }
}

// How many words still have the value that they were filled with. This is a loop and no filter that is counted, because
// the compiler looks at several words at once in a loop.
fn kept_of(words: &[u64], fill: u64) -> usize
    ensures { result ≡ kept_of fill words.now }
{
    let mut kept = 0;
    for word in words {
        if *word == fill {
            kept += 1;
        }
    }
    kept
}

// Writes how many words are kept, which comes after the lines.
#[tactic(auto, unfolding(crate::specs::Text::kept_text))]
fn tell_kept<const N: usize>(kept: usize, out: &mut Output<N>)
    requires { length out.old + 28 ≤ N }
    ensures { out.new ≡ out.old ++ kept_text kept }
{
    out.labelled(b"  kept ", kept as u64);
}
