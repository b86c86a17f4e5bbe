// settle: plays a journal from standard input on one book and writes the answers to standard output. It holds one line
// at a time, so its memory does not grow with the journal. Whenever its input is used up, it writes all answers so far.
// With an argument on its command line it says what it is and plays nothing.
#![tactic(auto)]

ghost use Rattle.std.specs.Prelude.{◌≡◌, ◌≤◌, ◌↔◌, IsTrue, length};
ghost use Rattle.settle.specs.Turns.{Buffers, begins};
ghost use Rattle.settle.specs.Ending.{PlaysIn};
ghost use Rattle.settle.specs.declared.flow.Course.TheVariants.{Going};

use crate::calls::Played;
use answers::Answer;
use calendar::Day;
use flow::{Course, Streams};
use reading::{Line, Name};
use std::env::FillError;
use std::io;
use std::io::Stdout;
use std::rt::Env;
use writing::Output;

mod calls;
mod flow;

// Whether the run goes on. It does until the input is over, or until a read or a write has failed.
fn goes_on(course: Course) -> bool
    ensures { IsTrue result ↔ course ≡ Going }
{
    match course {
        Course::Going => true,
        Course::Over => false,
        Course::Failed => false,
    }
}

// Plays the journal. A proved loop has to end, but a journal may go on for ever. So the loop has more turns than any run
// uses up. A turn takes bytes of one line, and plays the line if it has ended. The calls are made here and not in a
// function of their own, because the book would be copied once more on its way to that function. The answer is handed on
// by value, since the book beside it would be copied once more if the answer were lent. What is in the output in the end
// is still to be written. If the whole journal was played, it ends with the line `end`.
fn settle_all<const N: usize>(
    streams: Streams,
    part: &mut [u8],
    line: &mut [u8],
    numbers: &mut [u64],
    words: &mut [u64],
    out: &mut Output<N>,
)
    requires { Buffers line.old numbers.old words.old N }
    ensures upper_bound { length out.new ≤ N }
    ensures plays_in { PlaysIn (begins part.old line.old numbers.old words.old N)
        part.new line.new numbers.new words.new N out.new }
{
    out.clear();
    let mut flow = flow::start();
    let mut played = calls::before_all();
    for _ in 0..u64::MAX {
        if !goes_on(flow.course) {
            break;
        }
        let fed = flow::feed_on(streams, flow, part, out);
        let taken = flow::take(fed, part, line);
        let a = calls::ask(taken, line, numbers);
        let kind = a.line;
        match kind {
            Line::Call(name, _, _) => match name {
                Name::Open => played = calls::open(a, numbers),
                Name::Enter => played = calls::enter(played.book, a),
                Name::Withdraw => played = Played::from(played.book.withdraw(a.first, a.second)),
                Name::Cancel => played = Played::from(played.book.cancel(a.first, a.second)),
                Name::Deliver => played = Played::from(played.book.deliver(a.first, a.second)),
                Name::Offer => {
                    played = Played::from(played.book.offer(a.first, a.second, a.third, a.fourth))
                }
                Name::Rate => played = Played::from(played.book.rate(Day(a.first), a.second)),
                Name::Close => played = calls::close(played.book, a, words),
                Name::Again => played = calls::again(played.book, a, words),
                Name::Month => played = calls::month(played.book, a, numbers, words),
                Name::Status => played.answer = calls::shown(played.book.status(a.first)),
                Name::Account => played.answer = calls::balance(played.book.account(a.first)),
                Name::Look => played.answer = calls::looked(played.book.look(a.first)),
                Name::Target => played.answer = calls::target_days(a, words),
                Name::Rules => played.answer = calls::rules(),
            },
            Line::Comment => played.answer = Answer::nothing(),
            Line::NoCall => played.answer = Answer::no_call(),
        }
        flow = flow::tell(fed, taken, played.answer, words, out);
    }
    flow::tell_last(flow, line, out);
}

// Places for the bytes of one read.
const READ_PLACES: usize = 65_536;

// Places for the bytes of a line. There is one more than a call's line may have bytes, so that a line that is too long
// can be told from one that is not.
const LINE_PLACES: usize = 65_537;

// Places for the numbers of a line.
const NUMBER_PLACES: usize = 4_104;

// Places for the words that a Close, an Again, a Month or a Target is lent.
const WORD_PLACES: usize = 4_096;

// Places for the answers. There are more than the longest answer takes.
const ANSWER_PLACES: usize = 131_072;

// Plays the journal, and writes what is left of the output.
fn play(streams: Streams) {
    let mut part = [0u8; READ_PLACES];
    let mut line = [0u8; LINE_PLACES];
    let mut numbers = [0u64; NUMBER_PLACES];
    let mut words = [0u64; WORD_PLACES];
    let mut out: Output<ANSWER_PLACES> = Output::new();
    settle_all(
        streams,
        &mut part,
        &mut line,
        &mut numbers,
        &mut words,
        &mut out,
    );
    flow::write_out(streams, &out);
}

// Says where the journal is read from, where its format is described, what the program was proved with, and which
// edition of the rules it follows.
fn say_about(output: Stdout) -> io::Result<()> {
    println!(output; "settle takes no file. It reads a journal from standard input:")?;
    println!(output; "    settle < FILE")?;
    println!(output;
        "It writes the answers to standard output. With any argument it plays nothing."
    )?;
    println!(output; "format: docs/JOURNAL.md; in the operations room: docs/OPERATIONS.md")?;
    println!(output; "proved with: rattle-kit-13f logic dac8208d650f15bf")?;
    println!(output; "rules: edition {}", calls::EDITION)
}

// Says what the program is. If that cannot be written, it prints the system's reason on standard error. `.ci/edges` says
// so if the kit that is named here is not that of the toolchain at hand.
fn tell_about(streams: Streams) {
    if let Err(reason) = say_about(streams.answers) {
        let _ = eprintln!(streams.failures; "settle: this text could not be written: {reason}");
    }
}

// Whether there is an argument on the command line after the program's name. Only an argument that is not there has
// `NotPresent` as its answer: one that is there may be longer than its place.
fn has_arguments(rt: &impl Env) -> bool {
    let mut place = [0u8; 1];
    !matches!(rt.arg(1, &mut place), Err(FillError::NotPresent))
}

// The exit status is 0 even if a read or a write failed. Whether the whole journal was played and answered is told by
// the line `end` alone.
fn main(rt: HostRuntime) {
    let streams = Streams {
        journal: rt.stdin(),
        answers: rt.stdout(),
        failures: rt.stderr(),
    };
    if has_arguments(&rt) {
        tell_about(streams);
        return;
    }
    play(streams);
}
