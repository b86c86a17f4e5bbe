// Bytes in and out: where the input and the output stand from one turn to the next, and what reads and writes do to
// them.
ghost use Rattle.std.specs.Prelude.{◌≡◌, ◌+◌, ◌≤◌, [], ◌++◌, length, take};
ghost use Rattle.answers.specs.Text.{most_answer, Tellable, answer_text};
ghost use Rattle.settle.specs.Flow.{at_start, answered, read_of, failed_from, ReadOn, FedOn, TakenOn, ToldOn};
ghost use Rattle.settle.specs.Ending.{torn_text, over_text, last_text};

use answers::{Answer, MOST_ANSWER};
use lines::{Feed, Taken};
use std::io;
use std::io::{ErrorKind, Read as _, Stderr, Stdin, Stdout, Write};
use writing::Output;

// The streams of the process: the journal comes in, the answers go out, and what failed is told.
#[derive(Clone, Copy)]
pub struct Streams {
    pub journal: Stdin,
    pub answers: Stdout,
    pub failures: Stderr,
}

// How the run goes.
#[derive(Clone, Copy)]
pub enum Course {
    // No read and no write has failed, and the input is not over.
    Going,
    // A read answered that the input is over, and nothing has failed.
    Over,
    // A read or a write has failed.
    Failed,
}

// What a read brought. It is no `Result`, because the end of the input is a third case and has a course of its own.
#[derive(Clone, Copy)]
enum Read {
    Bytes(usize),
    Nothing,
    Error,
}

// Where the input stands, and how the run goes.
#[derive(Clone, Copy)]
pub struct Flow {
    pub feed: Feed,
    pub course: Course,
}

// Nothing is read or written yet.
pub fn start() -> Flow
    ensures { result ≡ at_start }
{
    Flow {
        feed: Feed::start(),
        course: Course::Going,
    }
}

// Writes a piece of text. A write that a signal interrupts before it has taken a byte counts as one that failed, so it is
// not tried again. The library's `write_all` would try it again, so the loop stands here.
fn write_all(mut output: Stdout, text: &[u8]) -> io::Result<()> {
    let mut done = 0;
    while done < text.len() {
        match output.write(&text[done..]) {
            Ok(0) => return Err(io::Error::from(ErrorKind::WriteZero)),
            Ok(count) => done += count,
            Err(reason) => return Err(reason),
        }
    }
    Ok(())
}

// Hands the answers so far to the system, and answers whether all of them were written. If not, it prints the system's
// reason on standard error.
pub fn write_out<const N: usize>(streams: Streams, out: &Output<N>) -> bool
    ensures { out.exit.now ≡ out.entry.now }
{
    match write_all(streams.answers, out.written()) {
        Ok(()) => true,
        Err(reason) => {
            let _ = eprintln!(streams.failures;
                "settle: the answers could not be written: {reason}"
            );
            false
        }
    }
}

// Hands the answers so far to the system, so that none waits in the output, and answers whether all of them were written.
fn hand_out<const N: usize>(streams: Streams, out: &mut Output<N>) -> bool
    ensures { out.new ≡ [] }
{
    let written = write_out(streams, out);
    out.clear();
    written
}

// What a read brought, by what the system answered. A count is never more than the buffer has places for.
#[tactic(auto, unfolding(crate::specs::Flow::answered, crate::specs::Flow::read_of))]
fn read_as(got: io::Result<usize>, part: &[u8]) -> Read
    ensures { result ≡ read_of (answered got) (length part.now) }
{
    match got {
        Ok(0) => Read::Nothing,
        Ok(count) => Read::Bytes(count.min(part.len())),
        Err(_) => Read::Error,
    }
}

// Prints on standard error why a read failed.
fn tell_unread(streams: Streams, got: io::Result<usize>) {
    if let Err(reason) = got {
        let _ = eprintln!(streams.failures; "settle: the journal could not be read: {reason}");
    }
}

// The run has failed: no more of the bytes that were read are taken.
fn failed(feed: Feed) -> Flow
    ensures { result ≡ failed_from feed }
{
    Flow {
        feed: feed.dropped(),
        course: Course::Failed,
    }
}

// Reads more of the input. If the read fails, it prints the system's reason on standard error. A read that a signal
// interrupts before it has brought a byte counts as one that failed.
fn read_on(streams: Streams, feed: Feed, part: &mut [u8]) -> Flow
    ensures { ReadOn feed part.new result }
{
    let mut journal = streams.journal;
    let got = journal.read(part);
    match read_as(got, part) {
        Read::Bytes(count) => Flow {
            feed: feed.filled(count),
            course: Course::Going,
        },
        Read::Nothing => Flow {
            feed,
            course: Course::Over,
        },
        Read::Error => {
            tell_unread(streams, got);
            failed(feed)
        }
    }
}

// Makes ready for the next bytes of a line. If all that was read is used up, it writes the answers so far and reads
// more. If there is no room for the longest answer, it writes the answers so far. This comes before a line is played,
// so that there is always room for the line's answer, and no line is played after a write that failed.
pub fn feed_on<const N: usize>(
    streams: Streams,
    flow: Flow,
    part: &mut [u8],
    out: &mut Output<N>,
) -> Flow
    ensures { FedOn flow N out.old part.old part.new result out.new }
{
    let feed = flow.feed;
    if feed.is_used_up() {
        if hand_out(streams, out) {
            return read_on(streams, feed, part);
        }
        return failed(feed);
    }
    if out.has_room(MOST_ANSWER) {
        return flow;
    }
    if hand_out(streams, out) {
        return Flow {
            feed,
            course: Course::Going,
        };
    }
    failed(feed)
}

// Takes the next bytes of the current line.
pub fn take(flow: Flow, part: &[u8], line: &mut [u8]) -> Taken
    requires { (flow.feed.from ≤ flow.feed.to) × (flow.feed.to ≤ length part.now) × (flow.feed.held ≤ length line.old) }
    ensures { TakenOn flow part.now line.old line.new result }
{
    flow.feed.take(part, line)
}

// Puts the answer to the line that was taken into the output.
pub fn tell<const N: usize>(
    flow: Flow,
    taken: Taken,
    answer: Answer,
    words: &[u64],
    out: &mut Output<N>,
) -> Flow
    requires { (Tellable answer words.now) × (length out.old + most_answer ≤ N) }
    ensures { ToldOn flow taken (answer_text answer taken.feed.ended words.now) N out.old out.new result }
{
    let feed = taken.feed;
    answer.tell(feed.ended, words, out);
    Flow { feed, ..flow }
}

// Puts the answer to a last line without a line feed into the output. Such a line is torn and is no call. If it is a
// comment, or if there is none, it has no answer.
fn tell_torn<const N: usize>(torn: &[u8], lines: u64, out: &mut Output<N>)
    requires { length out.old + 28 ≤ N }
    ensures { out.new ≡ out.old ++ torn_text lines torn.now }
{
    if !torn.is_empty() && torn[0] != b'#' {
        out.no_call(lines);
    }
}

// The whole text was read, and its lines were played and answered. What is still to be written is the answer to a torn
// last line, and the line `end`.
fn tell_over<const N: usize>(feed: Feed, line: &[u8], out: &mut Output<N>)
    requires { (feed.held ≤ length line.now) × (length out.old + most_answer ≤ N) }
    ensures { out.new ≡ out.old ++ over_text feed line.now }
{
    let lines = feed.lines();
    tell_torn(&line[..feed.held], lines, out);
    out.end(lines);
}

// Puts what is written last into the output. Only if the input is over does it say by a line `end` that the run is
// complete. If the turns ran out, only the answers so far are left to write.
pub fn tell_last<const N: usize>(flow: Flow, line: &[u8], out: &mut Output<N>)
    requires { (flow.feed.held ≤ length line.now) × (most_answer ≤ N) }
    ensures upper_bound { length out.new ≤ N }
    ensures out_after { out.new ≡ last_text flow line.now out.old }
{
    match flow.course {
        Course::Going => out.keep(),
        Course::Over => {
            out.clear();
            tell_over(flow.feed, line, out);
        }
        Course::Failed => out.clear(),
    }
}
