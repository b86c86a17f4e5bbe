// Reads a line of a journal: it is a call with its arguments, a comment, or no call.
#![tactic(auto)]

ghost use Rattle.std.specs.Prelude.{◌≡◌, ◌≤◌, length, unwrap_or};
ghost use Rattle.std.proofs.lemmas.List.Edits.{sets};
ghost use Rattle.reading.specs.Numbers.{number_of};
ghost use Rattle.reading.specs.Words.{first_word, further_words, words_of};
ghost use Rattle.reading.specs.Calls.{most_numbers, naming_of, numbers_of, shape_right};
ghost use Rattle.reading.specs.Lines.{call_with, line_of, if_named, numbers_ahead, Understood};
ghost use Rattle.reading.specs.Found.{named_of, few_of};
ghost use Rattle.reading.specs.declared.Line.TheVariants.{NoCall};

use writing::SPACE;

// The names of the calls, and of the one other line that is answered by numbers.
#[derive(Clone, Copy)]
pub enum Name {
    Open,
    Enter,
    Withdraw,
    Cancel,
    Deliver,
    Offer,
    Rate,
    Close,
    Again,
    Month,
    Status,
    Account,
    Look,
    // This call takes no book. It writes closed days.
    Target,
    // This is no call on the book. It asks for the edition of the rules.
    Rules,
}

// Which numbers a call has.
#[derive(Clone, Copy)]
pub enum Shape {
    // This many numbers.
    Plain(usize),
    // Three numbers, of which the third says how many days follow, and these days.
    Days,
    // This many numbers, and then the length and the fill of a list that is lent.
    Lent(usize),
    // How many amounts follow, these amounts, and then the length and the fill of a list that is lent.
    Amounts,
}

// What a line is. A call has a name, a shape and the number of its arguments.
#[derive(Clone, Copy)]
pub enum Line {
    Call(Name, Shape, usize),
    Comment,
    NoCall,
}

const MOST_LISTED: u64 = 4_096;

const MOST_BYTES: usize = 65_536;

// The call that a word names, if it names one, and its shape.
#[tactic(auto, using(crate::proofs::Spelling::by_length))]
fn name_of(word: &[u8]) -> Option<(Name, Shape)>
    ensures { result ≡ named_of (naming_of word.now) }
{
    match word {
        b"open" => Some((Name::Open, Shape::Days)),
        b"enter" => Some((Name::Enter, Shape::Plain(6))),
        b"withdraw" => Some((Name::Withdraw, Shape::Plain(2))),
        b"cancel" => Some((Name::Cancel, Shape::Plain(2))),
        b"deliver" => Some((Name::Deliver, Shape::Plain(2))),
        b"offer" => Some((Name::Offer, Shape::Plain(4))),
        b"rate" => Some((Name::Rate, Shape::Plain(2))),
        b"close" => Some((Name::Close, Shape::Lent(1))),
        b"again" => Some((Name::Again, Shape::Lent(0))),
        b"month" => Some((Name::Month, Shape::Amounts)),
        b"status" => Some((Name::Status, Shape::Plain(1))),
        b"account" => Some((Name::Account, Shape::Plain(1))),
        b"look" => Some((Name::Look, Shape::Plain(1))),
        b"target" => Some((Name::Target, Shape::Lent(2))),
        b"rules" => Some((Name::Rules, Shape::Plain(0))),
        _ => None,
    }
}

// The number that a word is, if every byte of it is a digit and 64 bits hold its value.
fn number_of(word: &[u8]) -> Option<u64>
    ensures { result ≡ number_of word.now }
{
    if word.is_empty() {
        return None;
    }
    let mut value: u64 = 0;
    for byte in word {
        if !byte.is_ascii_digit() {
            return None;
        }
        value = value.checked_mul(10)?.checked_add(u64::from(*byte - b'0'))?;
    }
    Some(value)
}

// Reads the numbers of a line, and puts each into its place of the buffer. The answer is how many there are, if every
// word is a number and there is a place for each.
fn read_numbers(line: &[u8], numbers: &mut [u64]) -> Option<usize>
    ensures value { result ≡ few_of (length numbers.old) (numbers_of (words_of line.now)) }
    ensures numbers_after { numbers.new ≡ sets numbers.old 0 (numbers_ahead (words_of line.now)) }
{
    let mut count = 0;
    for word in line.split(|byte| *byte == SPACE) {
        if count == numbers.len() {
            return None;
        }
        numbers[count] = number_of(word)?;
        count += 1;
    }
    Some(count)
}

// Whether a call of this shape has these numbers: neither too few nor too many, and no list that is too long.
#[tactic(auto, using(std::proofs::lemmas::Grind::common_steps), unfolding(crate::specs::Calls::shape_right, crate::specs::Calls::counted, crate::specs::Calls::lists_of, crate::specs::Calls::listable))]
fn has_shape(shape: Shape, numbers: &[u64]) -> bool
    ensures { result ≡ shape_right shape numbers.now }
{
    match (shape, numbers) {
        (Shape::Plain(size), _) => numbers.len() == size,
        (Shape::Days, [_, _, days, rest @ ..]) => {
            *days <= MOST_LISTED && rest.len() == *days as usize
        }
        (Shape::Lent(before), [first @ .., lent, _]) => {
            first.len() == before && *lent <= MOST_LISTED
        }
        (Shape::Amounts, [amounts, rest @ .., lent, _]) => {
            *amounts <= MOST_LISTED && rest.len() == *amounts as usize && *lent <= MOST_LISTED
        }
        _ => false,
    }
}

// Reads a line that is no comment and not too long, if it is a call.
fn read_call(line: &[u8], numbers: &mut [u64]) -> Option<Line>
    requires { most_numbers ≤ length numbers.old }
    ensures value { unwrap_or result NoCall ≡ line_of (call_with (naming_of (first_word line.now)) (numbers_of (further_words line.now))) }
    ensures numbers_after { numbers.new
        ≡ sets numbers.old 0 (if_named (naming_of (first_word line.now)) (numbers_ahead (further_words line.now))) }
{
    let end = line
        .iter()
        .position(|byte| *byte == SPACE)
        .unwrap_or(line.len());
    let (name, shape) = name_of(&line[..end])?;
    let count = if end == line.len() {
        0
    } else {
        read_numbers(&line[end + 1..], numbers)?
    };
    has_shape(shape, &numbers[..count]).then_some(Line::Call(name, shape, count))
}

// Reads a line of a journal, which is given without its line feed. Its arguments are put into the first places of the
// buffer for numbers.
pub fn read_line(line: &[u8], numbers: &mut [u64]) -> Line
    requires { most_numbers ≤ length numbers.old }
    ensures { Understood line.now numbers.old numbers.new result }
{
    if let [] | [b'#', ..] = line {
        return Line::Comment;
    }
    if MOST_BYTES < line.len() {
        return Line::NoCall;
    }
    read_call(line, numbers).unwrap_or(Line::NoCall)
}
