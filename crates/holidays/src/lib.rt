// The closed days of TARGET. A book is opened with a list of closed days, and the call Target writes this list for a
// few years. It takes no book.
#![tactic(auto)]

ghost use Rattle.std.specs.Prelude.{◌≡◌, ◌+◌, ◌*◌, ◌≤◌, length};
ghost use Rattle.std.proofs.lemmas.List.Edits.{sets};
ghost use Rattle.basics.specs.Lists.{at_front};
ghost use Rattle.basics.specs.Reasons.{answer_of};
ghost use Rattle.basics.specs.Refusals.{answer};
ghost use Rattle.holidays.specs.Years.{first_year, new_year, date_of};
ghost use Rattle.holidays.specs.Easter.{golden, plain_epact, epact, full_moon, easter};
ghost use Rattle.holidays.specs.Target.{Taken, closed_in_year, closed_from, last_year, too_few, bad_years};
ghost use Rattle.holidays.specs.Target.{target_refusals, target, target_words};

use basics::Reason;
use calendar::Day;

// The year in which day 0 is 1 January; `first_year` in specs/.
const FIRST_YEAR: u64 = 2_000;

// The last year that Target takes; `last_year` in specs/.
const LAST_YEAR: u64 = 2_178;

// The most years that Target takes; `most_years` in specs/.
const MOST_YEARS: u64 = 8;

// How many closed days a year has.
const CLOSED_IN_YEAR: usize = 6;

// A year that Target takes.
#[derive(Clone, Copy)]
struct Year {
    number: u64,
    ghost taken: { Taken number },
}

// The answer of Target.
#[derive(Clone, Copy)]
pub struct DaysWritten {
    pub answer: u64,
    // How many days were written.
    pub count: usize,
}

// The first day of a year. There is one leap year in four, and of the hundredth years only one in four. Before 2000
// there were 484 leap years by this rule.
#[tactic(auto, using(crate::proofs::Years::coded_enough, crate::proofs::Years::coded_year))]
fn new_year(year: u64) -> Day
    requires { (first_year ≤ year) × (year ≤ last_year + 1) }
    ensures { result.0 ≡ new_year year }
{
    let before = year - 1;
    Day(365 * (year - FIRST_YEAR) + before / 4 + before / 400 - before / 100 - 484)
}

// 1 March of a year. From this day on every year has 306 days.
#[tactic(auto, using(crate::proofs::Years::next_begins))]
fn first_of_march(year: Year) -> Day
    ensures { result.0 ≡ date_of year.number 3 1 }
{
    Day(new_year(year.number + 1).0 - 306)
}

// The golden number of a year.
fn golden(year: u64) -> u64
    ensures { result ≡ golden year }
{
    year % 19 + 1
}

// The epact of a year before its exceptions. Up to the last year that is taken, the sum is above the sun's correction.
#[tactic(auto, unfolding(crate::specs::Easter::plain_epact, crate::specs::Easter::sun_correction, crate::specs::Easter::moon_correction), using(crate::proofs::Moons::taken_off))]
fn plain_epact(year: Year) -> u64
    ensures { result ≡ plain_epact year.number }
{
    let century = year.number / 100 + 1;
    let sun = 3 * century / 4 - 12;
    let moon = (8 * century + 5) / 25 - 5;
    (11 * golden(year.number) + 20 + moon - sun) % 30
}

// The epact of a year.
#[tactic(auto, using(crate::proofs::Moons::first_exception, crate::proofs::Moons::second_exception, crate::proofs::Moons::not_25, crate::proofs::Moons::not_golden))]
fn epact(year: Year) -> u64
    ensures { result ≡ epact year.number }
{
    let plain = plain_epact(year);
    if plain == 24 {
        return 25;
    }
    if plain == 25 && 11 < golden(year.number) {
        return 26;
    }
    plain
}

// The paschal full moon of a year. The full moon of March comes 43 days after 1 March, less the epact, and 21 March is
// 20 days after it.
#[tactic(auto, using(crate::proofs::Years::march_early, crate::proofs::Moons::epact_is))]
fn full_moon(year: Year) -> Day
    ensures { result.0 ≡ full_moon year.number }
{
    let march = first_of_march(year);
    let moon = 43 - epact(year);
    if moon < 20 {
        return Day(march.0 + moon + 30);
    }
    Day(march.0 + moon)
}

// Easter of a year. The remainder says how many days after a Sunday the full moon is.
#[tactic(auto, unfolding(crate::specs::Easter::easter), using(crate::proofs::Moons::moon_most, crate::proofs::Sundays::sunday_after))]
fn easter(year: Year) -> Day
    ensures { result.0 ≡ easter year.number }
{
    let moon = full_moon(year);
    Day(moon.0 + 7 - (moon.0 + 6) % 7)
}

// Writes the closed days of a year from a place on. 1 May is 61 days after 1 March, and 25 December is 299 days after
// it.
fn put_year(year: Year, days: &mut [u64], at: usize)
    requires { at + 6 ≤ length days.old }
    ensures { days.new ≡ sets days.old at (closed_in_year year.number) }
{
    let march = first_of_march(year);
    let sunday = easter(year);
    days[at] = new_year(year.number).0;
    days[at + 1] = sunday.0 - 2;
    days[at + 2] = sunday.0 + 1;
    days[at + 3] = march.0 + 61;
    days[at + 4] = march.0 + 299;
    days[at + 5] = march.0 + 300;
}

// Writes the closed days of several years to the front of a list.
fn write_years(first: u64, years: usize, days: &mut [u64])
    requires { (first_year ≤ first) × (first + years ≤ last_year + 1) × (6 * years ≤ length days.old) }
    ensures { days.new ≡ at_front (closed_from first years) days.old }
{
    for i in 0..years {
        let year = Year {
            number: first + i as u64,
        };
        put_year(year, days, CLOSED_IN_YEAR * i);
    }
}

// Whether a list of this many words is too short for the years. Neither the number of years nor six times it need fit
// 64 bits, so the words are divided.
#[tactic(auto, using(crate::proofs::Refused::words_divided, crate::proofs::Refused::reversed_none))]
fn are_too_few(first: u64, last: u64, words: usize) -> bool
    ensures { result ≡ too_few first last words }
{
    first <= last && (words / CLOSED_IN_YEAR) as u64 <= last - first
}

// Whether the years are refused. If the first is not after the last, the years are one more than their difference.
fn are_bad_years(first: u64, last: u64) -> bool
    ensures { result ≡ bad_years first last }
{
    basics::is_outside(FIRST_YEAR, LAST_YEAR, first)
        || (basics::is_outside(FIRST_YEAR, LAST_YEAR, last)
            || (last < first || MOST_YEARS <= last - first))
}

// Why Target is refused, with this many words lent.
#[tactic(auto, unfolding(crate::specs::Target::target_refusals), using(basics::proofs::Refusals::pass, basics::proofs::Refusals::stop, basics::proofs::Refusals::all_passed))]
fn target_answer(first: u64, last: u64, words: usize) -> Result<(), Reason>
    ensures { answer_of result ≡ answer (target_refusals first last words) }
{
    if are_too_few(first, last, words) {
        return Err(Reason::BadLength);
    }
    if are_bad_years(first, last) {
        return Err(Reason::BadYears);
    }
    Ok(())
}

// Writes the closed days of all years from the first to the last, rising, and returns how many there are.
pub fn target_days(first: u64, last: u64, days: &mut [u64]) -> DaysWritten
    ensures value { result ≡ target first last (length days.old) }
    ensures days_after { days.new ≡ target_words first last days.old }
{
    if let Err(reason) = target_answer(first, last, days.len()) {
        return DaysWritten {
            answer: u64::from(reason),
            count: 0,
        };
    }
    let years = (last - first) as usize + 1;
    write_years(first, years, days);
    DaysWritten {
        answer: 0,
        count: CLOSED_IN_YEAR * years,
    }
}
