// Puts the settled examples of docs/RULES.md through the code and prints each answer beside the settled one. That none
// differs is proved, and the output shows it.
#![tactic(auto)]

use calendar::{ClearingDays, ClosedDays, Day};
use offers::{Offer, Offers};
use std::io::Stdout;

mod played;

ghost use Rattle.std.specs.Prelude.{◌≡◌, ◌≤◌, eqb};
ghost use Rattle.basics.specs.Choice.{pick};
ghost use Rattle.calendar.specs.Closed.{day, listed_days};
ghost use Rattle.calendar.specs.Days.{clearing_days, nth_after};
ghost use Rattle.examples.specs.Table.{day_or_none, offer_of};

// Prints one answer of an example and answers 1 where it is not the settled one, else 0. The answer is the same if it
// could not be printed.
fn compared(output: Stdout, item: u64, answer: u64, settled: u64) -> u64
    ensures value { result ≡ pick (eqb answer settled) 0 1 }
    ensures upper_bound { result ≤ 1 }
{
    if answer == settled {
        let _ = println!(output; "example {item}: {answer}, as settled");
        return 0;
    }
    let _ = println!(output; "example {item}: {answer}, settled is {settled}");
    1
}

// Examples 1 to 3: penalties and compensation.
fn rounded_amounts(output: Stdout) -> u64
    ensures { result ≡ 0 }
{
    compared(output, 1, amounts::penalty_of(1_000, 100_000, 10), 1_000)
        + compared(output, 2, amounts::penalty_of(1, 50_000, 10), 1)
        + compared(output, 2, amounts::penalty_of(1, 49_999, 10), 0)
        + compared(output, 3, amounts::compensation_of(1, 100_005), 10_001)
        + compared(output, 3, amounts::compensation_of(1, 100_004), 10_000)
}

// Examples 4 to 6: the cap and the tolerance, 1 standing for yes.
fn limits(output: Stdout) -> u64
    ensures { result ≡ 0 }
{
    compared(output, 4, u64::from(amounts::above_cap(107_998, 99_999)), 0)
        + compared(output, 4, u64::from(amounts::above_cap(107_999, 99_999)), 1)
        + compared(
            output,
            5,
            u64::from(amounts::amounts_match(10_000_000, 10_000_200)),
            1,
        )
        + compared(
            output,
            5,
            u64::from(amounts::amounts_match(10_000_000, 10_000_201)),
            0,
        )
        + compared(
            output,
            6,
            u64::from(amounts::amounts_match(10_000_001, 10_002_501)),
            1,
        )
        + compared(
            output,
            6,
            u64::from(amounts::amounts_match(10_000_001, 10_002_502)),
            0,
        )
}

// Example 7: three deliveries of one unit.
fn part_deliveries(output: Stdout) -> u64
    ensures { result ≡ 0 }
{
    compared(output, 7, amounts::cash_for(1_000, 3, 0, 1), 333)
        + compared(output, 7, amounts::cash_for(1_000, 3, 1, 2), 333)
        + compared(output, 7, amounts::cash_for(1_000, 3, 2, 3), 334)
}

// Example 8: a hundred cents for claims of 200 and 100, and for three of 100.
fn months(output: Stdout) -> u64
    ensures { result ≡ 0 }
{
    let mut two = [0i64; 32];
    two[0] = 200;
    two[1] = 100;
    let mut three = [0i64; 32];
    three[0] = 100;
    three[1] = 100;
    three[2] = 100;
    let of_two = netting::shares_of(two, 100);
    let of_three = netting::shares_of(three, 100);
    compared(output, 8, of_two[0], 67)
        + compared(output, 8, of_two[1], 33)
        + compared(output, 8, of_three[0], 34)
        + compared(output, 8, of_three[1], 33)
        + compared(output, 8, of_three[2], 33)
}

// The number of the n-th clearing day after day 2, or 0 where there is none.
fn nth_after_2(closed: &ClosedDays, n: u64) -> u64
    ensures { result ≡ day_or_none (nth_after (listed_days closed.now) (day 2) (clearing_days n)) }
{
    closed
        .nth_after(Day(2), ClearingDays(n))
        .map_or(0, |day| day.0)
}

// Example 9: clearing days with no closed day, and with day 44 closed.
fn clearing_days(output: Stdout) -> u64
    ensures { result ≡ 0 }
{
    let list = [44u64; 1];
    let all_open = ClosedDays::of(&list[..0]);
    let one_closed = ClosedDays::of(&list);
    compared(output, 9, nth_after_2(&all_open, 30), 44)
        + compared(output, 9, nth_after_2(&all_open, 35), 51)
        + compared(output, 9, nth_after_2(&one_closed, 30), 45)
}

// An offer for obligation 0.
fn offered(supplier: u16, quantity: u32, price: u32) -> Offer
    ensures { result ≡ offer_of supplier quantity price }
{
    Offer {
        obligation: 0,
        supplier: supplier,
        quantity: quantity,
        price: price,
    }
}

// Example 10, the auction: who gives and how much.
fn auction(output: Stdout) -> u64
    ensures { result ≡ 0 }
{
    let mut offers = Offers::none();
    offers.insert(offered(1, 7, 101_000));
    offers.insert(offered(2, 5, 100_500));
    offers.insert(offered(3, 7, 101_000));
    let bought = offers.buy_in(0, 10);
    let given = bought.given;
    let first = given[0];
    let second = given[1];
    compared(output, 10, bought.count as u64, 2)
        + compared(output, 10, first.offer.supplier as u64, 2)
        + compared(output, 10, first.quantity as u64, 5)
        + compared(output, 10, second.offer.supplier as u64, 1)
        + compared(output, 10, second.quantity as u64, 5)
}

// Example 10, the charges of the two quantities bought.
fn charges(output: Stdout) -> u64
    ensures { result ≡ 0 }
{
    let first = amounts::cash_for(1_000_000, 10, 0, 5);
    let second = amounts::cash_for(1_000_000, 10, 5, 10);
    compared(output, 10, amounts::charge_for(5, 100_500, first), 2_500)
        + compared(output, 10, amounts::charge_for(5, 101_000, second), 5_000)
}

// Example 13: the closed days of 2000, and a word after them.
fn closed_days(output: Stdout) -> u64
    ensures { result ≡ 0 }
{
    let mut days = [9u64; 7];
    let written = holidays::target_days(2_000, 2_000, &mut days);
    compared(output, 13, written.answer, 0)
        + compared(output, 13, written.count as u64, 6)
        + compared(output, 13, days[0], 0)
        + compared(output, 13, days[1], 111)
        + compared(output, 13, days[2], 114)
        + compared(output, 13, days[3], 121)
        + compared(output, 13, days[4], 359)
        + compared(output, 13, days[5], 360)
        + compared(output, 13, days[6], 9)
}

fn main(rt: HostRuntime) {
    let output = rt.stdout();
    let differ = rounded_amounts(output)
        + limits(output)
        + part_deliveries(output)
        + months(output)
        + clearing_days(output)
        + auction(output)
        + charges(output)
        + closed_days(output);
    let _ = println!(output; "the examples that are calls, played from an Open");
    let played_differ = played::cap(output)
        + played::tolerance(output)
        + played::deliveries(output)
        + played::auction(output)
        + played::equal_prices(output)
        + played::reprint(output)
        + played::everybody_paid(output)
        + played::starting_days(output);
    let all_differ = differ + played_differ;
    let _ = println!(output; "{all_differ} answers differ from the settled ones");
}
