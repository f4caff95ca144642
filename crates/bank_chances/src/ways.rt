// The count itself, a recursion over the next card's points with the depth falling; the counts are summed on return.
ghost use Rattle.std.specs.Prelude.{◌≡◌, ◌≤◌, ◌<◌, get_or};
ghost use Rattle.cards.specs.Hand.{cards_of};
ghost use Rattle.bank_chances.specs.Draws.{falling as falling_of};
ghost use Rattle.bank_chances.specs.Ending.{ending_of};
ghost use Rattle.bank_chances.specs.Aids.Ways.{without, ways_of, only_ending, plus_times, Within, Room};

use crate::ending::ending;
use cards::hand::{Hand, with_card};
use payment::bank::must_draw;

// A count for each of the eight endings.
#[derive(Clone, Copy)]
pub(crate) struct Counts {
    pub each: [u64; 8],
}

// n (n − 1) … (n − k + 1).
// Here and below at most 416 cards and six draws, asked of the numbers: both fall with each draw, so a type of the two would be made anew at every step of the recursion.
pub(crate) fn falling(n: u64, depth: u8) -> u64
    requires { (n ≤ 416) × (depth ≤ 6) }
    ensures { result ≡ falling_of n depth }
{
    if depth == 0 {
        return 1;
    }
    if n == 0 {
        return 0;
    }
    n * falling(n - 1, depth - 1)
}

// So many draws with one ending, none with another.
fn only(ending: u8, many: u64) -> Counts
    requires { ending < 8 }
    ensures { result.each ≡ only_ending ending many }
{
    let at = ending as usize;
    let mut each = [0u64; 8];
    each[at] = many;
    Counts { each }
}

// The counts with others added so many times.
fn plus_times(counts: Counts, many: u64, behind: Counts) -> Counts
    requires { Room counts.each many behind.each }
    ensures { result.each ≡ plus_times counts.each many behind.each }
{
    Counts {
        each: [
            counts.each[0] + many * behind.each[0],
            counts.each[1] + many * behind.each[1],
            counts.each[2] + many * behind.each[2],
            counts.each[3] + many * behind.each[3],
            counts.each[4] + many * behind.each[4],
            counts.each[5] + many * behind.each[5],
            counts.each[6] + many * behind.each[6],
            counts.each[7] + many * behind.each[7],
        ],
    }
}

// The bank's rule or the draw has ended: all draws of what is left count as the bank stands.
fn ended(bank: Hand, n: u64, depth: u8) -> Counts
    requires { (n ≤ 416) × (depth ≤ 6) }
    ensures { result.each ≡ only_ending (ending_of (cards_of bank)) (falling_of n depth) }
{
    only(ending(bank), falling(n, depth))
}

// What is left behind a card of these points. It asks for one.
fn without(left: &[u64; 10], p: usize) -> [u64; 10]
    requires { (p < 10) × (0 < get_or left.now p 0) }
    ensures { result ≡ without left.now p }
{
    let mut rest = *left;
    rest[p] -= 1;
    rest
}

// The draws of so many of the n cards that are left, behind the bank's cards, by the points of the next card.
pub(crate) fn ways(bank: Hand, left: [u64; 10], n: u64, depth: u8) -> Counts
    requires { Within left n depth }
    ensures { result.each ≡ ways_of (cards_of bank) left n depth }
{
    if depth == 0 {
        return ended(bank, n, depth);
    }
    if !must_draw(bank) {
        return ended(bank, n, depth);
    }
    let mut counts = Counts { each: [0u64; 8] };
    for (p, many) in left.iter().enumerate() {
        if 0 < *many {
            let rest = without(&left, p);
            let behind = ways(with_card(bank, p as u8), rest, n - 1, depth - 1);
            counts = plus_times(counts, *many, behind);
        }
    }
    counts
}
