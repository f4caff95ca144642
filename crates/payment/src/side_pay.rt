// The pay of a side stake (request 2.6, articles 13 and 14), by its kind: from the seat's first two cards and, where these were split, the next card drawn. Every byte
// is taken for a card.
ghost use Rattle.std.specs.Prelude.{◌≡◌, cond, ◌&&◌, ◌≤◌, length, take};
ghost use Rattle.cards.specs.Total.{low_sum};
ghost use Rattle.payment.specs.SidePay.{is_seven, same_suit, pair_odds, sevens_odds, side_odds, side_pay};

use crate::pay::Pay;
use cards::card::{points, rank, suit};

// Kind 1: a pair.
#[tactic(auto, unfolding(crate::specs::SidePay::pair_odds, cards::specs::Pair::is_pair))]
fn pair_odds(first: &[u8]) -> u64
    ensures { result ≡ pair_odds first.now }
{
    match first {
        [one, two, ..] if rank(*one) == rank(*two) => 11,
        _ => 0,
    }
}

#[tactic(auto, unfolding(crate::specs::SidePay::is_seven))]
fn is_seven(card: u8) -> bool
    ensures { result ≡ is_seven card }
{
    rank(card) == 6
}

// Two sevens, and three.
#[tactic(auto, unfolding(crate::specs::SidePay::same_suit))]
fn two_sevens(one: u8, two: u8) -> u64
    ensures { result ≡ cond (same_suit one two) 150 50 }
{
    if suit(one) == suit(two) { 150 } else { 50 }
}

#[tactic(auto, unfolding(crate::specs::SidePay::same_suit))]
fn three_sevens(one: u8, two: u8, three: u8) -> u64
    ensures { result ≡ cond (same_suit one two && same_suit one three) 5000 500 }
{
    if suit(one) == suit(two) && suit(one) == suit(three) {
        5000
    } else {
        500
    }
}

// Kind 2: two sevens, and three where they were split.
#[tactic(auto, unfolding(crate::specs::SidePay::sevens_odds, crate::specs::SidePay::is_seven, cards::specs::Pair::is_pair))]
fn sevens_odds(first: &[u8]) -> u64
    ensures { result ≡ sevens_odds first.now }
{
    match first {
        [one, two, three] if is_seven(*one) && (is_seven(*two) && is_seven(*three)) => {
            three_sevens(*one, *two, *three)
        }
        [one, two, ..] if is_seven(*one) && is_seven(*two) => two_sevens(*one, *two),
        _ => 0,
    }
}

// The low sum of the first two cards: an ace counts one. It asks for both.
fn both(first: &[u8]) -> u8
    requires { 2 ≤ length first.now }
    ensures { result ≡ low_sum (take 2 first.now) }
{
    points(first[0]) + points(first[1])
}

// What the kind pays to one; 0 where it loses. The kind is a byte, as a call has it: every byte has its answer, as in the definition.
#[tactic(auto, using(crate::proofs::side_pay::Laws::pair_most, crate::proofs::side_pay::Laws::sevens_most), unfolding(crate::specs::SidePay::side_odds, crate::specs::SidePay::more_odds, crate::specs::SidePay::less_odds))]
fn side_odds(kind: u8, first: &[u8]) -> u64
    requires { 2 ≤ length first.now }
    ensures same { result ≡ side_odds kind first.now }
    ensures most { result ≤ 5000 }
{
    match kind {
        1 => pair_odds(first),
        2 => sevens_odds(first),
        3 => if 13 < both(first) { 1 } else { 0 },
        4 => if both(first) < 13 { 1 } else { 0 },
        _ => 0,
    }
}

// The pay of a stake of that kind; `split` says whether the first two cards were split. It is no part of the first cards: it is a fact of the hands, worked out once
// for the four kinds.
#[tactic(auto, unfolding(crate::specs::SidePay::side_pay))]
pub fn side_pay(kind: u8, stake: u32, first: [u8; 3], split: bool) -> Pay
    ensures { result ≡ side_pay kind stake (take (cond split 3 2) first) }
{
    let laid = stake as u64;
    let counted = if split { 3 } else { 2 };
    let odds = side_odds(kind, &first[..counted]);
    let back = if odds == 0 { 0 } else { laid + odds * laid };
    Pay { laid, back }
}
