// Who decides for a seat on which several guests have staked (request 2.8, article 20).
ghost use Rattle.std.specs.Prelude.{◌≡◌, ◌&&◌, ltb};
ghost use Rattle.options.specs.Decider.{largest_stake, deciding_position};

use crate::Options;

// Whether a stake is larger than two others.
fn larger(stake: u32, one: u32, other: u32) -> bool
    ensures { result ≡ (ltb one stake && ltb other stake) }
{
    one < stake && other < stake
}

// The position whose stake is larger than both others; 0 where there is none.
#[tactic(auto, unfolding(crate::specs::Decider::largest_stake))]
fn largest_stake(a: u32, b: u32, c: u32) -> u8
    ensures { result ≡ largest_stake a b c }
{
    if larger(b, a, c) {
        1
    } else if larger(c, a, b) {
        2
    } else {
        0
    }
}

// The position that decides, of a seat with these three stakes.
#[tactic(auto, unfolding(crate::specs::Decider::deciding_position))]
pub fn deciding_position(o: Options, a: u32, b: u32, c: u32) -> u8
    ensures { result ≡ deciding_position o a b c }
{
    if o.decider == 1 {
        0
    } else {
        largest_stake(a, b, c)
    }
}
