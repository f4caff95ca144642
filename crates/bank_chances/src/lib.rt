// The bank's chances in whole numbers (request 2.10): all ordered draws of some of the cards that are left, counted by where the bank's rule ends in them.
#![tactic(auto)]

mod ending;
mod left;
pub mod share;
mod ways;

ghost use Rattle.std.specs.Prelude.{◌≡◌, replicate};
ghost use Rattle.call.specs.Refusal.{number_of, number_in};
ghost use Rattle.bank_chances.specs.Chances.{chances_number, make_chances, chances_of};

use call::refusal::{Refusal, first_refusal};
use cards::hand::{empty_hand, with_card};

// The number, 0 where it is accepted; how many draws there are; and of them those that end with a natural, 17, 18, 19, 20, 21 otherwise, bust, unfinished.
#[repr(C)]
#[derive(Clone, Copy)]
pub struct BankChances {
    // A number and no Result: the struct crosses the C interface.
    pub number: u8,
    pub all: u64,
    pub counts: [u64; 8],
}

// Why a question is refused: 3 a wrong card or count, then 27 a depth over 6 or over the number of cards left.
#[tactic(auto, unfolding(crate::specs::Chances::chances_conditions, call::specs::Refusal::first))]
fn check_chances(up: u8, left: [u8; 52], depth: u8) -> Result<(), Refusal>
    ensures { number_in result ≡ chances_number up left depth }
{
    first_refusal(&[
        (Refusal::WrongOrder, 51 < up),
        (Refusal::WrongOrder, left::some_above(left)),
        (Refusal::WrongDepth, 6 < depth),
        (Refusal::WrongDepth, left::many_left(left) < depth as u64),
    ])
}

// The answer to a question that is refused. Public for the library, which refuses counts of a wrong length.
pub fn refused(why: Refusal) -> BankChances
    ensures { result ≡ make_chances (number_of why) 0 (replicate 8 0) }
{
    BankChances {
        number: why.number(),
        all: 0,
        counts: [0u64; 8],
    }
}

// The answer to a question that is not refused.
fn counted(up: u8, left: [u8; 52], depth: u8) -> BankChances
    requires { chances_number up left depth ≡ 0 }
    ensures { result ≡ chances_of up left depth }
{
    let n = left::many_left(left);
    let bank = with_card(empty_hand(), up);
    let found = ways::ways(bank, left::by_points(left), n, depth);
    let counts = found.each;
    BankChances {
        number: 0,
        all: ways::falling(n, depth),
        counts,
    }
}

// The up card, how often each face is left, and how many cards are drawn.
pub fn chances(up: u8, left: [u8; 52], depth: u8) -> BankChances
    ensures { result ≡ chances_of up left depth }
{
    match check_chances(up, left, depth) {
        Ok(()) => counted(up, left, depth),
        Err(why) => refused(why),
    }
}
