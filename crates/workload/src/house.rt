// The houses of the workload and their orders.
ghost use Rattle.std.specs.Prelude.{◌≤◌};

use options::Options;
use std::array;

// Seven seats, and every option that adds work: two burns, four hands, aces again, insurance up to the stake, five and prize. Little of it is the marked house's, so all
// are written out.
pub fn options_of(decks: u8) -> Options {
    let cut: u16 = if decks == 1 { 0 } else { 30 };
    Options {
        seats: 7,
        decks,
        first: 2,
        later: 2,
        hands: 4,
        aces: 1,
        double: 1,
        limit: 1,
        insurance: 2,
        five: 1,
        prize: 1,
        device: 1,
        decider: 1,
        cut,
        smallest: 2,
        largest: 1000,
    }
}

// 52 for each deck, of one, two, six or eight.
pub fn cards_of(decks: u8) -> usize
    ensures { (52 ≤ result) × (result ≤ 416) }
{
    match decks {
        1 => 52,
        2 => 104,
        6 => 312,
        _ => 416,
    }
}

// How far one card lies behind the one before it in sorted decks: each is odd and no multiple of 3 or 13, so every card comes once.
fn stride(seed: u32) -> usize
    ensures { result ≤ 67 }
{
    let k = seed % 8;
    match k {
        0 => 5,
        1 => 11,
        2 => 17,
        3 => 29,
        4 => 35,
        5 => 41,
        6 => 53,
        _ => 67,
    }
}

// The decks in another order for each seed.
pub fn order_of(decks: u8, seed: u32) -> [u8; 416] {
    let n = cards_of(decks);
    let far = stride(seed);
    let first = (seed / 8) as usize;
    array::from_fn(|place| ((first + far * place) % n % 52) as u8)
}
