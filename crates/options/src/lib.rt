// House options, given at opening (document 01): the struct, its ranges and the test that decides them.
#![tactic(auto)]

pub mod decider;
pub mod device;
pub mod permitted;

ghost use Rattle.std.specs.Prelude.{◌≡◌};
ghost use Rattle.lists.specs.Tests.{all_of};
ghost use Rattle.options.specs.Ranges.{within as is_within, range as range_of, most_decks, most_later, has_cut, least_cut, most_cut, ranges as ranges_of, in_range};

use crate::device::{is_box, is_shoe};

// The options in document 01's order. Every value is taken: `in_range` says whether a table may open with them. So a kind is the byte that C hands over and no enum,
// which has no place for the other bytes.
#[repr(C)]
#[derive(Clone, Copy)]
pub struct Options {
    // Seats, 6 to 9.
    pub seats: u8,
    // Decks, 1 to 8.
    pub decks: u8,
    // First burn: 1 one card, 2 one per deck.
    pub first: u8,
    // Later burn: 0 none; 1 one card at each later deal of the shoe; 2 the same and one before the bank's second card in every round.
    pub later: u8,
    // Hands per seat, 2 to 4.
    pub hands: u8,
    // Aces split again: 0 or 1.
    pub aces: u8,
    // Double: 1 any two cards, 2 only a total of 11.
    pub double: u8,
    // Loss limited on a bank natural: 0 or 1.
    pub limit: u8,
    // Insurance: 1 exactly half the stake, 2 half to whole.
    pub insurance: u8,
    // Five cards: 0 or 1.
    pub five: u8,
    // Special prize: 0 or 1.
    pub prize: u8,
    // Device: 1 shoe, 2 box (one deck, no later burn), 3 machine.
    // Here and in the other options a byte and no enum: C hands over any byte, and the opening refuses (1) those that name nothing.
    pub device: u8,
    // Who decides for a seat of several guests: 1 the seated guest, 2 the largest stake.
    pub decider: u8,
    // Cards behind the cut: 0 with one deck, a box or a machine, else 30 to 26 for each deck.
    pub cut: u16,
    // Smallest stake, even, at least 2.
    pub smallest: u32,
    // Largest stake, even, at most 1,000,000.
    pub largest: u32,
}

// A value with its least and its largest permitted value.
#[derive(Clone, Copy)]
pub struct Bounds {
    pub value: u32,
    pub least: u32,
    pub most: u32,
}

fn within(r: Bounds) -> bool
    ensures { result ≡ is_within r }
{
    r.least <= r.value && r.value <= r.most
}

// The box has one deck and no later burn.
fn most_decks(o: Options) -> u32
    ensures { result ≡ most_decks o }
{
    if is_box(o) { 1 } else { 8 }
}

fn most_later(o: Options) -> u32
    ensures { result ≡ most_later o }
{
    if is_box(o) { 0 } else { 2 }
}

// A shoe of several decks has a cut.
fn has_cut(o: Options) -> bool
    ensures { result ≡ has_cut o }
{
    is_shoe(o) && o.decks != 1
}

fn least_cut(o: Options) -> u32
    ensures { result ≡ least_cut o }
{
    if has_cut(o) { 30 } else { 0 }
}

fn most_cut(o: Options) -> u32
    ensures { result ≡ most_cut o }
{
    if has_cut(o) { 26 * (o.decks as u32) } else { 0 }
}

fn range(value: u32, least: u32, most: u32) -> Bounds
    ensures { result ≡ range_of value least most }
{
    Bounds { value, least, most }
}

// The same for an option of eight bits.
fn small(value: u8, least: u32, most: u32) -> Bounds
    ensures { result ≡ range_of value least most }
{
    range(value as u32, least, most)
}

// The options with their ranges, in document 01's order.
#[tactic(auto, unfolding(crate::specs::Ranges::ranges))]
fn ranges(o: Options) -> [Bounds; 16]
    ensures { result ≡ ranges_of o }
{
    [
        small(o.seats, 6, 9),
        small(o.decks, 1, most_decks(o)),
        small(o.first, 1, 2),
        small(o.later, 0, most_later(o)),
        small(o.hands, 2, 4),
        small(o.aces, 0, 1),
        small(o.double, 1, 2),
        small(o.limit, 0, 1),
        small(o.insurance, 1, 2),
        small(o.five, 0, 1),
        small(o.prize, 0, 1),
        small(o.device, 1, 3),
        small(o.decider, 1, 2),
        range(o.cut as u32, least_cut(o), most_cut(o)),
        range(o.smallest, 2, o.largest),
        range(o.largest, o.smallest, 1_000_000),
    ]
}

fn all_within(rs: [Bounds; 16]) -> bool
    ensures { result ≡ all_of is_within rs }
{
    rs.iter().all(|r| within(*r))
}

// Whether a table may open with these options.
#[tactic(auto, unfolding(crate::specs::Ranges::in_range))]
pub fn in_range(o: Options) -> bool
    ensures { result ≡ in_range o }
{
    all_within(ranges(o)) && (o.smallest % 2 == 0 && o.largest % 2 == 0)
}
