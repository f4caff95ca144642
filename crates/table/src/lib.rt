// The table: options, tray, nine seats, the bank's hand and the shoe. It holds no enum and no bool, and nothing that can be derived.
#![tactic(auto)]

pub mod whole;

use cards::hand::Hand;
use options::Options;
use rules::seat_hand::SeatHands;

// A guest's money: the purse, and on the layout the stake, the insurance and the side stakes by kind, 0 where there is none.
#[repr(C)]
#[derive(Clone, Copy)]
pub struct Money {
    pub purse: u64,
    pub stake: u32,
    pub insurance: u32,
    pub sides: [u32; 4],
}

// A seat: the money of the seated guest and that of two others who bet on it, its hands, and copies of its first two cards and of the first card that its first
// split drew: side stakes are paid by them.
#[repr(C)]
#[derive(Clone, Copy)]
pub struct Seat {
    pub money: Money,
    pub others: [Money; 2],
    pub hands: SeatHands,
    pub first: [u8; 3],
}

// The shoe: the loaded order and how much of it is drawn; the discards and how many there are; 1 once a deal was accepted since the opening, else 0, which the
// machine's burn asks.
// Two arrays with their numbers and no Vec: C reads a table as it lies, and a step takes no memory.
#[repr(C)]
#[derive(Clone, Copy)]
pub struct Shoe {
    pub order: [u8; 416],
    pub drawn: usize,
    pub discards: [u8; 416],
    pub discarded: usize,
    pub begun: u8,
}

#[repr(C)]
#[derive(Clone, Copy)]
pub struct Table {
    pub options: Options,
    pub tray: u64,
    pub seats: [Seat; 9],
    pub bank: Hand,
    pub shoe: Shoe,
}
