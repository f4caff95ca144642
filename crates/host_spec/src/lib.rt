// Guests who come and go (request 2.13): the cards of guests at the positions of a table, each with its tally, beside the table. There is no code here.
#![tactic(auto)]

use call::{At, Call};
use table::Table;

// What a host keeps for a card since it arrived: rounds closed, money wagered, and money that came back, prizes among it; the net is the difference.
#[derive(Clone, Copy)]
pub struct Tally {
    pub rounds: u32,
    pub wagered: u64,
    pub returned: u64,
}

// A position: 1 where a card sits there, else 0; the card, any number; its tally. A byte: any may be handed over, and
// the cards are sound only with these two.
#[derive(Clone, Copy)]
pub struct GuestCard {
    pub here: u8,
    pub card: u64,
    pub tally: Tally,
}

// A table with the cards of its 27 positions, by seat and position. The engine's table knows nothing of them.
#[derive(Clone, Copy)]
pub struct Hosted {
    pub table: Table,
    pub cards: [GuestCard; 27],
}

// A call of the table, or a card that arrives at a position, or one that leaves, named by itself alone.
#[derive(Clone, Copy)]
pub enum HostCall {
    Play(Call),
    Arrive(At, u64),
    Leave(u64),
}
