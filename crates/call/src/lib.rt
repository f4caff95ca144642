// The seventeen calls of document 01 and the side stake of request 2.6 as one enum, with seat and amount as data. A load carries no order: it is lent beside the call.
#![tactic(auto)]

pub mod guest;
pub mod pay_line;
pub mod refusal;

// The seat that a call names, and the position of the guest there: 0 the seated guest, 1 and 2 the others (request 2.8).
#[derive(Clone, Copy)]
pub struct At {
    pub seat: u8,
    pub position: u8,
}

// In the order of the session file's kinds, from 1; a side stake has its own kind, 1 to 4, as data, and is the session file's kind 17 + that (request 2.6).
#[derive(Clone, Copy)]
pub enum Call {
    Fill(u64),
    Credit(u64),
    Buy(At, u64),
    Cash(At, u64),
    Stake(At, u64),
    Deal,
    Insure(At, u64),
    Stand(At),
    Draw(At),
    Double(At),
    Split(At),
    Surrender(At),
    Even(At),
    Five(At),
    Close,
    Void,
    Load,
    Side(At, u8, u64),
}
