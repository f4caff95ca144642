// The plan of the workload: which call comes next. A session fills the tray and the purses, then plays rounds with seven stakes; a shoe that is
// too short is loaded anew, and a round that cannot be closed is void, as is every tenth.
use call::refusal::Refusal;
use call::{At, Call};
use state::turn::seat_in_turn;
use table::Table;

// What the plan has come to, in the order of a session.
#[derive(Clone, Copy, Debug, PartialEq, Eq)]
pub enum Stage {
    Fill,
    Credit,
    Buy,
    Cash,
    Stake,
    Deal,
    Insure,
    Decide,
    Close,
    Void,
    Load,
    Open,
}

impl Stage {
    fn next(self) -> Self {
        match self {
            Stage::Fill => Stage::Credit,
            Stage::Credit => Stage::Buy,
            Stage::Buy => Stage::Cash,
            Stage::Cash => Stage::Stake,
            Stage::Stake => Stage::Deal,
            Stage::Deal => Stage::Insure,
            Stage::Insure => Stage::Decide,
            Stage::Decide => Stage::Close,
            Stage::Close => Stage::Void,
            Stage::Void => Stage::Load,
            Stage::Load => Stage::Open,
            Stage::Open => Stage::Fill,
        }
    }
}

// Rounds of one session.
const ROUNDS: u8 = 40;

// The stage and the seat it has come to; decks and round of the session; the seat whose turn it is; whether the last decision was refused; a number that
// decides.
#[derive(Clone, Copy)]
pub struct Plan {
    pub stage: Stage,
    pub seat: u8,
    pub decks: u8,
    pub round: u8,
    pub turn: Option<u8>,
    // A fact of the last call: the plan asks for it and not for the number.
    pub refused: bool,
    pub seed: u32,
}

pub fn start() -> Plan {
    Plan {
        stage: Stage::Fill,
        seat: 0,
        decks: 1,
        round: 0,
        turn: None,
        refused: false,
        seed: 1,
    }
}

// A decision for the seat whose turn it is: after a refused one it stands, else the seed decides.
fn decision(p: Plan, at: At) -> Call {
    if p.refused {
        return Call::Stand(at);
    }
    let k = p.seed / 64 % 16;
    match k {
        0..=2 => Call::Split(at),
        3..=4 => Call::Double(at),
        5 => Call::Surrender(at),
        6 => Call::Even(at),
        7 => Call::Five(at),
        8..=12 => Call::Draw(at),
        _ => Call::Stand(at),
    }
}

// Where it is nobody's turn the decision names a seat that there is not.
pub fn chosen(p: Plan) -> Call {
    let at = At {
        seat: p.seat,
        position: 0,
    };
    match p.stage {
        Stage::Fill => Call::Fill(100_000),
        Stage::Credit => Call::Credit(10),
        Stage::Buy => Call::Buy(at, 10_000),
        Stage::Cash => Call::Cash(at, 1),
        Stage::Stake => Call::Stake(at, 20),
        Stage::Deal => Call::Deal,
        Stage::Insure => Call::Insure(at, 10),
        Stage::Close => Call::Close,
        Stage::Void => Call::Void,
        Stage::Load => Call::Load,
        Stage::Decide | Stage::Open => {
            let seat = p.turn.unwrap_or(9);
            decision(p, At { seat, position: 0 })
        }
    }
}

// The next number that decides.
fn stirred(seed: u32) -> u32 {
    ((seed as u64 * 1103515245 + 12345) % 2147483648) as u32
}

// The same stage for the next seat up to the last, then the next stage from seat 0.
fn each_seat(p: Plan, last: u8) -> Plan {
    if p.seat < last {
        Plan {
            seat: p.seat + 1,
            ..p
        }
    } else {
        Plan {
            seat: 0,
            stage: p.stage.next(),
            ..p
        }
    }
}

// 1, 2, 6, 8 decks in turn.
fn next_decks(decks: u8) -> u8 {
    match decks {
        1 => 2,
        2 => 6,
        6 => 8,
        _ => 1,
    }
}

// The next round, or after the last one the next session.
fn round_ended(p: Plan) -> Plan {
    if p.round < ROUNDS {
        Plan {
            seat: 0,
            round: p.round + 1,
            stage: Stage::Cash,
            ..p
        }
    } else {
        Plan {
            seat: 0,
            round: 0,
            stage: Stage::Open,
            decks: next_decks(p.decks),
            ..p
        }
    }
}

// The seat whose turn it is.
fn turn_of(t: &Table) -> Option<u8> {
    match seat_in_turn(t) {
        seat @ 0..9 => Some(seat as u8),
        _ => None,
    }
}

// Once no hand waits the round ends.
fn decided(p: Plan, refused: bool, t: &Table) -> Plan {
    let turn = turn_of(t);
    if turn.is_some() {
        return Plan { turn, refused, ..p };
    }
    let stage = if p.round % 10 == 9 {
        Stage::Void
    } else {
        Stage::Close
    };
    Plan {
        turn,
        refused: false,
        stage,
        ..p
    }
}

// The plan after a call that gave this number.
// The number of an answer, as C reads it.
pub fn after(p: Plan, number: u8, t: Table) -> Plan {
    let q = Plan {
        seed: stirred(p.seed),
        ..p
    };
    match p.stage {
        Stage::Buy | Stage::Stake => each_seat(q, 6),
        Stage::Insure => decided(each_seat(q, 1), false, &t),
        Stage::Deal if number == Refusal::ShortShoe.number() => Plan {
            stage: Stage::Load,
            ..q
        },
        Stage::Deal => Plan {
            stage: Stage::Insure,
            ..q
        },
        Stage::Load => Plan {
            stage: Stage::Deal,
            ..q
        },
        Stage::Decide => decided(q, number != 0, &t),
        Stage::Close if number == Refusal::NoCards.number() => Plan {
            stage: Stage::Void,
            ..q
        },
        Stage::Close | Stage::Void => round_ended(q),
        Stage::Fill | Stage::Credit | Stage::Cash | Stage::Open => each_seat(q, 0),
    }
}
