// The calls of the script: each row is one step, and a line shows its answer and the table after it.
use crate::lines;
use answer::reply::Answer;
use call::{At, Call};
use stage::Stage;
use stage::calls::{call_name, call_of};
use stage::row::Row;
use std::io;
use std::io::Write;

// What a row played: the name of the call, and its answer.
#[derive(Clone, Copy)]
pub(crate) struct Called {
    pub(crate) name: &'static [u8],
    pub(crate) answer: Answer,
}

// As many draws of a seat as the amount says, at least one and at most twenty; the answer of the last.
fn draw(stage: &mut Stage, at: At, times: u64) -> Answer {
    let mut answer = stage.play(Call::Draw(at));
    // So many draws: nothing is gone through.
    for _ in 1..times.min(20) {
        answer = stage.play(Call::Draw(at));
    }
    answer
}

// The shoe run down by one deal: every seat below the number buys the amount and stakes it, the round is dealt and void, and all take it home. The answer is the deal's.
fn run_down(stage: &mut Stage, seats: u8, amount: u64) -> Answer {
    // The seats' numbers are what is called, here and below.
    for seat in 0..seats {
        let at = At { seat, position: 0 };
        stage.play(Call::Buy(at, amount));
        stage.play(Call::Stake(at, amount));
    }
    let dealt = stage.play(Call::Deal);
    stage.play(Call::Void);
    for seat in 0..seats {
        stage.play(Call::Cash(At { seat, position: 0 }, amount));
    }
    dealt
}

// What a row plays.
fn played(stage: &mut Stage, row: Row<'_>) -> Called {
    let at = row.at();
    let amount = row.amount();
    match row.letter() {
        b'm' => Called {
            name: b"draw",
            answer: draw(stage, at, amount),
        },
        b'w' => Called {
            name: b"down",
            answer: run_down(stage, at.seat, amount),
        },
        letter => {
            let call = call_of(letter, at, amount);
            Called {
                name: call_name(call),
                answer: stage.play(call),
            }
        }
    }
}

// One row, with its line.
pub(crate) fn call<W: Write>(out: &mut W, stage: &mut Stage, row: Row<'_>) -> io::Result<()> {
    let called = played(stage, row);
    stage.aloud = called.answer.scores;
    lines::called(out, &called, stage, row.words)
}
