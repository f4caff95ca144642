// What a step gives back: the answer and the next table beside it. The pay lines of close stand in two arrays that the caller lends; the answer says how
// many there are.
ghost use Rattle.std.specs.Prelude.{◌≡◌};
ghost use Rattle.answer.specs.Reply.{scored_answer, plain_reply};

use crate::outcome::Outcome;
use crate::scores::{Scores, no_scores};
use cards::hand::{Hand, empty_hand};
use table::Table;

// The call's number, the bank's cards, the number of pay lines and the scores; only an accepted close has cards and lines.
#[repr(C)]
#[derive(Clone, Copy)]
pub struct Answer {
    // A number and no Result, and a count beside the lent arrays: C reads both.
    pub number: u8,
    pub bank: Hand,
    pub lines: usize,
    pub scores: Scores,
}

#[repr(C)]
#[derive(Clone, Copy)]
pub struct Reply {
    pub answer: Answer,
    pub table: Table,
}

// The answer of a call that shows no more than these scores.
pub fn scored_answer(number: u8, scores: Scores) -> Answer
    ensures { result ≡ scored_answer number scores }
{
    Answer {
        number,
        bank: empty_hand(),
        lines: 0,
        scores,
    }
}

// The reply of a call that shows nothing.
pub fn plain_reply(o: Outcome) -> Reply
    ensures { result ≡ plain_reply o }
{
    Reply {
        answer: scored_answer(o.number, no_scores()),
        table: o.table,
    }
}
