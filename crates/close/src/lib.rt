// close: the bank's cards are drawn, all is paid and all cards become discards (document 01, "The seventeen calls" and "Payment"). Beside it stands
// `void`, which ends a round too; the other modules are their parts, and only these two calls are public.
#![tactic(auto)]

mod bank_draw;
mod closing;
mod pay_lines;
mod paying;
mod seats;
pub mod void;

ghost use Rattle.std.specs.Prelude.{◌≡◌, cond, eqb};
ghost use Rattle.call.specs.Refusal.{number_in, first};
ghost use Rattle.payment.specs.Bank.{must_draw};
ghost use Rattle.close_spec.specs.BankDraw.{bank_at_close};
ghost use Rattle.close_spec.specs.Close.{close_conditions, close_effect, close_shown};
ghost use Rattle.answer.specs.Reply.{reply_by, given_by, given_of, reply_of};
ghost use Rattle.close.specs.Settled.{closed_reply};

use crate::bank_draw::bank_at_close;
use crate::closing::Closing;
use answer::reply::{Answer, scored_answer};
use answer::scores::{Scores, no_scores};
use call::pay_line::LINES;
use call::refusal::{Refusal, first_refusal};
use cards::hand::Hand;
use payment::bank::must_draw;
use state::round::is_dealt;
use state::turn::seat_in_turn;
use table::Table;
use table::whole::Whole;

// The refusals that do not ask for the bank's cards: 5, 7.
fn check_early(t: &Whole) -> Result<(), Refusal>
    ensures { first (close_conditions t.now) ≡ cond (eqb (number_in result) 0) (cond (must_draw (bank_at_close t.now)) 18 0) (number_in result) }
{
    let t = t.table();
    first_refusal(&[
        (Refusal::NoRound, !is_dealt(*t)),
        (Refusal::HandWaits, seat_in_turn(t) < 9),
    ])
}

// An accepted close: its bank's cards and their score, the number of its lines, and its table.
#[derive(Clone, Copy)]
pub struct Settled {
    pub bank: Hand,
    pub scores: Scores,
    // A number beside the lent arrays and no Vec: C lends them and reads an answer, and a step takes no memory.
    pub lines: usize,
    pub table: Table,
}

pub fn close(
    t: &Whole,
    names: &mut [u32; LINES],
    nets: &mut [i64; LINES],
) -> Result<Settled, Refusal>
    ensures { given_of (closed_reply t.now result) names.new nets.new ≡ given_by (reply_by (close_conditions t.now) (close_shown t.now) (close_effect t.now) t.now) names.old nets.old }
{
    check_early(t)?;
    let bank = bank_at_close(*t.table());
    if must_draw(bank) {
        return Err(Refusal::NoCards);
    }
    Ok(Closing::new(t, bank).settle(names, nets))
}

// The answer of a close on the table t, and its table put in the place of that.
pub fn closed_answer(t: &mut Table, r: Result<Settled, Refusal>) -> Answer
    ensures { reply_of result t.new ≡ closed_reply t.old r }
{
    match r {
        Ok(s) => {
            *t = s.table;
            Answer {
                number: 0,
                bank: s.bank,
                lines: s.lines,
                scores: s.scores,
            }
        }
        Err(why) => scored_answer(why.number(), no_scores()),
    }
}
