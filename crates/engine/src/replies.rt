// What a call leaves: what it changes is put into the table where it lies, and its answer, from what it gives back: its table or what it has moved, or why it is refused, and the scores that
// it shows.
ghost use Rattle.std.specs.Prelude.{◌≡◌, cond, [], eqb, length};
ghost use Rattle.call.specs.Refusal.{first};
ghost use Rattle.answer.specs.Moved.{moved_outcome};
ghost use Rattle.answer.specs.Outcome.{outcome, outcome_in};
ghost use Rattle.answer.specs.Reply.{reply_of, scored_reply, plain_reply};
ghost use Rattle.answer.specs.Scores.{scores_of};
ghost use Rattle.deal_spec.specs.Deal.{deal_conditions, deal_effect};
ghost use Rattle.engine.specs.Scores.{deal_scores};
ghost use Rattle.engine.specs.Aids.MovedScores.{shown_by, moved_card, moved_split};

use crate::scores::{card_scores, deal_scores, split_scores};
use answer::moved::{Moved, put_moved};
use answer::reply::{Answer, scored_answer};
use answer::scores::{Scores, no_scores};
use call::At;
use call::refusal::Refusal;
use deal::deal;
use table::Table;
use table::whole::Whole;

// A call that may change any part of the table, and shows nothing.
pub(crate) fn changed(next: &mut Table, r: Result<Table, Refusal>) -> Answer
    ensures { reply_of result next.new ≡ plain_reply (outcome_in next.old r) }
{
    match r {
        Ok(table) => {
            *next = table;
            scored_answer(0, no_scores())
        }
        Err(why) => scored_answer(why.number(), no_scores()),
    }
}

// A call of one seat that shows these scores.
fn moved_showing(next: &mut Table, at: At, r: Result<Moved, Refusal>, scores: Scores) -> Answer
    ensures { reply_of result next.new ≡ scored_reply (moved_outcome next.old at.seat r) scores }
{
    match r {
        Ok(m) => {
            put_moved(next, at.seat, m);
            scored_answer(0, scores)
        }
        Err(why) => scored_answer(why.number(), scores),
    }
}

// A call of one seat that shows nothing.
pub(crate) fn moved(next: &mut Table, at: At, r: Result<Moved, Refusal>) -> Answer
    ensures { reply_of result next.new ≡ plain_reply (moved_outcome next.old at.seat r) }
{
    moved_showing(next, at, r, no_scores())
}

// A draw or a double: the score of the hand that took the card.
pub(crate) fn card_moved(next: &mut Table, at: At, r: Result<Moved, Refusal>) -> Answer
    ensures made { reply_of result next.new ≡ scored_reply (moved_outcome next.old at.seat r) result.scores }
    ensures told { scores_of result.scores ≡ shown_by moved_card r }
{
    moved_showing(next, at, r, card_scores(r))
}

// A split: the parent's score, then the new hand's.
pub(crate) fn split_moved(next: &mut Table, at: At, r: Result<Moved, Refusal>) -> Answer
    ensures made { reply_of result next.new ≡ scored_reply (moved_outcome next.old at.seat r) result.scores }
    ensures told { scores_of result.scores ≡ shown_by moved_split r }
{
    moved_showing(next, at, r, split_scores(r))
}

// A deal, and the scores of the hands that it leaves.
#[inline(never)]
pub(crate) fn dealt(t: &Whole, next: &mut Table) -> Answer
    ensures scores { scores_of result.scores ≡ cond (eqb (first (deal_conditions t.now)) 0) (deal_scores (deal_effect t.now)) [] }
    ensures made { reply_of result next.new ≡ scored_reply (outcome (deal_conditions t.now) (deal_effect t.now) next.old) result.scores }
{
    match deal(t) {
        Ok(table) => {
            *next = table;
            scored_answer(0, deal_scores(table))
        }
        Err(why) => scored_answer(why.number(), no_scores()),
    }
}
