// The scores that a step shows beside those of close (request 2.1): of the hands that lie on the table after an accepted deal, and in the seat that an accepted
// draw, double or split leaves. Every seat and place is taken: where there is no hand, the score is that of no card.
ghost use Rattle.std.specs.Prelude.{◌≡◌, suc};
ghost use Rattle.answer.specs.Scores.{scores_of};
ghost use Rattle.engine.specs.Scores.{place_score, deal_scores};
ghost use Rattle.engine.specs.Aids.MovedScores.{shown_by, moved_card, moved_split};

use answer::moved::Moved;
use answer::scores::{Scores, no_scores, with_score};
use call::refusal::Refusal;
use cards::hand::empty_hand;
use cards::score::{HandScore, hand_score};
use table::{Seat, Table};

// The score of the hand in a place of a seat.
fn seat_score(s: Seat, place: usize) -> HandScore
    ensures { result ≡ place_score s place }
{
    if 4 <= place {
        return hand_score(empty_hand());
    }
    hand_score(s.hands.places[place].hand)
}

// One for each staked seat, from the lowest.
pub(crate) fn deal_scores(after: Table) -> Scores
    ensures { scores_of result ≡ deal_scores after }
{
    let mut all = no_scores();
    for s in &after.seats {
        if 0 < s.money.stake {
            all = with_score(all, seat_score(*s, 0));
        }
    }
    all
}

// That of the place behind p.
fn score_behind(s: Seat, p: usize) -> HandScore
    ensures { result ≡ place_score s (suc p) }
{
    if 4 <= p {
        return hand_score(empty_hand());
    }
    seat_score(s, p + 1)
}

// Of a draw or a double the one of the hand that took a card; a refused call shows none.
pub(crate) fn card_scores(r: Result<Moved, Refusal>) -> Scores
    ensures { scores_of result ≡ shown_by moved_card r }
{
    match r {
        Ok(m) => with_score(no_scores(), seat_score(m.seat, m.hand)),
        Err(_) => no_scores(),
    }
}

// Of a split the parent's, then the new hand's.
pub(crate) fn split_scores(r: Result<Moved, Refusal>) -> Scores
    ensures { scores_of result ≡ shown_by moved_split r }
{
    match r {
        Ok(m) => {
            let parent = seat_score(m.seat, m.hand);
            let new = score_behind(m.seat, m.hand);
            with_score(with_score(no_scores(), parent), new)
        }
        Err(_) => no_scores(),
    }
}
