// stand: the hand whose turn it is ends (document 01, "The seventeen calls", the guest; article 6 2)). Every waiting hand may stand, so 13 is never given.
ghost use Rattle.std.specs.Prelude.{◌≡◌};
ghost use Rattle.answer.specs.Moved.{moved_outcome};
ghost use Rattle.answer.specs.Outcome.{outcome};
ghost use Rattle.decisions_spec.specs.Stand.{stand_conditions, stand_effect};

use crate::end::ended;
use crate::turn::hand_in_turn;
use answer::moved::Moved;
use call::At;
use call::refusal::Refusal;
use rules::seat_hand::BY_STAND;
use table::whole::Whole;

pub fn stand(t: &Whole, at: At) -> Result<Moved, Refusal>
    ensures { moved_outcome t.now at.seat result ≡ outcome (stand_conditions t.now at.seat at.position) (stand_effect t.now at.seat) t.now }
{
    let turn = hand_in_turn(t, at)?;
    Ok(ended(t.table(), turn, BY_STAND))
}
