// A card leaves, named by itself alone, while no round is dealt and no stake lies where it sits. For every hosted table and card its outcome is that of host_spec/specs/Leave.antt.
ghost use Rattle.std.specs.Prelude.{◌≡◌, IfOk};
ghost use Rattle.call.specs.Refusal.{number_in, first};
ghost use Rattle.host_spec.specs.Cards.{place_of};
ghost use Rattle.host_spec.specs.Leave.{leave_conditions, leave_effect};
ghost use Rattle.host.specs.Outcome.{host_outcome, host_outcome_in};

use crate::places::{find_card, guest_in, no_card};
use crate::sound::host_broken;
use call::refusal::Refusal;
use host_spec::Hosted;
use state::round::is_dealt;
use state::seat::guest_money;

// Where the card of a leaving sits, or why it is refused: 1 broken, 4 a round is dealt, 29 it is not here, 9 a stake lies there.
fn check_leave(h: Hosted, card: u64) -> Result<usize, Refusal>
    ensures number { number_in result ≡ first (leave_conditions h card) }
    ensures found { IfOk result (λ place. place ≡ place_of h card) }
{
    if host_broken(h) {
        return Err(Refusal::Broken);
    }
    if is_dealt(h.table) {
        return Err(Refusal::RoundDealt);
    }
    let place = find_card(h.cards, card).ok_or(Refusal::NotHere)?;
    if 0 < guest_money(&h.table, guest_in(place)).stake {
        return Err(Refusal::LaidAlready);
    }
    Ok(place)
}

pub fn leave(h: Hosted, card: u64) -> Result<Hosted, Refusal>
    ensures { host_outcome_in h result ≡ host_outcome (leave_conditions h card) (leave_effect h card) h }
{
    let place = check_leave(h, card)?;
    let mut next = h;
    next.cards[place] = no_card();
    Ok(next)
}
