// A card arrives at a position, while no round is dealt and no stake lies there. For every hosted table, position and card its outcome is that of host_spec/specs/Arrive.antt.
ghost use Rattle.std.specs.Prelude.{◌≡◌};
ghost use Rattle.answer.specs.Checked.{Checked};
ghost use Rattle.host_spec.specs.Cards.{arrived as arrived_card};
ghost use Rattle.host_spec.specs.Arrive.{arrive_conditions, arrive_effect};
ghost use Rattle.host.specs.Outcome.{host_outcome, host_outcome_in};

use crate::places::find_card;
use crate::sound::host_broken;
use answer::conditions::guest_between_rounds;
use call::At;
use call::guest::Guest;
use call::refusal::{Refusal, first_refusal};
use host_spec::{GuestCard, Hosted, Tally};
use state::seat::guest_money;
use table::whole::Whole;

// A card whose tally starts at 0.
fn arrived(card: u64) -> GuestCard
    ensures { result ≡ arrived_card card }
{
    GuestCard {
        here: 1,
        card,
        tally: Tally {
            rounds: 0,
            wagered: 0,
            returned: 0,
        },
    }
}

// Why an arrival is refused, or its guest: 1 broken, the conditions of every call of a guest, then 28 the position or the card is taken, 9 a stake lies there.
fn check_arrive(h: Hosted, at: At, card: u64) -> Result<Guest, Refusal>
    ensures { Checked (arrive_conditions h at.seat at.position card) at result }
{
    if host_broken(h) {
        return Err(Refusal::Broken);
    }
    let whole = Whole::new(h.table);
    let guest = guest_between_rounds(&whole, at)?;
    let money = guest_money(whole.table(), guest);
    first_refusal(&[
        (Refusal::Taken, h.cards[guest.place()].here == 1),
        (Refusal::Taken, find_card(h.cards, card).is_some()),
        (Refusal::LaidAlready, 0 < money.stake),
    ])
    .and(Ok(guest))
}

pub fn arrive(h: Hosted, at: At, card: u64) -> Result<Hosted, Refusal>
    ensures { host_outcome_in h result ≡ host_outcome (arrive_conditions h at.seat at.position card) (arrive_effect h at.seat at.position card) h }
{
    let guest = check_arrive(h, at, card)?;
    let mut next = h;
    next.cards[guest.place()] = arrived(card);
    Ok(next)
}
