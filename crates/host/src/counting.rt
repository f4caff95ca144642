// What an accepted close adds to the tallies: a round for each card whose position staked in it.
ghost use Rattle.std.specs.Prelude.{◌≡◌, true, ◌+◌, ◌≤◌, ◌<◌, ◌/◌, ◌%◌};
ghost use Rattle.call.specs.Refusal.{first};
ghost use Rattle.table.specs.Shape.{Shaped};
ghost use Rattle.close_spec.specs.Close.{close_conditions, close_effect};
ghost use Rattle.host_spec.specs.Cards.{hosted};
ghost use Rattle.host_spec.specs.Broken.{sound_card, sound_cards, most_rounds, most_laid, most_back};
ghost use Rattle.host_spec.specs.Close.{with_round, counted_card, counted_from};
ghost use Rattle.host.specs.Aids.Fits.{TallyFits};

use crate::places::guest_in;
use crate::sound::MOST_ROUNDS;
use host_spec::{GuestCard, Hosted, Tally};
use money::seat_money::{laid, prizes};
use state::seat::{guest_money, guest_of};
use state::shape::table_shape;
use table::Table;

// A round more: what was laid, and what came back of it with the prizes.
fn with_round(tally: Tally, there: u64, back: u64) -> Tally
    requires sound { TallyFits tally }
    requires room { tally.rounds < most_rounds }
    requires small { (there ≤ most_laid) × (back ≤ most_back) }
    ensures { result ≡ with_round tally there back }
{
    Tally {
        rounds: tally.rounds + 1,
        wagered: tally.wagered + there,
        returned: tally.returned + back,
    }
}

// The card of that place after a close from the table t to the table `after`.
fn counted_card(t: Table, after: Table, place: usize, g: GuestCard) -> GuestCard
    requires shape { Shaped t }
    requires accepted { first (close_conditions t) ≡ 0 }
    requires closed { after ≡ close_effect t }
    requires inside { place < 27 }
    requires sound { sound_card t.options place g ≡ true }
    ensures { result ≡ counted_card t after (place / 3) (place % 3) g }
{
    if g.here != 1 {
        return g;
    }
    if MOST_ROUNDS <= g.tally.rounds {
        return g;
    }
    let guest = guest_in(place);
    let s = guest_of(&t, guest);
    if s.money.stake == 0 {
        return g;
    }
    let then = guest_money(&after, guest);
    let back = then.purse - s.money.purse + prizes(t.options, s);
    let mut next = g;
    next.tally = with_round(g.tally, laid(s), back);
    next
}

// The hosted table after an accepted close to the table `after`: all cards, place by place.
pub(crate) fn counted(h: Hosted, after: Table) -> Hosted
    requires accepted { first (close_conditions h.table) ≡ 0 }
    requires closed { after ≡ close_effect h.table }
    requires sound { sound_cards h.table.options h.cards ≡ true }
    ensures { result ≡ hosted after (counted_from h.table after 0 h.cards) }
{
    table_shape(h.table);
    let mut next = h.cards;
    for (k, g) in h.cards.iter().enumerate() {
        next[k] = counted_card(h.table, after, k, *g);
    }
    Hosted {
        table: after,
        cards: next,
    }
}
