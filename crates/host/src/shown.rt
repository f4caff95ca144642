// What a display reads of the card at a position. A broken hosted table, a seat beyond the option and a position that there is not show nothing.
ghost use Rattle.std.specs.Prelude.{◌≡◌, ◌≤◌};
ghost use Rattle.host.specs.Shown.{card_or_none, card_values, card_shown};

use crate::places::no_card;
use crate::sound::host_broken;
use call::At;
use call::guest::Guest;
use host_spec::{GuestCard, Hosted};

// Whether a card sits there, which, and its tally: rounds closed, money wagered, net with prizes. A flag beside
// zeros and no Option: the definition gives a display every field of an empty position too.
#[derive(Clone, Copy)]
pub struct CardShown {
    pub here: bool,
    pub card: u64,
    pub rounds: u32,
    pub wagered: u64,
    pub net: i64,
}

// The card in that position of the seat, or none where the hosted table is broken or has no such seat or position. Its sums are far below 2^63.
fn card_or_none(h: Hosted, seat: u8, position: u8) -> GuestCard
    ensures same { result ≡ card_or_none h seat position }
    ensures small { (result.tally.wagered ≤ 1000000000000000) × (result.tally.returned ≤ 1000000000000000) }
{
    if host_broken(h) {
        return no_card();
    }
    if h.table.options.seats <= seat {
        return no_card();
    }
    if 3 <= position {
        return no_card();
    }
    let guest = Guest::new(At { seat, position });
    h.cards[guest.place()]
}

fn card_values(g: GuestCard) -> CardShown
    requires { (g.tally.wagered ≤ 1000000000000000) × (g.tally.returned ≤ 1000000000000000) }
    ensures { result ≡ card_values g }
{
    CardShown {
        here: g.here == 1,
        card: g.card,
        rounds: g.tally.rounds,
        wagered: g.tally.wagered,
        net: (g.tally.returned as i64) - (g.tally.wagered as i64),
    }
}

pub fn shown_card(h: Hosted, seat: u8, position: u8) -> CardShown
    ensures { result ≡ card_shown h seat position }
{
    card_values(card_or_none(h, seat, position))
}
