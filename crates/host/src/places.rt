// The 27 places of guest cards: an empty one, one taken out, and where a card sits.
ghost use Rattle.std.specs.Prelude.{◌≡◌, ◌<◌, ◌/◌, ◌%◌, position};
ghost use Rattle.host_spec.specs.Cards.{no_card, holds as holds_card};

use call::At;
use call::guest::Guest;
use host_spec::{GuestCard, Tally};

// A position without a card.
pub(crate) fn no_card() -> GuestCard
    ensures { result ≡ no_card }
{
    GuestCard {
        here: 0,
        card: 0,
        tally: Tally {
            rounds: 0,
            wagered: 0,
            returned: 0,
        },
    }
}

// The guest whose place it is.
pub(crate) fn guest_in(place: usize) -> Guest
    requires { place < 27 }
    ensures seat { result.seat ≡ place / 3 }
    ensures position { result.position ≡ place % 3 }
{
    Guest::new(At {
        seat: (place / 3) as u8,
        position: (place % 3) as u8,
    })
}

// That card sits there.
pub(crate) fn holds(card: u64, g: GuestCard) -> bool
    ensures { result ≡ holds_card card g }
{
    g.here == 1 && g.card == card
}

// The first place where that card sits.
pub(crate) fn find_card(cards: [GuestCard; 27], card: u64) -> Option<usize>
    ensures { result ≡ position (holds_card card) cards }
{
    cards.iter().position(|g| holds(card, *g))
}
