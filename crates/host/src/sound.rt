// Whether guest cards are damaged, number 1 of every call (docs/BROKEN.md). Any value is taken: no product wraps.
ghost use Rattle.std.specs.Prelude.{◌≡◌, not, ◌&&◌, get_or};
ghost use Rattle.lists.specs.Below.{all_below};
ghost use Rattle.lists.specs.Tests.{any_of};
ghost use Rattle.host_spec.specs.Cards.{no_card, is_here, holds as holds_card};
ghost use Rattle.host_spec.specs.Broken.{sound_tally, is_empty, sound_card, each_once, sound_cards, host_broken};

use crate::places::holds;
use broken::broken;
use host_spec::{GuestCard, Hosted, Tally};
use options::Options;

// A tally stands still after so many rounds.
pub(crate) const MOST_ROUNDS: u32 = 1000000;

// What a position can lay in a round, and what can come back to it.
const MOST_LAID: u64 = 9400000;

const MOST_BACK: u64 = 542700000;

// The rounds are tested first, so that the products do not wrap.
fn tally_sound(tally: Tally) -> bool
    ensures { result ≡ sound_tally tally }
{
    if MOST_ROUNDS < tally.rounds {
        return false;
    }
    let rounds = tally.rounds as u64;
    tally.wagered <= MOST_LAID * rounds && tally.returned <= MOST_BACK * rounds
}

// A position without a card holds nothing.
fn empty_place(g: GuestCard) -> bool
    ensures { result ≡ is_empty g }
{
    let tally = g.tally;
    g.here == 0
        && (g.card == 0 && (tally.rounds == 0 && (tally.wagered == 0 && tally.returned == 0)))
}

// A card sits at a seat of the option, with a tally that could be.
fn card_sound(o: Options, place: usize, g: GuestCard) -> bool
    ensures { result ≡ sound_card o place g }
{
    empty_place(g) || (g.here == 1 && (place / 3 < (o.seats as usize) && tally_sound(g.tally)))
}

fn each_sound(o: Options, cards: [GuestCard; 27]) -> bool
    ensures { result ≡ all_below (λ k. sound_card o k (get_or cards k no_card)) 27 }
{
    for (k, g) in cards.iter().enumerate() {
        if !card_sound(o, k, *g) {
            return false;
        }
    }
    true
}

// A card sits there and at the other position too.
fn same_card(f: GuestCard, g: GuestCard) -> bool
    ensures { result ≡ (is_here f && holds_card f.card g) }
{
    f.here == 1 && holds(f.card, g)
}

// The card of that place sits at none before it. A place without a card is passed over at once.
fn new_behind(before: &[GuestCard], g: GuestCard) -> bool
    ensures { result ≡ not (any_of (λ f. is_here f && holds_card f.card g) before.now) }
{
    g.here != 1 || !before.iter().any(|f| same_card(*f, g))
}

fn each_new(cards: [GuestCard; 27]) -> bool
    ensures { result ≡ each_once cards }
{
    for (k, g) in cards.iter().enumerate() {
        if !new_behind(&cards[..k], *g) {
            return false;
        }
    }
    true
}

pub fn cards_sound(o: Options, cards: [GuestCard; 27]) -> bool
    ensures { result ≡ sound_cards o cards }
{
    each_sound(o, cards) && each_new(cards)
}

// Whether table or cards are damaged.
pub fn host_broken(h: Hosted) -> bool
    ensures { result ≡ host_broken h }
{
    broken(&h.table) || !cards_sound(h.table.options, h.cards)
}
