// The round: whether it is dealt, its up card, and how many cards are left for it.
ghost use Rattle.std.specs.Prelude.{◌≡◌};
ghost use Rattle.table.specs.Table.{is_dealt, up as up_card, cards_left};

use table::Table;

// A round is dealt while the bank has a card.
pub fn is_dealt(t: Table) -> bool
    ensures { result ≡ is_dealt t }
{
    0 < t.bank.count
}

// The bank's first card, or 0 where it has none.
pub fn up(t: Table) -> u8
    ensures { result ≡ up_card t }
{
    if t.bank.count == 0 {
        0
    } else {
        t.bank.cards[0]
    }
}

// The cards of all decks that are not drawn, or 0 where a damaged count says that more are drawn.
pub fn cards_left(t: Table) -> usize
    ensures { result ≡ cards_left t }
{
    (52 * (t.options.decks as usize)).saturating_sub(t.shoe.drawn)
}
