// What a display reads of the whole table, and whose turn it is. A broken table shows nothing.
#![tactic(auto)]

pub mod hand;
pub mod seat;

ghost use Rattle.std.specs.Prelude.{◌≡◌};
ghost use Rattle.display.specs.Table.{no_table_shown, bank_shown, table_shown, nobodys_turn, turn_shown};

use broken::broken;
use cards::hand::{Hand, empty_hand, with_card};
use money::sums::table_sums;
use options::Options;
use state::empty::no_options;
use state::round::{cards_left, is_dealt, up};
use state::seat::decider;
use state::turn::{place_in_turn, seat_in_turn};
use table::Table;

// The options; the tray, all layout and all purses; how many cards are left, how many are discards, and of the bank the up card.
#[repr(C)]
#[derive(Clone, Copy)]
pub struct TableShown {
    pub options: Options,
    pub tray: u64,
    pub layout: u64,
    pub purses: u64,
    pub left: usize,
    pub discards: usize,
    pub bank: Hand,
}

// The seat and place whose turn it is, and the position of the guest who decides (request 2.8); all 0 where it is nobody's. A flag and no Option: C reads it.
#[repr(C)]
#[derive(Clone, Copy)]
pub struct TurnShown {
    pub somebody: bool,
    pub seat: usize,
    pub place: usize,
    pub position: u8,
}

fn no_table() -> TableShown
    ensures { result ≡ no_table_shown }
{
    TableShown {
        options: no_options(),
        tray: 0,
        layout: 0,
        purses: 0,
        left: 0,
        discards: 0,
        bank: empty_hand(),
    }
}

// The up card, once a round is dealt: the bank's second card, where it has one before close, lies face down.
fn shown_bank(t: Table) -> Hand
    ensures { result ≡ bank_shown t }
{
    if is_dealt(t) {
        return with_card(empty_hand(), up(t));
    }
    empty_hand()
}

pub fn shown_table(t: Table) -> TableShown
    ensures { result ≡ table_shown t }
{
    if broken(&t) {
        return no_table();
    }
    let sums = table_sums(t);
    TableShown {
        options: t.options,
        tray: t.tray,
        layout: sums.laid,
        purses: sums.purses,
        left: cards_left(t),
        discards: t.shoe.discarded,
        bank: shown_bank(t),
    }
}

fn nobody() -> TurnShown
    ensures { result ≡ nobodys_turn }
{
    TurnShown {
        somebody: false,
        seat: 0,
        place: 0,
        position: 0,
    }
}

pub fn shown_turn(t: Table) -> TurnShown
    ensures { result ≡ turn_shown t }
{
    if broken(&t) {
        return nobody();
    }
    let seat = seat_in_turn(&t);
    if 9 <= seat {
        return nobody();
    }
    TurnShown {
        somebody: true,
        seat,
        place: place_in_turn(t),
        position: decider(t.options, t.seats[seat]),
    }
}
