// What displays read: of the table, of the turn, of a guest at a seat, of a hand, and the dealer's screen.
ghost use Rattle.std.specs.Prelude.{◌≡◌};
ghost use Rattle.display.specs.Table.{table_shown, turn_shown};
ghost use Rattle.display.specs.Seat.{seat_shown};
ghost use Rattle.display.specs.Hand.{hand_shown};
ghost use Rattle.dealer_screen.specs.Screen.{screen_of};

use dealer_screen::Screen;
use display::hand::HandShown;
use display::seat::SeatShown;
use display::{TableShown, TurnShown};
use table::Table;

// Options, money and cards of the whole table.
#[unsafe(no_mangle)]
pub extern "C" fn discgauze_shown_table(table: Table) -> TableShown
    ensures { result ≡ table_shown table }
{
    discgauze::shown::discgauze_shown_table(table)
}

// Whose turn it is, and who decides.
#[unsafe(no_mangle)]
pub extern "C" fn discgauze_shown_turn(table: Table) -> TurnShown
    ensures { result ≡ turn_shown table }
{
    discgauze::shown::discgauze_shown_turn(table)
}

// The guest in a position of a seat.
#[unsafe(no_mangle)]
pub extern "C" fn discgauze_shown_seat(table: Table, seat: u8, position: u8) -> SeatShown
    ensures { result ≡ seat_shown table seat position }
{
    discgauze::shown::discgauze_shown_seat(table, seat, position)
}

// The hand in a place of a seat, with that guest's wager.
#[unsafe(no_mangle)]
pub extern "C" fn discgauze_shown_hand(
    table: Table,
    seat: u8,
    position: u8,
    place: usize,
) -> HandShown
    ensures { result ≡ hand_shown table seat position place }
{
    discgauze::shown::discgauze_shown_hand(table, seat, position, place)
}

// The dealer's screen.
#[unsafe(no_mangle)]
pub extern "C" fn discgauze_shown_screen(table: Table) -> Screen
    ensures { result ≡ screen_of table }
{
    discgauze::shown::discgauze_shown_screen(table)
}
