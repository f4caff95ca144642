// A guest's purse replaced, for the calls that move money between it and the cashier: buy and cash.
ghost use Rattle.std.specs.Prelude.{◌≡◌};
ghost use Rattle.table.specs.Guest.{with_purse};
ghost use Rattle.table.specs.Seat.{with_guest};
ghost use Rattle.table.specs.Table.{seat_at, guest_of};
ghost use Rattle.answer.specs.Moved.{make_moved};

use answer::moved::{Moved, money_moved};
use call::guest::Guest;
use state::seat::guest_money;
use table::{Money, Table};

// Nothing but the guest's purse is moved.
pub(crate) fn purse_moved(t: &Table, g: Guest, purse: u64) -> Moved
    ensures { result ≡ make_moved t.now.tray (with_guest (seat_at t.now g.seat) g.position (with_purse (guest_of t.now g.seat g.position).money purse)) t.now.shoe.drawn 0 }
{
    let money = Money {
        purse,
        ..*guest_money(t, g)
    };
    money_moved(t, g, money)
}
