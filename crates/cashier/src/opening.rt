// The opening: a table with its options and a first order (document 01, "The seventeen calls"). For all options and every order its
// outcome is that of cashier_spec/specs/Opening.antt; the lent order is only read.
ghost use Rattle.std.specs.Prelude.{◌≡◌, replicate};
ghost use Rattle.call.specs.Refusal.{number_in, first};
ghost use Rattle.cards.specs.Hand.{empty_hand};
ghost use Rattle.table.specs.Seat.{empty_seat};
ghost use Rattle.table.specs.declared.Table.{Table};
ghost use Rattle.table.specs.Table.{make_table};
ghost use Rattle.answer.specs.Outcome.{outcome, outcome_in};
ghost use Rattle.cashier_spec.specs.Opening.{open_conditions, open_table, empty_table};

use answer::outcome::{Outcome, outcome_in};
use call::refusal::{Refusal, first_refusal};
use card_count::valid_order::valid_order;
use cards::hand::empty_hand;
use options::{Options, in_range};
use shoe::new_shoe;
use state::empty::{empty_seat, no_options};
use table::{Shoe, Table};

// Nine empty seats, a bank with no card, an empty tray.
fn table_of(o: Options, shoe: Shoe) -> Table
    ensures { result ≡ make_table o 0 (replicate 9 empty_seat) empty_hand shoe }
{
    let seat = empty_seat();
    Table {
        options: o,
        tray: 0,
        seats: [seat; 9],
        bank: empty_hand(),
        shoe,
    }
}

// The empty table, for whoever shows one before a table is open: no options, no cards, no money.
pub fn empty_table() -> Table
    ensures { result ≡ empty_table }
{
    table_of(no_options(), new_shoe(&[0u8; 0], 0))
}

// Why an opening is refused: the conditions of its list, from the front.
fn check_opening(o: Options, order: &[u8]) -> Result<(), Refusal>
    ensures { number_in result ≡ first (open_conditions o order.now) }
{
    first_refusal(&[
        (Refusal::WrongOptions, !in_range(o)),
        (Refusal::WrongOrder, !valid_order(o.decks, order)),
    ])
}

// A table with these options and this order; where it is refused, whatever table there is stays.
pub fn opening(o: Options, order: &[u8]) -> Result<Table, Refusal>
    ensures { (there : Table) → outcome_in there result ≡ outcome (open_conditions o order.now) (open_table o order.now) there }
{
    check_opening(o, order)?;
    Ok(table_of(o, new_shoe(order, 0)))
}

// The same as a number and a table: of a refused opening the empty one.
pub fn opened(o: Options, order: &[u8]) -> Outcome
    ensures { result ≡ outcome (open_conditions o order.now) (open_table o order.now) empty_table }
{
    outcome_in(&empty_table(), opening(o, order))
}
