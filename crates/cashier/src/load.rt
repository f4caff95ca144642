// load: a new order for the shoe (document 01, "The seventeen calls"). For every whole table and order its outcome is that of cashier_spec/specs/Load.antt; the
// lent order is only read.
ghost use Rattle.std.specs.Prelude.{◌≡◌};
ghost use Rattle.call.specs.Refusal.{number_in, first};
ghost use Rattle.table.specs.Table.{with_shoe};
ghost use Rattle.answer.specs.Outcome.{outcome, outcome_in};
ghost use Rattle.cashier_spec.specs.Load.{load_conditions, load_effect};

use call::refusal::{Refusal, first_refusal};
use card_count::valid_order::valid_order;
use shoe::new_shoe;
use state::round::is_dealt;
use table::whole::Whole;
use table::{Shoe, Table};

// The table with another shoe.
fn with_shoe(t: Table, shoe: Shoe) -> Table
    ensures { result ≡ with_shoe t shoe }
{
    let mut next = t;
    next.shoe = shoe;
    next
}

// Why a load is refused: the conditions of its list, from the front.
fn check_load(t: &Whole, order: &[u8]) -> Result<(), Refusal>
    ensures { number_in result ≡ first (load_conditions t.now order.now) }
{
    let t = t.table();
    first_refusal(&[
        (Refusal::WrongOrder, !valid_order(t.options.decks, order)),
        (Refusal::RoundDealt, is_dealt(*t)),
    ])
}

pub fn load(t: &Whole, order: &[u8]) -> Result<Table, Refusal>
    ensures { outcome_in t.now result ≡ outcome (load_conditions t.now order.now) (load_effect t.now order.now) t.now }
{
    check_load(t, order)?;
    let t = t.table();
    Ok(with_shoe(*t, new_shoe(order, t.shoe.begun)))
}
