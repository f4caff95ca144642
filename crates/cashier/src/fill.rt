// fill: the tray up (document 01, "The seventeen calls"). For every whole table and amount its outcome is that of cashier_spec/specs/Fill.antt.
ghost use Rattle.std.specs.Prelude.{◌≡◌};
ghost use Rattle.call.specs.Refusal.{number_in, first};
ghost use Rattle.answer.specs.Outcome.{outcome, outcome_in};
ghost use Rattle.cashier_spec.specs.Fill.{fill_conditions, fill_effect};

use crate::tray::with_tray;
use call::refusal::{Refusal, first_refusal};
use money::most_money::past_most_money;
use money::sums::table_sums;
use state::round::is_dealt;
use table::Table;
use table::whole::Whole;

// Why a fill is refused: the conditions of its list, from the front.
// `credit` reads alike and asks another thing of the amount: one function of both would take a code that says which, and the definitions of both.
fn check_fill(t: &Whole, n: u64) -> Result<(), Refusal>
    ensures { number_in result ≡ first (fill_conditions t.now n) }
{
    let t = t.table();
    first_refusal(&[
        (Refusal::RoundDealt, is_dealt(*t)),
        (Refusal::WrongAmount, n == 0),
        (
            Refusal::WrongAmount,
            past_most_money(t.tray, table_sums(*t), n),
        ),
    ])
}

pub fn fill(t: &Whole, n: u64) -> Result<Table, Refusal>
    ensures { outcome_in t.now result ≡ outcome (fill_conditions t.now n) (fill_effect t.now n) t.now }
{
    check_fill(t, n)?;
    let t = t.table();
    Ok(with_tray(*t, t.tray + n))
}
