// credit: the tray down (document 01, "The seventeen calls"). For every whole table and amount its outcome is that of cashier_spec/specs/Credit.antt.
ghost use Rattle.std.specs.Prelude.{◌≡◌};
ghost use Rattle.call.specs.Refusal.{number_in, first};
ghost use Rattle.answer.specs.Outcome.{outcome, outcome_in};
ghost use Rattle.cashier_spec.specs.Credit.{credit_conditions, credit_effect};

use crate::tray::with_tray;
use call::refusal::{Refusal, first_refusal};
use state::round::is_dealt;
use table::Table;
use table::whole::Whole;

// Why a credit is refused: the conditions of its list, from the front.
fn check_credit(t: &Whole, n: u64) -> Result<(), Refusal>
    ensures { number_in result ≡ first (credit_conditions t.now n) }
{
    let t = t.table();
    first_refusal(&[
        (Refusal::RoundDealt, is_dealt(*t)),
        (Refusal::WrongAmount, n == 0),
        (Refusal::ShortTray, t.tray < n),
    ])
}

pub fn credit(t: &Whole, n: u64) -> Result<Table, Refusal>
    ensures { outcome_in t.now result ≡ outcome (credit_conditions t.now n) (credit_effect t.now n) t.now }
{
    check_credit(t, n)?;
    let t = t.table();
    Ok(with_tray(*t, t.tray - n))
}
