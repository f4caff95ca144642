// cash: a guest's purse down (document 01, "The seventeen calls"; request 2.8). For every whole table, guest and amount its outcome is that of
// cashier_spec/specs/Cash.antt.
ghost use Rattle.std.specs.Prelude.{◌≡◌};
ghost use Rattle.answer.specs.Checked.{Checked};
ghost use Rattle.answer.specs.Moved.{moved_outcome};
ghost use Rattle.answer.specs.Outcome.{outcome};
ghost use Rattle.cashier_spec.specs.Cash.{cash_conditions, cash_effect};

use crate::purse::purse_moved;
use answer::conditions::guest_between_rounds;
use answer::moved::Moved;
use call::At;
use call::guest::Guest;
use call::refusal::{Refusal, first_refusal};
use state::seat::guest_money;
use table::whole::Whole;

// Why a cash is refused, or its guest: what every call of a guest asks first, then the rest of its list.
fn check_cash(t: &Whole, at: At, n: u64) -> Result<Guest, Refusal>
    ensures { Checked (cash_conditions t.now at.seat at.position n) at result }
{
    let guest = guest_between_rounds(t, at)?;
    let money = guest_money(t.table(), guest);
    first_refusal(&[
        (Refusal::WrongAmount, n == 0),
        (Refusal::ShortPurse, money.purse < n),
    ])
    .and(Ok(guest))
}

pub fn cash(t: &Whole, at: At, n: u64) -> Result<Moved, Refusal>
    ensures { moved_outcome t.now at.seat result ≡ outcome (cash_conditions t.now at.seat at.position n) (cash_effect t.now at.seat at.position n) t.now }
{
    let guest = check_cash(t, at, n)?;
    let t = t.table();
    Ok(purse_moved(t, guest, guest_money(t, guest).purse - n))
}
