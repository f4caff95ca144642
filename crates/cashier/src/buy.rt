// buy: a guest's purse up (document 01, "The seventeen calls"; request 2.8). For every whole table, guest and amount its outcome is that of
// cashier_spec/specs/Buy.antt.
ghost use Rattle.std.specs.Prelude.{◌≡◌};
ghost use Rattle.answer.specs.Checked.{Checked};
ghost use Rattle.answer.specs.Moved.{moved_outcome};
ghost use Rattle.answer.specs.Outcome.{outcome};
ghost use Rattle.cashier_spec.specs.Buy.{buy_conditions, buy_effect};

use crate::purse::purse_moved;
use answer::conditions::guest_between_rounds;
use answer::moved::Moved;
use call::At;
use call::guest::Guest;
use call::refusal::{Refusal, first_refusal};
use money::most_money::past_most_money;
use money::sums::table_sums;
use state::seat::guest_money;
use table::whole::Whole;

// Why a buy is refused, or its guest: what every call of a guest asks first, then the rest of its list.
// `cash` reads alike and asks another thing of the amount: one function of both would take a code that says which, and the definitions of both.
fn check_buy(t: &Whole, at: At, n: u64) -> Result<Guest, Refusal>
    ensures { Checked (buy_conditions t.now at.seat at.position n) at result }
{
    let guest = guest_between_rounds(t, at)?;
    let t = t.table();
    first_refusal(&[
        (Refusal::WrongAmount, n == 0),
        (
            Refusal::WrongAmount,
            past_most_money(t.tray, table_sums(*t), n),
        ),
    ])
    .and(Ok(guest))
}

pub fn buy(t: &Whole, at: At, n: u64) -> Result<Moved, Refusal>
    ensures { moved_outcome t.now at.seat result ≡ outcome (buy_conditions t.now at.seat at.position n) (buy_effect t.now at.seat at.position n) t.now }
{
    let guest = check_buy(t, at, n)?;
    let t = t.table();
    Ok(purse_moved(t, guest, guest_money(t, guest).purse + n))
}
