// void: a misdeal. Each guest gets back what was laid in this round and returns the prizes, which the tray gets; drawn cards become discards
// (document 01, "The seventeen calls").
ghost use Rattle.std.specs.Prelude.{◌≡◌};
ghost use Rattle.call.specs.Refusal.{number_in, first};
ghost use Rattle.answer.specs.Outcome.{outcome, outcome_in};
ghost use Rattle.table.specs.Aids.Sound.{Sound};
ghost use Rattle.close_spec.specs.Void.{void_conditions, void_effect};

use crate::seats::{Ending, ended_seats};
use call::refusal::{Refusal, first_refusal};
use cards::hand::empty_hand;
use money::sums::table_sums;
use shoe::discard_drawn;
use table::Table;
use table::whole::Whole;

// The guests with what they laid, the prizes in the tray, and all drawn cards as discards.
fn voided(t: Table) -> Table
    requires { Sound t }
    ensures { result ≡ void_effect t }
{
    let mut next = ended_seats(t, Ending::Void(t.options));
    let sums = table_sums(t);
    next.tray = t.tray + sums.prizes;
    next.bank = empty_hand();
    next.shoe = discard_drawn(t.shoe);
    next
}

fn check_void(t: &Whole) -> Result<(), Refusal>
    ensures { number_in result ≡ first (void_conditions t.now) }
{
    let sums = table_sums(*t.table());
    first_refusal(&[(Refusal::NothingStaked, sums.stakes == 0)])
}

pub fn void(t: &Whole) -> Result<Table, Refusal>
    ensures { outcome_in t.now result ≡ outcome (void_conditions t.now) (void_effect t.now) t.now }
{
    check_void(t)?;
    Ok(voided(*t.table()))
}
