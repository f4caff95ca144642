// insure: an amount from purse to layout, with an ace up, before the round's first accepted decision, once a position (document 01, "The seventeen calls",
// the guest; article 12).
ghost use Rattle.std.specs.Prelude.{◌≡◌, ◌≤◌};
ghost use Rattle.answer.specs.Checked.{Checked};
ghost use Rattle.answer.specs.Moved.{moved_outcome};
ghost use Rattle.answer.specs.Outcome.{outcome};
ghost use Rattle.table.specs.Guest.{insuring};
ghost use Rattle.decisions_spec.specs.Insure.{insure_conditions, insure_effect};

use crate::progress::any_decided;
use answer::conditions::guest_in_round;
use answer::moved::{Moved, money_moved};
use call::At;
use call::guest::Guest;
use call::refusal::{Refusal, first_refusal};
use cards::card::is_ace;
use options::permitted::insurance_permitted;
use state::round::up;
use state::seat::guest_money;
use table::Money;
use table::whole::Whole;

// A guest's money with n of the purse laid as insurance.
fn insured(m: Money, n: u64) -> Money
    requires { n ≤ m.stake }
    ensures { result ≡ insuring m n }
{
    let mut next = m;
    next.purse = m.purse.saturating_sub(n);
    next.insurance = n as u32;
    next
}

// Behind the conditions of every call of a guest: 9 insured already, 10 no stake, 12 a decision was taken, 13 no ace up, 14 nothing or not the option's
// part of the stake, 15 not in the purse.
fn check_insure(t: &Whole, at: At, n: u64) -> Result<Guest, Refusal>
    ensures { Checked (insure_conditions t.now at.seat at.position n) at result }
{
    let guest = guest_in_round(t, at)?;
    let t = t.table();
    let money = guest_money(t, guest);
    let permitted = insurance_permitted(t.options, money.stake, n);
    first_refusal(&[
        (Refusal::LaidAlready, 0 < money.insurance),
        (Refusal::NoStake, !(0 < money.stake)),
        (Refusal::TooLate, any_decided(t)),
        (Refusal::Barred, !is_ace(up(*t))),
        (Refusal::WrongAmount, n == 0),
        (Refusal::WrongAmount, !permitted),
        (Refusal::ShortPurse, money.purse < n),
    ])
    .and(Ok(guest))
}

pub fn insure(t: &Whole, at: At, n: u64) -> Result<Moved, Refusal>
    ensures { moved_outcome t.now at.seat result ≡ outcome (insure_conditions t.now at.seat at.position n) (insure_effect t.now at.seat at.position n) t.now }
{
    let guest = check_insure(t, at, n)?;
    let t = t.table();
    Ok(money_moved(t, guest, insured(*guest_money(t, guest), n)))
}
