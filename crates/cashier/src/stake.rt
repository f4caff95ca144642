// stake: from purse to layout, one per position a round, the seated guest's first (document 01, "The seventeen calls"; request 2.8). For every whole table,
// guest and amount its outcome is that of cashier_spec/specs/Stake.antt.
ghost use Rattle.std.specs.Prelude.{◌≡◌, not, ◌&&◌, ◌≤◌, ltb, eqb};
ghost use Rattle.answer.specs.Checked.{Checked};
ghost use Rattle.answer.specs.Moved.{moved_outcome};
ghost use Rattle.answer.specs.Outcome.{outcome};
ghost use Rattle.table.specs.Guest.{staking};
ghost use Rattle.cashier_spec.specs.Stake.{stake_conditions, stake_effect};

use answer::conditions::guest_between_rounds;
use answer::moved::{Moved, money_moved};
use call::At;
use call::guest::Guest;
use call::refusal::{Refusal, first_refusal};
use options::permitted::stake_permitted;
use state::seat::{guest_money, guest_seat};
use table::Money;
use table::whole::Whole;

// A guest's money with n of the purse staked.
fn staked(m: Money, n: u64) -> Money
    requires { n ≤ 1000000 }
    ensures { result ≡ staking m n }
{
    let mut next = m;
    next.purse = m.purse.saturating_sub(n);
    next.stake = n as u32;
    next
}

// Whether another guest would stake before the seated one.
fn before_seated(position: u8, seated: Money) -> bool
    ensures { result ≡ (not (eqb position 0) && not (ltb 0 seated.stake)) }
{
    position != 0 && !(0 < seated.stake)
}

// Why a stake is refused, or its guest: what every call of a guest asks first, then the rest of its list.
fn check_stake(t: &Whole, at: At, n: u64) -> Result<Guest, Refusal>
    ensures { Checked (stake_conditions t.now at.seat at.position n) at result }
{
    let guest = guest_between_rounds(t, at)?;
    let t = t.table();
    let money = guest_money(t, guest);
    let seated = guest_seat(t, guest).money;
    first_refusal(&[
        (Refusal::LaidAlready, 0 < money.stake),
        (Refusal::NoStake, before_seated(at.position, seated)),
        (Refusal::WrongAmount, n == 0),
        (Refusal::WrongAmount, !stake_permitted(t.options, n)),
        (Refusal::ShortPurse, money.purse < n),
    ])
    .and(Ok(guest))
}

pub fn stake(t: &Whole, at: At, n: u64) -> Result<Moved, Refusal>
    ensures { moved_outcome t.now at.seat result ≡ outcome (stake_conditions t.now at.seat at.position n) (stake_effect t.now at.seat at.position n) t.now }
{
    let guest = check_stake(t, at, n)?;
    let t = t.table();
    Ok(money_moved(t, guest, staked(*guest_money(t, guest), n)))
}
