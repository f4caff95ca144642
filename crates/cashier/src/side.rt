// A side stake: from purse to layout, before the deal, of a guest who has a stake, once for each kind (request 2.6). For every whole table, guest, kind and amount its
// outcome is that of cashier_spec/specs/Side.antt.
ghost use Rattle.std.specs.Prelude.{◌≡◌, ◌≤◌};
ghost use Rattle.answer.specs.Checked.{Checked};
ghost use Rattle.answer.specs.Moved.{moved_outcome};
ghost use Rattle.answer.specs.Outcome.{outcome};
ghost use Rattle.payment.specs.Bets.{side as side_of};
ghost use Rattle.table.specs.Guest.{siding};
ghost use Rattle.cashier_spec.specs.Side.{is_side_kind, side_conditions, side_effect};

use answer::conditions::check_seat;
use answer::moved::{Moved, money_moved};
use call::At;
use call::guest::Guest;
use call::refusal::{Refusal, first_refusal};
use options::permitted::side_permitted;
use state::seat::guest_money;
use table::Money;
use table::whole::Whole;

// 1 any pair, 2 sevens, 3 more than 13, 4 less than 13.
// A byte and no enum: a call carries any byte, and 21 refuses the others.
fn is_side_kind(kind: u8) -> bool
    ensures { result ≡ is_side_kind kind }
{
    1 <= kind && kind <= 4
}

// The side stake of a kind: none for a kind above 4, the first's for 0, as the definition reads it.
fn side_of(sides: [u32; 4], kind: u8) -> u32
    ensures { result ≡ side_of sides kind }
{
    if 4 < kind {
        return 0;
    }
    match kind {
        2 => sides[1],
        3 => sides[2],
        4 => sides[3],
        _ => sides[0],
    }
}

// A guest's money with n of the purse laid as a side stake of that kind.
fn sided(m: Money, kind: u8, n: u64) -> Money
    requires { (1 ≤ kind) × (kind ≤ 4) × (n ≤ 100000) }
    ensures { result ≡ siding m kind n }
{
    let mut next = m;
    let at = (kind - 1) as usize;
    next.purse = m.purse.saturating_sub(n);
    next.sides[at] = n as u32;
    next
}

// Why a side stake is refused, or its guest: what every call of a seat asks first, 21 and 22, then the rest of its list.
fn check_side(t: &Whole, at: At, kind: u8, n: u64) -> Result<Guest, Refusal>
    ensures { Checked (side_conditions t.now at.seat at.position kind n) at result }
{
    check_seat(t, at.seat)?;
    first_refusal(&[
        (Refusal::NoSideKind, !is_side_kind(kind)),
        (Refusal::NoPosition, 3 <= at.position),
    ])?;
    let guest = Guest::new(at);
    let money = guest_money(t.table(), guest);
    first_refusal(&[
        (Refusal::LaidAlready, 0 < side_of(money.sides, kind)),
        (Refusal::NoStake, !(0 < money.stake)),
        (Refusal::WrongAmount, !side_permitted(n)),
        (Refusal::ShortPurse, money.purse < n),
    ])
    .and(Ok(guest))
}

pub fn side(t: &Whole, at: At, kind: u8, n: u64) -> Result<Moved, Refusal>
    ensures { moved_outcome t.now at.seat result ≡ outcome (side_conditions t.now at.seat at.position kind n) (side_effect t.now at.seat at.position kind n) t.now }
{
    let guest = check_side(t, at, kind, n)?;
    let t = t.table();
    Ok(money_moved(t, guest, sided(*guest_money(t, guest), kind, n)))
}
