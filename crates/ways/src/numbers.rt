// When there is no count, and who plays.
ghost use Rattle.std.specs.Prelude.{◌≡◌, cond, ◌≤◌, ltb};
ghost use Rattle.lists.specs.Tests.{first_place};
ghost use Rattle.call.specs.Refusal.{number_in};
ghost use Rattle.table.specs.Seat.{is_staked};
ghost use Rattle.ways.specs.Lawful.{player as player_of};
ghost use Rattle.ways.specs.Number.{staked_of, staked_guests, ways_number};

use broken::broken;
use call::At;
use call::refusal::{Refusal, first_refusal};
use decisions::progress::any_decided;
use state::round::is_dealt;
use table::{Money, Seat, Table};

fn is_staked(m: Money) -> usize
    ensures same { result ≡ cond (ltb 0 m.stake) 1 0 }
    ensures small { result ≤ 1 }
{
    usize::from(0 < m.stake)
}

// How many guests of a seat have a stake.
fn staked_of(s: Seat) -> usize
    ensures same { result ≡ staked_of s }
    ensures small { result ≤ 3 }
{
    is_staked(s.money) + is_staked(s.others[0]) + is_staked(s.others[1])
}

fn staked_guests(t: Table) -> usize
    ensures { result ≡ staked_guests t }
{
    t.seats.iter().map(|s| staked_of(*s)).sum()
}

// The first staked seat, or 9 where there is none. No Option: the guest who plays is an `At`, in every table, and 9 is the seat that its definition names there.
fn staked_seat(t: Table) -> u8
    ensures { result ≡ first_place is_staked t.seats }
{
    t.seats.iter().position(|s| 0 < s.money.stake).unwrap_or(9) as u8
}

// Its seated guest.
pub(crate) fn player(t: Table) -> At
    ensures { result ≡ player_of t }
{
    At {
        seat: staked_seat(t),
        position: 0,
    }
}

// Why there is no count.
pub(crate) fn check_ways(t: Table) -> Result<(), Refusal>
    ensures { number_in result ≡ ways_number t }
{
    first_refusal(&[
        (Refusal::Broken, broken(&t)),
        (Refusal::NoRound, !is_dealt(t)),
        (Refusal::Barred, 1 < staked_guests(t)),
        (Refusal::Barred, any_decided(&t)),
    ])
}
