// What every call of a seat asks first (document 01, "Who can bring about which number"): 4 or 5 by its phase, then 8, and a call of a guest 22. The table is whole: 1 was asked
// before the call. Behind them stands the guest, one of the 27. `seat_number` and `guest_number` ask the same by numbers, of any table.
ghost use Rattle.std.specs.Prelude.{◌≡◌, [], ◌∷◌, leb};
ghost use Rattle.call.specs.Refusal.{number_in, numbered, first};
ghost use Rattle.answer.specs.Checked.{Checked};
ghost use Rattle.answer.specs.Conditions.{between_rounds, in_round, seat_conditions, guest_conditions};

use call::At;
use call::guest::Guest;
use call::refusal::{Refusal, asked, first_refusal};
use state::round::is_dealt;
use table::whole::Whole;

// `phase`: the refusal of the call's phase, and whether the phase is wrong.
fn check_guest(t: &Whole, phase: (Refusal, bool), at: At) -> Result<Guest, Refusal>
    ensures { Checked (guest_conditions (numbered phase) t.now at.seat at.position) at result }
{
    first_refusal(&[
        phase,
        (Refusal::NoSeat, t.table().options.seats <= at.seat),
        (Refusal::NoPosition, 3 <= at.position),
    ])?;
    Ok(Guest::new(at))
}

// Of a call that a guest makes between rounds.
pub fn guest_between_rounds(t: &Whole, at: At) -> Result<Guest, Refusal>
    ensures { Checked (guest_conditions (between_rounds t.now) t.now at.seat at.position) at result }
{
    check_guest(t, (Refusal::RoundDealt, is_dealt(*t.table())), at)
}

// Of one in a round.
pub fn guest_in_round(t: &Whole, at: At) -> Result<Guest, Refusal>
    ensures { Checked (guest_conditions (in_round t.now) t.now at.seat at.position) at result }
{
    check_guest(t, (Refusal::NoRound, !is_dealt(*t.table())), at)
}

// Of a call that asks more of it before the position: of a side stake.
pub fn check_seat(t: &Whole, seat: u8) -> Result<(), Refusal>
    ensures { number_in result ≡ first (seat_conditions (between_rounds t.now) t.now seat) }
{
    let t = t.table();
    first_refusal(&[
        (Refusal::RoundDealt, is_dealt(*t)),
        (Refusal::NoSeat, t.options.seats <= seat),
    ])
}

// The number of the call's phase where the phase is wrong, 8 no such seat: it takes the answers, and no table.
pub fn seat_number(phase: u8, wrong: bool, seats: u8, seat: u8) -> u8
    ensures { result ≡ first ((phase, wrong) ∷ (8, leb seats seat) ∷ []) }
{
    asked(phase, wrong, asked(8, seats <= seat, 0))
}

// The same for a call of a guest, with 22 no such position behind it.
pub fn guest_number(phase: u8, wrong: bool, seats: u8, at: At) -> u8
    ensures { result ≡ first ((phase, wrong) ∷ (8, leb seats at.seat) ∷ (22, leb 3 at.position) ∷ []) }
{
    asked(
        phase,
        wrong,
        asked(8, seats <= at.seat, asked(22, 3 <= at.position, 0)),
    )
}
