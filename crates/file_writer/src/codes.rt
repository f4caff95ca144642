// The parts of a call and its ten bytes (request 2.9).
ghost use Rattle.std.specs.Prelude.{◌≡◌};
ghost use Rattle.call.specs.Call.{kind};
ghost use Rattle.file_writer.specs.Parts.{parts_of};
ghost use Rattle.file_writer.specs.Codes.{CodeOf};
ghost use Rattle.file_writer.specs.Aids.Parts.{house_parts, guest_parts, side_parts};

use call::refusal::Refusal;
use call::{At, Call};

// What a call has in the file: its kind, none where it is a side stake of no known kind; its seat, its position, its amount.
#[derive(Clone, Copy)]
pub struct Parts {
    pub kind: Option<u8>,
    pub seat: u8,
    pub position: u8,
    pub amount: u64,
}

// A call without a seat. Its kind is the file's byte.
fn of_house(kind: u8, amount: u64) -> Parts
    ensures { result ≡ house_parts kind amount }
{
    Parts {
        kind: Some(kind),
        seat: 0,
        position: 0,
        amount,
    }
}

// A call with a seat.
// Its kind is the file's byte.
fn of_guest(kind: u8, at: At, amount: u64) -> Parts
    ensures { result ≡ guest_parts kind at amount }
{
    Parts {
        kind: Some(kind),
        seat: at.seat,
        position: at.position,
        amount,
    }
}

// A side stake of one of the four kinds, or of none: any byte that a call has.
fn of_side(at: At, kind: u8, amount: u64) -> Parts
    ensures { result ≡ side_parts at kind amount }
{
    Parts {
        kind: if 1 <= kind && kind <= 4 {
            Some(17 + kind)
        } else {
            None
        },
        seat: at.seat,
        position: at.position,
        amount,
    }
}

// A call taken apart.
#[tactic(auto, unfolding(file_spec::specs::File::known_kind))]
pub fn parts_of(c: Call) -> Parts
    ensures { result ≡ parts_of c }
{
    match c {
        Call::Fill(n) => of_house(1, n),
        Call::Credit(n) => of_house(2, n),
        Call::Buy(at, n) => of_guest(3, at, n),
        Call::Cash(at, n) => of_guest(4, at, n),
        Call::Stake(at, n) => of_guest(5, at, n),
        Call::Deal => of_house(6, 0),
        Call::Insure(at, n) => of_guest(7, at, n),
        Call::Stand(at) => of_guest(8, at, 0),
        Call::Draw(at) => of_guest(9, at, 0),
        Call::Double(at) => of_guest(10, at, 0),
        Call::Split(at) => of_guest(11, at, 0),
        Call::Surrender(at) => of_guest(12, at, 0),
        Call::Even(at) => of_guest(13, at, 0),
        Call::Five(at) => of_guest(14, at, 0),
        Call::Close => of_house(15, 0),
        Call::Void => of_house(16, 0),
        Call::Load => of_house(17, 0),
        Call::Side(at, kind, n) => of_side(at, kind, n),
    }
}

// The kind of any call, one that no file has too: that of a side stake stands behind 17.
#[tactic(auto, unfolding(file_spec::specs::File::known_kind))]
pub fn kind_of(c: Call) -> u16
    ensures { result ≡ kind c }
{
    if let Call::Side(_, kind, _) = c {
        return 17 + u16::from(kind);
    }
    match parts_of(c).kind {
        Some(kind) => u16::from(kind),
        None => 0,
    }
}

// The ten bytes of a call.
#[derive(Clone, Copy)]
pub(crate) struct Code(pub [u8; 10]);

// Refused where no ten bytes hold it.
impl TryFrom<Call> for Code {
    type Error = Refusal;

    ghost try_from_gives = { CodeOf };

    fn try_from(call: Call) -> Result<Code, Refusal> {
        let Parts {
            kind,
            seat,
            position,
            amount,
        } = parts_of(call);
        let [a, b, c, d, e, f, g, h] = amount.to_le_bytes();
        match kind {
            Some(kind) if seat < 16 && position < 16 => {
                Ok(Code([kind, seat + 16 * position, a, b, c, d, e, f, g, h]))
            }
            _ => Err(Refusal::FileContent),
        }
    }
}
