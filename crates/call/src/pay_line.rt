// The pay lines of close (document 01, "Payment"): each is a name and a net, in two arrays that the caller of a step lends. A name holds a byte each for
// seat, place (0 where it is no hand), kind and position; the net goes to the guest there.
ghost use Rattle.std.specs.Prelude.{◌≡◌};
ghost use Rattle.call.specs.PayLine.{line_name, line_seat, line_position, line_place, line_kind};

// As many places as there can be lines: 27 guests have at most four hands, an insurance and four side stakes each.
pub const LINES: usize = 243;

// A line is for a hand, for an insurance, or for a side stake of kind k, which is 1 + k. A byte and no enum: C reads it out of a name, and any byte has its answer.
pub const HAND: u8 = 0;

pub const INSURANCE: u8 = 1;

// A number with four bytes in it, since C reads the names of the lines as such.
pub fn line_name(seat: u8, position: u8, place: u8, kind: u8) -> u32
    ensures { result ≡ line_name seat position place kind }
{
    u32::from_le_bytes([seat, place, kind, position])
}

pub fn line_seat(name: u32) -> u8
    ensures { result ≡ line_seat name }
{
    let [seat, ..] = name.to_le_bytes();
    seat
}

pub fn line_position(name: u32) -> u8
    ensures { result ≡ line_position name }
{
    let [.., position] = name.to_le_bytes();
    position
}

pub fn line_place(name: u32) -> u8
    ensures { result ≡ line_place name }
{
    let [_, place, ..] = name.to_le_bytes();
    place
}

pub fn line_kind(name: u32) -> u8
    ensures { result ≡ line_kind name }
{
    let [_, _, kind, _] = name.to_le_bytes();
    kind
}
