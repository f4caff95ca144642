// The cover of a seat (document 01, number 16, and requests 2.2 and 2.6): what its stake and its side stakes can take from the tray in one round.
ghost use Rattle.std.specs.Prelude.{◌≡◌};
ghost use Rattle.payment.specs.Cover.{cover as cover_of, side_cover};

pub fn cover(stake: u32) -> u64
    ensures { result ≡ cover_of stake }
{
    32 * (stake as u64)
}

// By kind, what each can win at most: 11, 5000, 1 and 1 to one.
pub fn side_cover(sides: [u32; 4]) -> u64
    ensures { result ≡ side_cover sides }
{
    11 * (sides[0] as u64) + 5000 * (sides[1] as u64) + (sides[2] as u64) + (sides[3] as u64)
}
