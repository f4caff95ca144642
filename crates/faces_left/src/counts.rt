// Cards counted by face.
ghost use Rattle.std.specs.Prelude.{◌≡◌, ◌++◌};
ghost use Rattle.faces_left.specs.FacesLeft.{counts_below};
ghost use Rattle.faces_left.specs.Aids.Few.{Few};

use card_count::counters::count;

// How often each face is among the cards of two lists.
pub(crate) fn counted(first: &[u8], second: &[u8]) -> [u8; 52]
    requires { Few first.now second.now }
    ensures { result ≡ counts_below (first.now ++ second.now) 52 }
{
    let mut of = [0u16; 256];
    count(&mut of, first);
    count(&mut of, second);
    let mut counts = [0u8; 52];
    for (face, count) in of[..52].iter().enumerate() {
        counts[face] = *count as u8;
    }
    counts
}
