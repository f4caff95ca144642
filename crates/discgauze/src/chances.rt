// The bank's chances, and the faces left of a table that they can be asked of.
ghost use Rattle.std.specs.Prelude.{◌≡◌, length};
ghost use Rattle.faces_left.specs.FacesLeft.{faces_left};
ghost use Rattle.discgauze.specs.Chances.{chances_by};

use bank_chances::{BankChances, chances, refused};
use call::refusal::Refusal;
use faces_left::{FacesLeft, faces_left};
use table::Table;

// The lent counts as an array.
fn faces_of(left: &[u8]) -> [u8; 52]
    requires { length left.now ≡ 52 }
    ensures { result ≡ left.now }
{
    let mut faces = [0u8; 52];
    faces.copy_from_slice(left);
    faces
}

// The up card, how often each of the 52 faces is left, and how many cards are drawn.
#[unsafe(no_mangle)]
pub extern "C" fn discgauze_chances(up: u8, left: &[u8], depth: u8) -> BankChances
    ensures { result ≡ chances_by up left.now depth }
{
    if left.len() != 52 {
        return refused(Refusal::WrongOrder);
    }
    chances(up, faces_of(left), depth)
}

// The up card of a dealt round, and how often each face is left, by what is seen.
#[unsafe(no_mangle)]
pub extern "C" fn discgauze_faces_left(table: Table) -> FacesLeft
    ensures { result ≡ faces_left table }
{
    faces_left(table)
}
