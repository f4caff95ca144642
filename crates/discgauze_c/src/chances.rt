// The bank's chances, and the faces left of a table that they can be asked of.
ghost use Rattle.std.specs.Prelude.{◌≡◌};
ghost use Rattle.faces_left.specs.FacesLeft.{faces_left};
ghost use Rattle.discgauze.specs.Chances.{chances_by};

use bank_chances::BankChances;
use faces_left::FacesLeft;
use table::Table;

// The up card, how often each of the 52 faces is left, and how many cards are drawn.
#[unsafe(no_mangle)]
pub extern "C" fn discgauze_chances(up: u8, left: &[u8], depth: u8) -> BankChances
    ensures { result ≡ chances_by up left.now depth }
{
    discgauze::chances::discgauze_chances(up, left, depth)
}

// The up card of a dealt round, and how often each face is left, by what is seen.
#[unsafe(no_mangle)]
pub extern "C" fn discgauze_faces_left(table: Table) -> FacesLeft
    ensures { result ≡ faces_left table }
{
    discgauze::chances::discgauze_faces_left(table)
}
