// The dealer's screen (request 2.12): the touch fields that are lit, and the rows of hands. A layer above the engine that knows it by its promises: a field is lit where a step of its call would be
// accepted, and nothing of the engine's rules is said again.
#![tactic(auto)]

pub mod lights;
pub mod rows;

ghost use Rattle.std.specs.Prelude.{◌≡◌};
ghost use Rattle.dealer_screen.specs.Screen.{screen_of};
ghost use Rattle.dealer_screen.specs.Aids.Held.{held_screen};

use crate::lights::{SeatLights, all_dark, all_lights};
use crate::rows::{Row, Rows, all_rows, no_rows};
use broken::broken;
use table::Table;
use table::whole::Whole;

// The fields by seat and position; six rows, how many of them show a hand, and how many hands there are beyond them.
#[repr(C)]
#[derive(Clone, Copy)]
pub struct Screen {
    pub seats: [SeatLights; 9],
    pub rows: [Row; 6],
    // An array with its number and no Vec: a screen is of one size, and C reads it as it lies.
    pub shown: usize,
    pub beyond: usize,
}

// Fields and rows together.
fn made(seats: [SeatLights; 9], rows: Rows) -> Screen
    ensures { result ≡ held_screen seats rows }
{
    let Rows { each, count } = rows;
    Screen {
        seats,
        rows: each,
        shown: count.min(6),
        beyond: count.saturating_sub(6),
    }
}

// Broken is asked once.
pub fn shown_screen(t: Table) -> Screen
    ensures { result ≡ screen_of t }
{
    if broken(&t) {
        return made(all_dark(t), no_rows());
    }
    let whole = Whole::new(t);
    made(all_lights(&whole), all_rows(&whole))
}
