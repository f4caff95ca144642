// A guest of the table: a seat of the nine and a position of the three (request 2.8), known to be so: made behind 8 and 22, so that no function of a guest asks for either again.
ghost use Rattle.std.specs.Prelude.{◌≡◌, ◌<◌, ◌*◌, ◌+◌};
ghost use Rattle.call.specs.declared.At.{At};

use crate::At;
use std::marker::Model;

#[derive(Clone, Copy)]
pub struct Guest {
    at: At,
}

impl Model for Guest {
    ghost Value = { At };

    ghost view = { λ g. g.at };

    ghost invariant = { λ g. (g.at.seat < 9) × (g.at.position < 3) };

    ghost inverse = { λ at. record { at = at } };
}

impl Guest {
    // For whoever has asked 8 and 22, or counts seats and positions.
    pub fn new(at: At) -> Self
        requires seat { at.seat < 9 }
        requires position { at.position < 3 }
        ensures { result ≡ at }
    {
        Guest { at }
    }

    // As a call names it.
    pub fn at(self) -> At
        ensures { result ≡ self }
    {
        self.at
    }

    pub fn seat(self) -> usize
        ensures same { result ≡ self.seat }
        ensures nine { result < 9 }
    {
        usize::from(self.at.seat)
    }

    pub fn position(self) -> u8
        ensures same { result ≡ self.position }
        ensures three { result < 3 }
    {
        self.at.position
    }

    // The number of the guest among the 27, by seat and position.
    pub fn place(self) -> usize
        ensures same { result ≡ 3 * self.seat + self.position }
        ensures all { result < 27 }
    {
        3 * self.seat() + usize::from(self.position())
    }
}
