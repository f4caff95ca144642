// What a call gives back: its number, 0 where it is accepted, and the table after it.
ghost use Rattle.std.specs.Prelude.{◌≡◌};
ghost use Rattle.answer.specs.Outcome.{outcome_in};

use call::refusal::Refusal;
use table::Table;

#[repr(C)]
#[derive(Clone, Copy)]
pub struct Outcome {
    // A number and no Result: C reads it, and a refused call leaves the table beside it.
    pub number: u8,
    pub table: Table,
}

// Of a call that may change any part of the table t.
pub fn outcome_in(t: &Table, r: Result<Table, Refusal>) -> Outcome
    ensures { result ≡ outcome_in t.now r }
{
    match r {
        Ok(table) => Outcome { number: 0, table },
        Err(why) => Outcome {
            number: why.number(),
            table: *t,
        },
    }
}
