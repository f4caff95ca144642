// The list at a place: decision by decision, the one behind whose lists the place lies.
ghost use Rattle.std.specs.Prelude.{◌≡◌, [], suc, ◌<◌, ◌≤◌, length};
ghost use Rattle.call.specs.declared.Call.TheVariants.{Close};
ghost use Rattle.engine.specs.Step.{number};
ghost use Rattle.ways.specs.Ways.{ways_from};
ghost use Rattle.ways.specs.Aids.Picked.{GoesOn, Ends};

use crate::count::count_from;
use crate::decide::{KINDS, check_close, decide};
use call::At;
use table::whole::Whole;

// A decision, by the byte that C reads in a way, the table after it, and the place that is left among the lists from there.
#[derive(Clone, Copy)]
pub(crate) struct Onward {
    pub kind: u8,
    pub table: Whole,
    pub place: usize,
}

// The list, and the table where it ends.
// An array with its length: C reads both in a `Way`.
#[derive(Clone, Copy)]
pub(crate) struct Picked {
    pub table: Whole,
    pub length: usize,
    pub decisions: [u8; 8],
}

// The first decision of the list at that place. It asks that there is such a list and that a hand waits.
fn first_decision(t: &Whole, at: At, left: usize, place: usize) -> Onward
    requires few { left ≤ 8 }
    requires waits { number t.now Close [] ≡ 7 }
    requires inside { place < length (ways_from (suc left) at t.now) }
    ensures { GoesOn t.now at left place result }
{
    let mut rest = place;
    for kind in KINDS {
        let mut table = *t;
        if decide(&mut table, at, kind).is_ok() {
            let many = count_from(&table, at, left);
            if rest < many {
                return Onward {
                    kind,
                    table,
                    place: rest,
                };
            }
            rest -= many;
        }
    }
    Onward {
        kind: 0,
        table: *t,
        place: 0,
    }
}

// Decision by decision up to the list's end. A `while`: the number of decisions that it counts is handed out with them.
pub(crate) fn pick_list(t: &Whole, at: At, place: usize) -> Picked
    requires inside { place < length (ways_from 8 at t.now) }
    ensures { Ends t.now at place result }
{
    let mut table = *t;
    let mut rest = place;
    let mut length: usize = 0;
    let mut decisions = [0u8; 8];
    while length < 8 && check_close(&table).is_err() {
        let n = first_decision(&table, at, 7 - length, rest);
        decisions[length] = n.kind;
        table = n.table;
        rest = n.place;
        length += 1;
    }
    Picked {
        table,
        length,
        decisions,
    }
}
