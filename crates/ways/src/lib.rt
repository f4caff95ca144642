// Every way to play one seat (request 2.11): how many lists of decisions a just dealt table allows, and the list at a place of their order with its sum. It is no call: it takes
// a table by value, tries the decisions on copies, and hands no table back.
#![tactic(auto)]

mod count;
mod decide;
mod numbers;
mod pick;
mod sum;

ghost use Rattle.std.specs.Prelude.{◌≡◌, IfOk};
ghost use Rattle.call.specs.Refusal.{number_in};
ghost use Rattle.ways.specs.Number.{ways_number, count_of_ways, no_way, way_at, way_of};

use crate::count::count_from;
use crate::numbers::{check_ways, player};
use crate::pick::pick_list;
use crate::sum::end_sum;
use call::refusal::Refusal;
use table::Table;
use table::whole::Whole;

// The number, 0 where there is a count. Two numbers and no Result: C reads them.
#[repr(C)]
#[derive(Clone, Copy)]
pub struct WaysCount {
    pub number: u8,
    pub count: usize,
}

// The first `length` of the decisions, each by the kind of its call: 8 stand, 9 draw, 10 double, 11 split, 13 even, 14 five; and what the guest gains or loses by them.
// C reads it: so a number, a flag, and an array with its length.
#[repr(C)]
#[derive(Clone, Copy)]
pub struct Way {
    pub number: u8,
    pub found: bool,
    pub length: usize,
    pub decisions: [u8; 8],
    pub sum: i64,
}

// At most so many decisions.
pub(crate) const MOST: usize = 8;

pub fn ways_count(t: Table) -> WaysCount
    ensures { result ≡ count_of_ways t }
{
    match check_ways(t) {
        Err(why) => WaysCount {
            number: why.number(),
            count: 0,
        },
        Ok(()) => WaysCount {
            number: 0,
            count: count_from(&Whole::new(t), player(t), MOST),
        },
    }
}

fn no_way(number: u8) -> Way
    ensures { way_of result ≡ no_way number }
{
    Way {
        number,
        found: false,
        length: 0,
        decisions: [0u8; 8],
        sum: 0,
    }
}

// Of a table that has a count, or why it has none. Close is accepted where the picked list ends, so the sum is never refused.
fn counted_way(t: Table, place: usize) -> Result<Way, Refusal>
    ensures number { number_in result ≡ ways_number t }
    ensures way { IfOk result (λ w. way_of w ≡ way_at t place) }
{
    check_ways(t)?;
    let whole = Whole::new(t);
    let at = player(t);
    if count_from(&whole, at, MOST) <= place {
        return Ok(no_way(0));
    }
    let p = pick_list(&whole, at, place);
    let decisions = p.decisions;
    let sum = end_sum(&p.table)?;
    Ok(Way {
        number: 0,
        found: true,
        length: p.length,
        decisions,
        sum,
    })
}

pub fn way_at(t: Table, place: usize) -> Way
    ensures { way_of result ≡ way_at t place }
{
    match counted_way(t, place) {
        Ok(way) => way,
        Err(why) => no_way(why.number()),
    }
}
