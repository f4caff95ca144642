// Every way to play the one staked seat of a just dealt table.
ghost use Rattle.std.specs.Prelude.{◌≡◌};
ghost use Rattle.ways.specs.Number.{count_of_ways, way_at, way_of};

use table::Table;
use ways::{Way, WaysCount};

// How many ways there are.
#[unsafe(no_mangle)]
pub extern "C" fn discgauze_ways_count(table: Table) -> WaysCount
    ensures { result ≡ count_of_ways table }
{
    discgauze::every_way::discgauze_ways_count(table)
}

// The way at a place, from 0, and what it brings.
#[unsafe(no_mangle)]
pub extern "C" fn discgauze_way_at(table: Table, place: usize) -> Way
    ensures { way_of result ≡ way_at table place }
{
    discgauze::every_way::discgauze_way_at(table, place)
}
