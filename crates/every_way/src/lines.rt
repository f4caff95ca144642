// What the program writes.
use stage::shown::Net;
use std::io::Write;
use std::{fmt, io};
use table::Table;
use ways::{Way, way_at, ways_count};

// A decision, by the kind that the engine gives it.
// The kind is a byte of the way, which C reads.
fn decision(kind: u8) -> &'static str {
    match kind {
        8 => "stand",
        9 => "draw",
        10 => "double",
        11 => "split",
        13 => "even",
        _ => "five",
    }
}

// The decisions of a way, with its sum.
#[derive(Clone, Copy)]
struct Decisions(Way);

impl fmt::Display for Decisions {
    fn fmt<W: fmt::Write>(&self, f: &mut fmt::Formatter<W>) -> fmt::Result {
        let way = self.0;
        if way.length == 0 {
            write!(f, "nothing to decide ")?;
        }
        for kind in way.decisions.iter().take(way.length) {
            write!(f, "{} ", decision(*kind))?;
        }
        write!(f, "{}", Net(way.sum))
    }
}

// The number of ways, or why there is none.
pub(crate) fn counted_ways<W: Write>(out: &mut W, t: Table) -> io::Result<usize> {
    let ways = ways_count(t);
    // The number, as C reads it: 0 is accepted.
    if ways.number != 0 {
        writeln!(out, "  no count {}", ways.number)?;
        return Ok(0);
    }
    writeln!(out, "  ways {}", ways.count)?;
    Ok(ways.count)
}

// All ways from the first place on, then the largest and the smallest of their sums.
fn listed<W: Write>(out: &mut W, t: Table, count: usize) -> io::Result<()> {
    let first = way_at(t, 0);
    let mut best = first.sum;
    let mut worst = first.sum;
    // The engine is asked for a way by its place.
    for place in 0..count {
        let way = way_at(t, place);
        writeln!(out, "   {place} {}", Decisions(way))?;
        best = best.max(way.sum);
        worst = worst.min(way.sum);
    }
    writeln!(out, "  best {} worst {}", Net(best), Net(worst))
}

pub(crate) fn every_way<W: Write>(out: &mut W, t: Table) -> io::Result<()> {
    match counted_ways(out, t)? {
        0 => Ok(()),
        count => listed(out, t, count),
    }
}
