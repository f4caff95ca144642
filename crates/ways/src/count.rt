// How many lists there are from a table on. Each decision is tried on the table as it stands, and where it is accepted the lists go on from the table after it.
ghost use Rattle.std.specs.Prelude.{◌≡◌, ◌≤◌, length};
ghost use Rattle.ways.specs.Ways.{ways_from};

use crate::decide::{KINDS, check_close, decide};
use call::At;
use call::refusal::Refusal;
use table::whole::Whole;

pub(crate) fn count_from(t: &Whole, at: At, left: usize) -> usize
    requires few { left ≤ 8 }
    ensures { result ≡ length (ways_from left at t.now) }
{
    match check_close(t) {
        Ok(()) => return 1,
        Err(Refusal::HandWaits) => {}
        Err(_) => return 0,
    }
    if left == 0 {
        return 0;
    }
    let mut all: usize = 0;
    for kind in KINDS {
        let mut after = *t;
        if decide(&mut after, at, kind).is_ok() {
            all += count_from(&after, at, left - 1);
        }
    }
    all
}
