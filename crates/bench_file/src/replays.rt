// The file checked and played, again and again.
ghost use Rattle.std.specs.Prelude.{◌≤◌};

use call::pay_line::LINES;
use replaying::{open_file, play_call};
use session_file::reader::Reader;
use table::Table;
use table::whole::Whole;

// The last table, and how many calls are still to be replayed.
#[derive(Clone, Copy)]
pub(crate) struct Replay {
    pub table: Table,
    pub left: u64,
}

// The calls of a file that is not refused, from its first table on, or as many of them as are left.
fn each(file: &[u8], first: Whole, calls: u64) -> Replay {
    let mut names = [0; LINES];
    let mut nets = [0; LINES];
    let mut table = first;
    let mut left = calls;
    for handed in Reader::of_checked(file) {
        if left == 0 {
            break;
        }
        play_call(&mut table, file, handed, &mut names, &mut nets);
        left -= 1;
    }
    Replay {
        table: *table.table(),
        left,
    }
}

// One pass over the file; of a refused one no call is replayed.
fn pass(file: &[u8], begun: Replay) -> Replay {
    match open_file(file) {
        Ok(table) => each(file, table, begun.left),
        Err(_) => begun,
    }
}

// Pass after pass, until as many calls are replayed as were left, or a pass replays none.
pub(crate) fn replayed(file: &[u8], begun: Replay) -> Replay
    ensures { result.left ≤ begun.left }
{
    let mut r = begun;
    // A pass may replay fewer calls than are left.
    while 0 < r.left {
        let next = pass(file, r);
        if r.left <= next.left {
            return r;
        }
        r = next;
    }
    r
}
