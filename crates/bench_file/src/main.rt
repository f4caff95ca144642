// Writes the session file of one session of the workload, then checks that file and plays it (request 2.9) again and again, until as many calls are replayed as the argument says; then a checksum of the
// last table.
#![tactic(auto)]

mod replays;
mod writing;

use crate::replays::{Replay, replayed};
use crate::writing::written_session;
use std::io;
use workload::calls_asked;
use workload::checksum::of_table;

fn main(rt: HostRuntime) -> io::Result<()> {
    let calls = calls_asked(&rt);
    let session = written_session(rt.alloc())?;
    let begun = Replay {
        table: session.table,
        left: calls,
    };
    let last = replayed(&session.file, begun);
    let replayed = calls - last.left;
    let sum = of_table(last.table);
    println!(rt; "{replayed} calls replayed, checksum {sum}")
}
