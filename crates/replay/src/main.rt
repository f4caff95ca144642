// Plays a session file (request 2.9) that stands on the input: a line for each call, with the columns of the marked session. A refused file gives its number and nothing else.
#![tactic(auto)]

mod rows;

use replaying::open_file;
use rows::each;
use stage::program::call_heading;
use stage::shown::CallLine;
use std::alloc::{AllocError, Global};
use std::io;
use std::io::{BufWriter, Read, Write};

// As many bytes as are read; a longer file is not played in part.
const ROOM: usize = 1048576;

fn room(alloc: Global) -> Result<Vec<u8>, AllocError> {
    Vec::with_capacity(alloc, ROOM)
}

fn replay<W: Write>(out: &mut W, file: &[u8]) -> io::Result<()> {
    match open_file(file) {
        Ok(table) => {
            call_heading(out)?;
            let line = CallLine {
                name: b"open",
                number: 0,
                table: *table.table(),
            };
            writeln!(out, "{line}")?;
            each(out, file, table)
        }
        Err(why) => writeln!(out, "{}", why.number()),
    }
}

fn main(rt: HostRuntime) -> io::Result<()> {
    let mut text = room(rt.alloc())?;
    rt.stdin().take(ROOM as u64).read_to_end(&mut text)?;
    let mut out = BufWriter::new(rt.alloc(), io::writer(&rt))?;
    if text.len() == ROOM {
        out.write_all(b"the file is too long for this program\n")?;
    } else {
        replay(&mut out, &text)?;
    }
    out.flush()
}
