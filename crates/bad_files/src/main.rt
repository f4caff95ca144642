// The numbers of many small files (request 2.9), each of which breaks one rule, and of good ones beside them. The file stdin has them one behind the other: a line that names the file, its
// length in two bytes, its bytes. The expected lines, in the file stdout, are worked out from the request by hand.
#![tactic(auto)]

ghost use Rattle.std.specs.Prelude.{◌<◌, length, IfOk};

use session_file::check::check_file;
use session_file::reader::{byte_at, part};
use std::io;
use std::io::{BufWriter, Read, Write};

// As many bytes as are read.
const ROOM: u64 = 65536;

// The file at the front, and what stands behind it.
fn one<'a, W: Write>(out: &mut W, files: &'a [u8]) -> io::Result<&'a [u8]>
    requires { 0 < length files.now }
    ensures { IfOk result (λ behind. length behind.now < length files.now) }
{
    let end = files.iter().position(|byte| *byte == b'\n');
    let (name, rest) = files.split_at(end.unwrap_or(files.len()));
    let many = usize::from(u16::from_le_bytes([byte_at(rest, 1), byte_at(rest, 2)]));
    let number = match check_file(part(rest, 3, many)) {
        Ok(()) => 0,
        Err(why) => why.number(),
    };
    write!(out, "{number} ")?;
    out.write_all(name)?;
    out.write_all(b"\n")?;
    Ok(part(rest, 3 + many, rest.len()))
}

fn each<W: Write>(out: &mut W, files: &[u8]) -> io::Result<()> {
    let mut left = files;
    // Each turn takes a line of a length of its own.
    while !left.is_empty() {
        left = one(out, left)?;
    }
    Ok(())
}

fn main(rt: HostRuntime) -> io::Result<()> {
    let mut files = Vec::new(rt.alloc());
    rt.stdin().take(ROOM).read_to_end(&mut files)?;
    let mut out = BufWriter::new(rt.alloc(), io::writer(&rt))?;
    each(&mut out, &files)?;
    out.flush()
}
