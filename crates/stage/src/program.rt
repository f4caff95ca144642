// What the programs of scripts share: the text is read whole, its rows are taken one after another, and what is written of it is gathered.
ghost use Rattle.std.specs.Prelude.{◌≡◌, OnOk, ◌++◌, ◌∷◌, [], codes, map, filter};
ghost use Rattle.std.specs.Iterator.{IsFinite, Drains};
ghost use Rattle.std.specs.List.{FoldsTo};
ghost use Rattle.std.specs.Io.KnownBytes.{Appends, Keeps};
ghost use Rattle.stage.specs.Script.{TakesRow, IsRead, is_row, rows_in};

use crate::row::Row;
use std::io;
use std::io::{BufWriter, Read, Write};

// As many bytes as are read.
const ROOM: u64 = 65536;

// Each of the lines that is long enough to be a row, up to the first that fails.
fn each_row<'a, L: Iterator<Item = &'a [u8]> + Drop, W, S: Drop, F>(
    lines: L,
    out: &mut W,
    begun: S,
    take: F,
) -> io::Result<()>
where
    F: Fn(&mut W, &mut S, Row<'_>) -> io::Result<()> + Drop,
    requires can { L.can_next lines }
    requires finite { IsFinite (L.remaining lines) }
    requires callable { F.IsAlwaysCallable take }
    ensures { OnOk result ((xs : _) × (last : _) × Drains L.next_gives lines xs × FoldsTo (TakesRow F.Fn take) (out.old, begun) (filter is_row (map (λ x. x.now) xs)) (out.new, last)) }
{
    let mut state = begun;
    for line in lines {
        if let Some(row) = Row::read(line) {
            take(out, &mut state, row)?;
        }
    }
    Ok(())
}

// All that a program does: it reads its script, takes each row by the closure, with what is written to and what is kept from row to row, and flushes; it succeeds only where the closure did at each.
pub fn answer_script<R: AllocGlobal, I: Read + Drop, O: Write + Drop, S: Drop, F>(
    rt: &R,
    script: I,
    to: O,
    begun: S,
    take: F,
) -> io::Result<()>
where
    F: Fn(&mut BufWriter<O>, &mut S, Row<'_>) -> io::Result<()> + Drop,
    requires { F.IsAlwaysCallable take }
    ensures { OnOk result ((out : _) × (text : _) × (last : _) × IsRead (I.remaining script) text × FoldsTo (TakesRow F.Fn take) (out, begun) (rows_in text) last) }
{
    let mut text = Vec::new(rt.alloc());
    script.take(ROOM).read_to_end(&mut text)?;
    let mut out = BufWriter::new(rt.alloc(), to)?;
    let lines = text.split(|letter| *letter == b'\n');
    each_row(lines, &mut out, begun, take)?;
    out.flush()
}

// What the script says of the rows that follow.
pub fn heading<W: Write>(out: &mut W, words: &[u8]) -> io::Result<()>
    ensures { OnOk result (Appends (W.contents out.old) (W.contents out.new) (words.now ++ (10 ∷ []))) }
{
    out.write_all(words)?;
    out.write_all(b"\n")
}

// What stands above the lines of calls (`shown::CallLine`).
pub fn call_heading<W: Write>(out: &mut W) -> io::Result<()>
    ensures { OnOk result (Appends (W.contents out.old) (W.contents out.new) (codes "call no tray layout purses left" ++ (10 ∷ []))) }
{
    heading(out, b"call no tray layout purses left")
}

// The number of a refused call or question, behind these words; an accepted one, whose number is 0, writes nothing.
// The number is what is printed.
pub fn refused<W: Write>(out: &mut W, words: &str, number: u8) -> io::Result<()>
    ensures { number ≡ 0 → Keeps (W.contents out.old) (W.contents out.new) }
{
    if number == 0 {
        return Ok(());
    }
    writeln!(out, "{words} {number}")
}
