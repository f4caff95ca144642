// The session as a file: saved, and read to be played again.
ghost use Rattle.std.specs.Prelude.{◌≤◌, IfOk, vec_len};

use crate::asked::{Fault, Needed};
use crate::desk::{Desk, ROOM};
use crate::names::Typed;
use crate::numbers::Said;
use display::shown_table;
use drawing::drawn;
use replaying::open_file;
use session_file::reader::{Handed, Reader, file_options, file_order, part};
use std::alloc::{AllocError, Global};
use std::fs::OpenOptions;
use std::io::{Read, Write};
use std::rt::Files;
use std::{fs, io};
use table::Table;

// A new file of that name, where one can be made; a name is text.
fn new_file<R: Files>(rt: &R, name: &[u8]) -> Option<R::File> {
    let path = str::from_utf8(name).ok()?;
    OpenOptions::new()
        .write(true)
        .create_new(true)
        .open(rt, path)
        .ok()
}

// The file of that name, to be read.
fn old_file<R: Files>(rt: &R, name: &[u8]) -> Option<R::File> {
    let path = str::from_utf8(name).ok()?;
    fs::open(rt, path).ok()
}

// The bytes of the file that there is room for; a read that fails is the end of the file. A file's bytes are not known, so it is the cut that says how many there are.
fn read_full<F: Read + Drop>(alloc: Global, from: F) -> Result<Vec<u8>, AllocError>
    ensures { IfOk result (λ text. vec_len text ≤ ROOM) }
{
    let mut text = Vec::with_capacity(alloc, ROOM)?;
    let _ = from.take(ROOM as u64).read_to_end(&mut text);
    text.truncate(ROOM);
    Ok(text)
}

// Tray, layout, purses and cards left.
fn figures<W: Write>(out: &mut W, t: Table) -> io::Result<()> {
    let shown = shown_table(t);
    write!(out, ": tray {}, layout {}, ", shown.tray, shown.layout)?;
    writeln!(out, "purses {}, cards left {}", shown.purses, shown.left)
}

impl Desk {
    // The complete blocks and the one that is still open.
    fn write_to<F: Write>(&self, to: &mut F) -> io::Result<()> {
        to.write_all(&self.file)?;
        match self.writer.end() {
            Some(block) => to.write_all(&block),
            None => Ok(()),
        }
    }

    // A file of that name must not be there yet, so that none is lost.
    pub(crate) fn save<R: Files, W: Write>(
        &self,
        rt: &R,
        out: &mut W,
        name: &[u8],
    ) -> io::Result<()> {
        if self.lost {
            return writeln!(out, "The session is too long for this program to save.");
        }
        match new_file(rt, name) {
            Some(mut to) => match self.write_to(&mut to) {
                Ok(()) => writeln!(out, "The session is saved."),
                Err(_) => writeln!(out, "The file could not be written whole."),
            },
            None => Fault::Wrong(name, Needed::NewFile).tell(out),
        }
    }

    // One call of the file, with a line of its own.
    fn replay_call<W: Write>(&mut self, out: &mut W, from: &[u8], h: Handed) -> io::Result<()> {
        let answer = self.call(h.call, part(from, h.order, h.cards))?;
        write!(out, "  {}: {}", Typed(h.call), Said(answer.number))?;
        figures(out, self.table)
    }

    // All calls of a file that is not refused.
    fn replay_calls<W: Write>(&mut self, out: &mut W, from: &[u8]) -> io::Result<()> {
        for handed in Reader::of_checked(from) {
            self.replay_call(out, from, handed)?;
        }
        Ok(())
    }

    // The whole file is checked first. A refused one changes nothing; behind the calls of another the table is drawn.
    fn replay<W: Write>(&mut self, out: &mut W, from: &[u8]) -> io::Result<()> {
        match open_file(from) {
            Ok(opened) => {
                writeln!(out, "{}", Said(0))?;
                self.open(*opened.table(), file_options(from), file_order(from))?;
                self.replay_calls(out, from)?;
                drawn(out, self.table, self.guest)
            }
            Err(why) => writeln!(out, "{}", Said(why.number())),
        }
    }

    // The session of that file takes the place of this one.
    pub(crate) fn replay_file<R: Files + AllocGlobal, W: Write>(
        &mut self,
        rt: &R,
        out: &mut W,
        name: &[u8],
    ) -> io::Result<()> {
        let Some(from) = old_file(rt, name) else {
            return Fault::Wrong(name, Needed::ReadableFile).tell(out);
        };
        let text = read_full(rt.alloc(), from)?;
        if text.len() == ROOM {
            return writeln!(out, "The file is too long for this program.");
        }
        self.replay(out, &text)
    }
}
