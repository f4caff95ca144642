// The input, line by line, up to its end or to quit. A read gives as much as there is: a part of a line, a line or many; the last line may have no line feed.
use crate::desk::Desk;
use crate::houses::House;
use crate::lines::{open_house, typed};
use std::io;
use std::io::{IsTerminal, Read, Write};
use std::rt::Files;

// As many letters as a line may have.
const LONGEST: usize = 256;

// The desk, the letters of the line so far, whether there were more than a line may have, and whether a terminal shows what is typed.
#[derive(Drop)]
struct Play {
    desk: Desk,
    line: Vec<u8>,
    // A fact of the line, with no value beside it.
    long: bool,
    terminal: bool,
}

impl Play {
    // The letters of a read behind the others; of a line that is too long no more are kept.
    fn add(&mut self, part: &[u8]) -> io::Result<()> {
        self.long = self.long || LONGEST - self.line.len().min(LONGEST) < part.len();
        if !self.long {
            self.line.extend_from_slice(part)?;
        }
        Ok(())
    }

    // The line as it was read: a terminal has shown it as it was typed.
    fn type_line<R: Files + AllocGlobal, W: Write>(
        &mut self,
        rt: &R,
        out: &mut W,
    ) -> io::Result<()> {
        if !self.terminal {
            write!(out, "> ")?;
            out.write_all(&self.line)?;
            writeln!(out)?;
        }
        typed(rt, out, &mut self.desk, &self.line)
    }

    // The line is over, and the next begins.
    fn end_line<R: Files + AllocGlobal, W: Write>(
        &mut self,
        rt: &R,
        out: &mut W,
    ) -> io::Result<()> {
        if self.desk.over {
            return Ok(());
        }
        if self.long {
            writeln!(
                out,
                "A line has at most 256 letters: the one that was longer is passed over."
            )?;
        } else {
            self.type_line(rt, out)?;
        }
        self.line.clear();
        self.long = false;
        Ok(())
    }

    // What one read gave.
    fn feed<R: Files + AllocGlobal, W: Write>(
        &mut self,
        rt: &R,
        out: &mut W,
        text: &[u8],
    ) -> io::Result<()> {
        for piece in text.split_inclusive(|letter| *letter == b'\n') {
            match piece.strip_suffix(b"\n") {
                Some(part) => {
                    self.add(part)?;
                    self.end_line(rt, out)?;
                }
                None => self.add(piece)?,
            }
        }
        Ok(())
    }

    // At the end of the input the letters that there are make the last line.
    fn end<R: Files + AllocGlobal, W: Write>(&mut self, rt: &R, out: &mut W) -> io::Result<()> {
        if self.terminal {
            writeln!(out)?;
        }
        if self.long || !self.line.is_empty() {
            self.end_line(rt, out)?;
        }
        self.desk.over = true;
        Ok(())
    }

    // One read; what was written so far is seen before it.
    fn turn<R: Files + AllocGlobal, I: Read, W: Write>(
        &mut self,
        rt: &R,
        input: &mut I,
        out: &mut W,
    ) -> io::Result<()> {
        if self.terminal {
            write!(out, "> ")?;
        }
        out.flush()?;
        let mut text = [0u8; 4096];
        match input.read(&mut text)? {
            0 => self.end(rt, out),
            count => self.feed(rt, out, &text[..count]),
        }
    }
}

// The first house, its order shuffled by seed 1. A proved loop has to end, and nothing says that the input does: so the turns are counted, up to a number that no run
// uses up.
pub(crate) fn session<R: Files + AllocGlobal, I: Read + IsTerminal, W: Write>(
    rt: &R,
    input: &mut I,
    out: &mut W,
) -> io::Result<()> {
    writeln!(
        out,
        "Discgauze: a blackjack table. Type a call, as fill 10000, buy 2 100, stake 2 20, deal; or help, houses, quit."
    )?;
    let mut play = Play {
        desk: Desk::new(rt.alloc()),
        line: Vec::new(rt.alloc()),
        long: false,
        terminal: input.is_terminal(),
    };
    open_house(out, &mut play.desk, House::Marked.options())?;
    // A loop with no end in sight: the count lets it be proved that it ends.
    for _ in 0..u64::MAX {
        if play.desk.over {
            break;
        }
        play.turn(rt, input, out)?;
    }
    Ok(())
}
