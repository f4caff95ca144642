// The rows of the script, as the rehearsal's (crate `stage`). = is a heading; Q plays what follows without a drawing, S draws again.
use call::At;
use drawing::drawn;
use stage::Stage;
use stage::calls::call_of;
use stage::program::heading;
use stage::row::Row;
use stage::shown::opening_number;
use std::io;
use std::io::Write;

// What is kept from row to row: the stage, and whether it is drawn.
#[derive(Drop)]
pub(crate) struct Show {
    stage: Stage,
    quiet: bool,
}

impl Show {
    pub(crate) fn new() -> Self {
        Show {
            stage: Stage::new(),
            quiet: false,
        }
    }

    // The words and the number of a call, then all that is seen of the table after it.
    // The number is what is printed.
    fn drawn<W: Write>(&self, out: &mut W, number: u8, at: At, what: &[u8]) -> io::Result<()> {
        if self.quiet {
            return Ok(());
        }
        out.write_all(what)?;
        writeln!(out, ": {number}")?;
        drawn(out, self.stage.table, at)
    }

    // An opening; a row too short for the options opens nothing.
    fn open<W: Write>(&mut self, out: &mut W, row: Row<'_>) -> io::Result<()> {
        let Some(words) = row.opening_words() else {
            return Ok(());
        };
        let number = opening_number(self.stage.open(row.house()));
        let seat = At {
            seat: 0,
            position: 0,
        };
        self.drawn(out, number, seat, words)
    }

    fn play<W: Write>(&mut self, out: &mut W, row: Row<'_>) -> io::Result<()> {
        let at = row.at();
        let answer = self.stage.play(call_of(row.letter(), at, row.amount()));
        self.drawn(out, answer.number, at, row.words)
    }

    // What the row asks of the stage.
    pub(crate) fn take<W: Write>(&mut self, out: &mut W, row: Row<'_>) -> io::Result<()> {
        match row.letter() {
            b'#' => {}
            b'=' => heading(out, row.words)?,
            b'Q' => self.quiet = true,
            b'S' => self.quiet = false,
            b'o' => self.stage.take_order(row),
            b'O' => self.open(out, row)?,
            _ => self.play(out, row)?,
        }
        Ok(())
    }
}
