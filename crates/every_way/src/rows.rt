// The rows of the script, as the rehearsal's (crate `stage`): each is played in silence, but for = a heading, W all ways with their sums, and N their number alone.
use crate::lines;
use stage::Stage;
use stage::calls::call_of;
use stage::program::{heading, refused};
use stage::row::Row;
use std::io;
use std::io::Write;

// What the row asks of the stage; where a call is refused its number is written.
pub(crate) fn take<W: Write>(out: &mut W, stage: &mut Stage, row: Row<'_>) -> io::Result<()> {
    match row.letter() {
        b'#' => {}
        b'=' => heading(out, row.words)?,
        b'W' => lines::every_way(out, stage.table)?,
        b'N' => {
            lines::counted_ways(out, stage.table)?;
        }
        b'o' => stage.take_order(row),
        // A refused opening is not written; it leaves the empty table.
        b'O' => {
            let _ = stage.open(row.house());
        }
        letter => {
            let answer = stage.play(call_of(letter, row.at(), row.amount()));
            refused(out, "  call refused", answer.number)?;
        }
    }
    Ok(())
}
