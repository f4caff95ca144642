// The rows of the script, as crate `stage` has them: a call, an order or an opening, or something to be shown.
use crate::calls::call;
use crate::lines;
use stage::Stage;
use stage::program::heading;
use stage::row::Row;
use stage::shown::opening_number;
use std::io;
use std::io::Write;

// An opening, with its line; a row too short for the options opens nothing.
fn open<W: Write>(out: &mut W, stage: &mut Stage, row: Row<'_>) -> io::Result<()> {
    let Some(words) = row.opening_words() else {
        return Ok(());
    };
    let number = opening_number(stage.open(row.house()));
    lines::opened(out, number, stage.table, words)
}

// What the row asks of the stage.
pub(crate) fn take<W: Write>(out: &mut W, stage: &mut Stage, row: Row<'_>) -> io::Result<()> {
    match row.letter() {
        b'#' => Ok(()),
        b'=' => heading(out, row.words),
        b'h' => lines::hands(out, stage.table, row.at()),
        b'a' => lines::aloud(out, stage.aloud),
        b'k' => lines::bank(out, stage.table),
        b't' => lines::turn(out, stage.table),
        b'o' => {
            stage.take_order(row);
            Ok(())
        }
        b'O' => open(out, stage, row),
        _ => call(out, stage, row),
    }
}
