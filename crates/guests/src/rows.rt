// The rows of the script, as the rehearsal's (crate `stage`); the amount may be a card.
use crate::calls::{host_call, host_call_name};
use crate::lines;
use crate::room::Room;
use stage::program::heading;
use stage::row::Row;
use stage::shown::opening_number;
use std::io;
use std::io::Write;

fn play<W: Write>(out: &mut W, room: &mut Room, row: Row<'_>) -> io::Result<()> {
    let call = host_call(row.letter(), row.at(), row.amount());
    let answer = room.play(call);
    lines::called(out, host_call_name(call), answer.number, row.words)
}

// What the row asks of the room.
pub(crate) fn take<W: Write>(out: &mut W, room: &mut Room, row: Row<'_>) -> io::Result<()> {
    match row.letter() {
        b'#' => {}
        b'=' => heading(out, row.words)?,
        b'h' => lines::card(out, room.hosted, row.at())?,
        b'P' => room.put(row.at(), row.amount(), 0),
        b'T' => room.put(row.at(), 7, (row.amount() % 10_000_000) as u32),
        b'o' => room.stage.take_order(row),
        b'O' => {
            let number = opening_number(room.open(row));
            let words = row.opening_words().unwrap_or(b"");
            lines::called(out, b"open", number, words)?;
        }
        _ => play(out, room, row)?,
    }
    Ok(())
}
