// The rows of the script, read as the rehearsal's (crate `stage`). At 0 stands the letter, at 2 the up card, at 5 the decks, at 7 the depth, at 9 the device, at 11 the staked seats, from 21 on the words, or the cards.
use crate::{lines, packs, tables};
use bank_chances::chances;
use faces_left::faces_left;
use script::named::{cards_named, many_named, order_named};
use script::{card, digit};
use stage::program::{heading, refused};
use stage::row::Row;
use std::io;
use std::io::Write;

fn decks(row: Row<'_>) -> u8 {
    digit(row.front[5])
}

fn depth(row: Row<'_>) -> u8 {
    digit(row.front[7])
}

// The cards that are named, as a pack.
fn pack(row: Row<'_>) -> [u8; 52] {
    let cards = cards_named(row.words);
    packs::named(&cards[..many_named(row.words)])
}

// The up card and the faces left are those of the table.
fn of_table<W: Write>(out: &mut W, row: Row<'_>) -> io::Result<()> {
    let decks = decks(row);
    let order = order_named(row.words, decks);
    let table = tables::dealt(digit(row.front[9]), decks, digit(row.front[11]), order);
    let found = faces_left(table);
    // The number, as C reads it: 0 is accepted.
    if found.number != 0 {
        return refused(out, "refused", found.number);
    }
    lines::answer(out, chances(found.up, found.left, depth(row)))
}

// A row that begins with # is words.
pub(crate) fn question<W: Write>(out: &mut W, row: Row<'_>) -> io::Result<()> {
    if row.letter() == b'#' {
        return Ok(());
    }
    let up = card(row.front[2], row.front[3]);
    let decks = decks(row);
    let depth = depth(row);
    heading(out, row.letters)?;
    match row.letter() {
        b'd' => lines::answer(out, chances(up, packs::decks_less(decks, up), depth)),
        b'x' => lines::answer(out, chances(52, packs::decks_less(decks, 52), depth)),
        b'p' => lines::answer(out, chances(up, pack(row), depth)),
        _ => of_table(out, row),
    }
}
