// What a line does. One that says nothing well changes nothing.
use crate::answers::answered;
use crate::command::{Command, command_of};
use crate::desk::Desk;
use crate::help::HELP;
use crate::houses::Listed;
use crate::names::caller;
use crate::numbers::Said;
use crate::orders::by_seed;
use crate::{houses, numbers};
use call::{At, Call};
use cashier::opening::opening;
use drawing::drawn;
use options::Options;
use std::io;
use std::io::Write;
use std::rt::Files;

// A call; the table is drawn after it, with the display of the guest who called, behind a call of the house of the one who called last.
fn play<W: Write>(out: &mut W, d: &mut Desk, call: Call) -> io::Result<()> {
    let order = d.source.order_for(d.house.decks);
    let at = caller(call).unwrap_or(d.guest);
    let answer = d.call(call, order.as_slice())?;
    answered(out, answer, &d.lines)?;
    drawn(out, d.table, at)?;
    // An answer's number, as C reads it: 0 is accepted.
    if answer.number == 0 {
        d.guest = at;
    }
    Ok(())
}

// A new session in a house. A refused opening leaves the session that there is.
pub(crate) fn open_house<W: Write>(out: &mut W, d: &mut Desk, house: Options) -> io::Result<()> {
    let order = d.source.order_for(house.decks);
    match opening(house, order.as_slice()) {
        Ok(table) => {
            writeln!(out, "{}", Said(0))?;
            d.open(table, house, order.as_slice())?;
        }
        Err(why) => writeln!(out, "{}", Said(why.number()))?,
    }
    drawn(out, d.table, d.guest)
}

fn shuffle<W: Write>(out: &mut W, d: &mut Desk, seed: u64) -> io::Result<()> {
    writeln!(out, "The next open or load takes the order of seed {seed}.")?;
    d.source = by_seed(seed);
    Ok(())
}

fn order<W: Write>(out: &mut W, d: &mut Desk, letters: &[u8]) -> io::Result<()> {
    writeln!(out, "The next open or load takes these cards first.")?;
    d.source = d.source.by_cards(letters);
    Ok(())
}

fn show<W: Write>(out: &mut W, d: &mut Desk, at: Option<At>) -> io::Result<()> {
    d.guest = at.unwrap_or(d.guest);
    drawn(out, d.table, d.guest)
}

fn obey<R: Files + AllocGlobal, W: Write>(
    rt: &R,
    out: &mut W,
    d: &mut Desk,
    command: Command<'_>,
) -> io::Result<()> {
    match command {
        Command::Call(call) => play(out, d, call),
        Command::Help => write!(out, "{HELP}"),
        Command::Houses => houses::all(out),
        Command::Options => writeln!(out, "{}", Listed(d.house)),
        Command::Numbers => numbers::all(out),
        Command::House(house) => open_house(out, d, house.options()),
        Command::Open => open_house(out, d, d.house),
        Command::Shuffle(seed) => shuffle(out, d, seed.unwrap_or(d.source.next_seed())),
        Command::Order(letters) => order(out, d, letters),
        Command::Show(at) => show(out, d, at),
        Command::Save(name) => d.save(rt, out, name),
        Command::Replay(name) => d.replay_file(rt, out, name),
        Command::Quit => {
            d.over = true;
            Ok(())
        }
    }
}

// What the line says is done, or why it says nothing well is told.
pub(crate) fn typed<R: Files + AllocGlobal, W: Write>(
    rt: &R,
    out: &mut W,
    d: &mut Desk,
    line: &[u8],
) -> io::Result<()> {
    match command_of(line) {
        Ok(Some(said)) => obey(rt, out, d, said),
        Ok(None) => Ok(()),
        Err(fault) => fault.tell(out),
    }
}
