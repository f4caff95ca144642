// What the rehearsal writes: a line for each call, then the table or the pay lines that a row asks for.
use crate::calls::Called;
use answer::scores::Scores;
use call::At;
use cards::score::HandScore;
use display::hand::shown_hand;
use display::seat::shown_seat;
use display::{shown_table, shown_turn};
use rules::seat_hand::{BY_DOUBLE, BY_EVEN, BY_STAND, BY_SURRENDER, DEALT, NOT_ENDED, SPLIT};
use stage::Stage;
use stage::program::heading;
use stage::shown::{CallLine, Cards, Total};
use std::io::Write;
use std::{fmt, io};
use table::Table;

// The line of a call, with the words of the script.
fn words_behind<W: Write>(out: &mut W, line: CallLine, what: &[u8]) -> io::Result<()> {
    write!(out, "{line} | ")?;
    heading(out, what)
}

// The line of an opening.
// The number is what is printed, here and below.
pub(crate) fn opened<W: Write>(out: &mut W, number: u8, t: Table, what: &[u8]) -> io::Result<()> {
    let line = CallLine {
        name: b"open",
        number,
        table: t,
    };
    words_behind(out, line, what)
}

// A guest who is not the seated one, by position.
#[derive(Clone, Copy)]
struct Beside(u8);

impl fmt::Display for Beside {
    fn fmt<W: fmt::Write>(&self, f: &mut fmt::Formatter<W>) -> fmt::Result {
        match self.0 {
            0 => Ok(()),
            position => write!(f, " guest {position}"),
        }
    }
}

// What close shows: the bank's cards and the pay lines.
fn settlement<W: Write>(out: &mut W, called: &Called, stage: &Stage) -> io::Result<()> {
    let answer = called.answer;
    if answer.bank.count == 0 {
        return Ok(());
    }
    writeln!(out, "  bank {}", Cards(answer.bank))?;
    for line in stage.lines.first(answer.lines) {
        write!(out, "  seat {}{} ", line.seat, Beside(line.position))?;
        writeln!(out, "{} {}", line.purpose, line.net)?;
    }
    Ok(())
}

// The line of a call, and what it shows.
pub(crate) fn called<W: Write>(
    out: &mut W,
    called: &Called,
    stage: &Stage,
    what: &[u8],
) -> io::Result<()> {
    let line = CallLine {
        name: called.name,
        number: called.answer.number,
        table: stage.table,
    };
    words_behind(out, line, what)?;
    settlement(out, called, stage)
}

// What a display shows of the bank before close.
pub(crate) fn bank<W: Write>(out: &mut W, t: Table) -> io::Result<()> {
    let shown = shown_table(t);
    writeln!(out, "  bank shows {}", Cards(shown.bank))
}

// Where a hand comes from; any other code is the last of them.
// The codes here and below are bytes of the display, which C reads.
fn origin_words(origin: u8) -> &'static str {
    match origin {
        DEALT => "dealt",
        SPLIT => "split",
        _ => "split aces",
    }
}

// How a hand ended.
fn ended_words(ended: u8) -> &'static str {
    match ended {
        NOT_ENDED => "open",
        BY_STAND => "stood",
        BY_DOUBLE => "doubled",
        BY_SURRENDER => "surrendered",
        BY_EVEN => "even",
        _ => "five",
    }
}

// What the dealer called aloud.
pub(crate) fn aloud<W: Write>(out: &mut W, s: Scores) -> io::Result<()> {
    write!(out, "  aloud")?;
    if s.count == 0 {
        write!(out, " nothing")?;
    }
    for score in s.each.iter().take(s.count) {
        write!(out, " {}", Total(*score))?;
    }
    writeln!(out)
}

fn hand<W: Write>(out: &mut W, t: Table, at: At, place: usize) -> io::Result<()> {
    let h = shown_hand(t, at.seat, at.position, place);
    let total = Total(HandScore {
        total: h.total,
        soft: h.soft,
    });
    write!(out, "  hand {place} {} total {total} ", Cards(h.hand))?;
    let origin = origin_words(h.origin);
    let ended = ended_words(h.ended);
    writeln!(out, "wager {} {origin} {ended}", h.wager)
}

// The hands of a seat, in their places, with the wagers of one guest.
pub(crate) fn hands<W: Write>(out: &mut W, t: Table, at: At) -> io::Result<()> {
    let shown = shown_seat(t, at.seat, at.position);
    // The place is asked of the engine and printed.
    for place in 0..shown.hands.min(4) {
        hand(out, t, at, place)?;
    }
    Ok(())
}

// Whose turn it is, and the guest who decides.
pub(crate) fn turn<W: Write>(out: &mut W, t: Table) -> io::Result<()> {
    let shown = shown_turn(t);
    if !shown.somebody {
        return writeln!(out, "  nobody's turn");
    }
    let guest = Beside(shown.position);
    writeln!(
        out,
        "  turn of seat {}{guest} hand {}",
        shown.seat, shown.place
    )
}
