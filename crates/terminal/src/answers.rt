// What an answer says: its number in words, what the dealer calls aloud, and at close the bank's cards and the pay lines.
use crate::numbers::Said;
use answer::reply::Answer;
use answer::scores::Scores;
use stage::pay_lines::PayLines;
use stage::shown::{Cards, Total};
use std::io;
use std::io::Write;

// The scores, each behind a stroke.
fn aloud<W: Write>(out: &mut W, s: Scores) -> io::Result<()> {
    if s.count == 0 {
        return Ok(());
    }
    write!(out, "  the dealer calls")?;
    for score in s.each.iter().take(s.count) {
        write!(out, " | {}", Total(*score))?;
    }
    writeln!(out)
}

// The bank's cards are there at an accepted close only.
fn settlement<W: Write>(out: &mut W, answer: Answer, lines: &PayLines) -> io::Result<()> {
    if answer.bank.count == 0 {
        return Ok(());
    }
    writeln!(out, "  the bank has {}", Cards(answer.bank))?;
    for line in lines.first(answer.lines) {
        write!(out, "  pay seat {} guest {} ", line.seat, line.position)?;
        writeln!(out, "{}: {}", line.purpose, line.net)?;
    }
    Ok(())
}

pub(crate) fn answered<W: Write>(out: &mut W, answer: Answer, lines: &PayLines) -> io::Result<()> {
    writeln!(out, "{}", Said(answer.number))?;
    aloud(out, answer.scores)?;
    settlement(out, answer, lines)
}
