// The lines of an answer: all draws, then for each ending its count and its share in parts of ten thousand.
use bank_chances::BankChances;
use bank_chances::share::share;
use stage::program::refused;
use std::io;
use std::io::Write;

const ENDINGS: [&str; 8] = [
    "natural",
    "17",
    "18",
    "19",
    "20",
    "21",
    "bust",
    "unfinished",
];

pub(crate) fn answer<W: Write>(out: &mut W, c: BankChances) -> io::Result<()> {
    // The number, as C reads it: 0 is accepted.
    if c.number != 0 {
        return refused(out, "refused", c.number);
    }
    writeln!(out, "draws {}", c.all)?;
    for (ending, count) in ENDINGS.iter().zip(&c.counts) {
        writeln!(out, "{ending} {count} {}", share(*count, c.all))?;
    }
    Ok(())
}
