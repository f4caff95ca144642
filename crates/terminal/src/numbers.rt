// The numbers of all answers in words.
use call::refusal::Refusal;
use std::io::Write;
use std::{fmt, io};

// A number, and what it says.
#[derive(Clone, Copy)]
pub(crate) struct Said(pub(crate) u8);

impl fmt::Display for Said {
    fn fmt<W: fmt::Write>(&self, f: &mut fmt::Formatter<W>) -> fmt::Result {
        let number = self.0;
        match Refusal::try_from(number) {
            Ok(refusal) => write!(f, "{number} {refusal}"),
            // No refusal: accepted, or no number of the papers.
            Err(_) if number == 0 => write!(f, "{number} accepted"),
            Err(_) => write!(f, "{number} a number that no answer has"),
        }
    }
}

// All of them.
pub(crate) fn all<W: Write>(out: &mut W) -> io::Result<()> {
    // The numbers are what is printed.
    for number in 0u8..30 {
        writeln!(out, "  {}", Said(number))?;
    }
    Ok(())
}
