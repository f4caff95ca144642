// What a line needs and does not say well is told in a sentence.
use crate::amounts::{amount_in, guest_in};
use crate::words::Words;
use call::At;
use std::io::Write;
use std::{fmt, io};

pub(crate) fn first_guest() -> At {
    At {
        seat: 0,
        position: 0,
    }
}

// What a word of the line should be.
#[derive(Clone, Copy, Debug, PartialEq, Eq)]
pub(crate) enum Needed {
    KnownWord,
    Amount,
    Seat,
    House,
    Cards,
    FileName,
    SessionFile,
    NewFile,
    ReadableFile,
}

impl fmt::Display for Needed {
    fn fmt<W: fmt::Write>(&self, f: &mut fmt::Formatter<W>) -> fmt::Result {
        f.write_str(match self {
            Needed::KnownWord => "a word that this table knows: help lists them",
            Needed::Amount => "an amount: a number of at most 16 digits",
            Needed::Seat => "a seat: a number as 2, or 2.1 for position 1 of seat 2",
            Needed::House => "a house: houses lists them",
            Needed::Cards => {
                "cards: at most 64, each a rank A 2 to 9 T J Q K and a suit a to d, as 7a9d7b"
            }
            Needed::FileName => "the name of a new file",
            Needed::SessionFile => "the name of a session file",
            Needed::NewFile => "a name that a new file can have here",
            Needed::ReadableFile => "the name of a file that can be read here",
        })
    }
}

// Why a line says nothing well.
#[derive(Clone, Copy)]
pub(crate) enum Fault<'a> {
    Missing(Needed),
    Wrong(&'a [u8], Needed),
    TooMuch,
}

impl Fault<'_> {
    // A word may be any bytes, so the sentence goes to a writer: text alone could not hold it.
    pub(crate) fn tell<W: Write>(&self, out: &mut W) -> io::Result<()> {
        match self {
            Fault::Missing(needed) => writeln!(out, "That line needs {needed}."),
            Fault::Wrong(word, needed) => {
                write!(out, "\"")?;
                out.write_all(word)?;
                writeln!(out, "\" is not {needed}.")
            }
            Fault::TooMuch => writeln!(out, "There is more on that line than it needs."),
        }
    }
}

// The next word; it may not be missing.
pub(crate) fn word_of<'a>(words: &mut Words<'a>, needed: Needed) -> Result<&'a [u8], Fault<'a>> {
    words.next().ok_or(Fault::Missing(needed))
}

pub(crate) fn amount_of<'a>(words: &mut Words<'a>) -> Result<u64, Fault<'a>> {
    let word = word_of(words, Needed::Amount)?;
    amount_in(word).ok_or(Fault::Wrong(word, Needed::Amount))
}

pub(crate) fn guest_of<'a>(words: &mut Words<'a>) -> Result<At, Fault<'a>> {
    let word = word_of(words, Needed::Seat)?;
    guest_in(word).ok_or(Fault::Wrong(word, Needed::Seat))
}

// Nothing may stand behind what a line needs.
pub(crate) fn end_of<'a>(words: &mut Words<'a>) -> Result<(), Fault<'a>> {
    match words.next() {
        None => Ok(()),
        Some(_) => Err(Fault::TooMuch),
    }
}
