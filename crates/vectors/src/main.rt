// Examples of the rules that calls and history share: for each clause of waiting, permission and payment one that tells it
// from its neighbour. The file stdin is the table of them; the expected lines, in the file stdout, are worked out by hand
// from document 01.
#![tactic(auto)]

mod answered;
mod example;
mod rule;

use crate::example::Example;
use crate::rule::answer;
use std::io;
use std::io::{BufWriter, Read, Write};

// As many bytes as are read.
const ROOM: u64 = 65536;

// A line for each example: its words, then what the rule answers.
fn each<W: Write>(out: &mut W, text: &[u8]) -> io::Result<()> {
    let lines = text.split(|letter| *letter == b'\n');
    for example in lines.filter_map(Example::read) {
        if let Some(answered) = answer(example) {
            out.write_all(example.words)?;
            writeln!(out, ": {answered}")?;
        }
    }
    Ok(())
}

fn main(rt: HostRuntime) -> io::Result<()> {
    let mut text = Vec::new(rt.alloc());
    rt.stdin().take(ROOM).read_to_end(&mut text)?;
    let mut out = BufWriter::new(rt.alloc(), io::writer(&rt))?;
    each(&mut out, &text)?;
    out.flush()
}
