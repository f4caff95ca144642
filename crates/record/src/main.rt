// Writes the session file (request 2.9) of the marked session of document 01: each call is played, and the accepted ones are told to the writer.
#![tactic(auto)]

use answer::reply::Reply;
use call::Call;
use cashier::opening::opened;
use file_block::block::Block;
use file_writer::writer::Writer;
use stage::house::marked;
use stage::marked::{marked_calls, marked_order};
use stage::pay_lines::PayLines;
use std::io;
use std::io::{BufWriter, Write};
use table::Table;

// A table, the arrays that each call is lent, and the writer of its session.
#[derive(Clone, Copy)]
pub struct Session {
    pub table: Table,
    pub lines: PayLines,
    pub writer: Writer,
}

// The blocks that are complete.
fn write_blocks<W: Write>(out: &mut W, blocks: &[Block]) -> io::Result<()> {
    for block in blocks {
        out.write_all(block)?;
    }
    Ok(())
}

// One call: where it is accepted it is written.
fn told<W: Write>(out: &mut W, s: &mut Session, c: Call, order: &[u8]) -> io::Result<()> {
    let Reply { answer, table } = s.lines.step(s.table, c, order);
    s.table = table;
    // An answer's number, as C reads it: 0 is accepted.
    if answer.number != 0 {
        return Ok(());
    }
    match s.writer.add(c, order) {
        Ok(blocks) => write_blocks(out, blocks.as_slice()),
        Err(why) => writeln!(out, "{why}"),
    }
}

fn main(rt: HostRuntime) -> io::Result<()> {
    let mut out = BufWriter::new(rt.alloc(), io::writer(&rt))?;
    let cards = marked_order();
    let order = cards.as_slice();
    let begun = match Writer::begin(marked(), order) {
        Ok(begun) => begun,
        Err(why) => return writeln!(out, "{why}"),
    };
    let block = begun.1;
    out.write_all(&block)?;
    let mut s = Session {
        table: opened(marked(), order).table,
        lines: PayLines::new(),
        writer: begun.0,
    };
    for call in marked_calls() {
        told(&mut out, &mut s, call, order)?;
    }
    if let Some(last) = s.writer.end() {
        out.write_all(&last)?;
    }
    out.flush()
}
