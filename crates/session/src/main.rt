// The marked session of document 01. Every figure is read from the answer and the table that a step gave.
#![tactic(auto)]

use cashier::opening::opened;
use stage::calls::call_name;
use stage::house::marked;
use stage::marked::{marked_calls, marked_order};
use stage::pay_lines::PayLines;
use stage::program::call_heading;
use stage::shown::CallLine;
use std::io;
use std::io::{BufWriter, Write};
use table::Table;

// The calls of the session, from the table that the opening gave, each with its line.
fn calls<W: Write>(out: &mut W, opened: Table, order: &[u8]) -> io::Result<()> {
    let mut lines = PayLines::new();
    let mut table = opened;
    for call in marked_calls() {
        let reply = lines.step(table, call, order);
        table = reply.table;
        let line = CallLine {
            name: call_name(call),
            number: reply.answer.number,
            table,
        };
        writeln!(out, "{line}")?;
    }
    Ok(())
}

fn main(rt: HostRuntime) -> io::Result<()> {
    let mut out = BufWriter::new(rt.alloc(), io::writer(&rt))?;
    call_heading(&mut out)?;
    let order = marked_order();
    let opened = opened(marked(), order.as_slice());
    let line = CallLine {
        name: b"open",
        number: opened.number,
        table: opened.table,
    };
    writeln!(out, "{line}")?;
    calls(&mut out, opened.table, order.as_slice())?;
    out.flush()
}
