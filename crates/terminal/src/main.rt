// A table in the terminal: whoever sits there types calls, a line each, and sees after each the dealer's screen, the display of the guest who called and the cashier's line. The same lines may come
// through a pipe (file stdin), and are then written before their answers, as a terminal shows them.
#![tactic(auto)]

mod amounts;
mod answers;
mod asked;
mod command;
mod desk;
mod files;
mod help;
mod houses;
mod lines;
mod names;
mod numbers;
mod orders;
mod reading;
mod words;

use crate::reading::session;
use std::io;
use std::io::{BufWriter, Write};

fn main(rt: HostRuntime) -> io::Result<()> {
    let mut out = BufWriter::new(rt.alloc(), io::writer(&rt))?;
    session(&rt, &mut rt.stdin(), &mut out)?;
    out.flush()
}
