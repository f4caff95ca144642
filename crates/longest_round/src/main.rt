// A round that takes as many calls as any can (request 2.14): nine seats of three guests against an ace, in the second deal of a shoe without later burn. 27 insurances, nine stands, and the bank
// takes one card: the accepted calls from deal to close are the cards drawn in it and 18 more. A refused call is written.
#![tactic(auto)]

use call::{At, Call};
use cashier::opening::opened;
use options::Options;
use script::orders::{Order, begun_order};
use stage::house::marked;
use stage::pay_lines::PayLines;
use stage::program::refused;
use std::io;
use std::io::{BufWriter, Write};
use table::Table;

// Nine seats.
fn house() -> Options {
    Options {
        seats: 9,
        ..marked()
    }
}

// A burnt card; ten and nine against ten and eight; then nine hands of 7 to 11 against ace and nine: the first cards, the ace, the second cards, the nine.
fn order() -> Order {
    begun_order(
        &[
            1, 9, 22, 8, 7, 14, 27, 40, 2, 15, 28, 41, 3, 16, 0, 4, 17, 30, 43, 5, 18, 31, 44, 6,
            21,
        ],
        1,
    )
}

// The table, how many calls it has accepted, and the arrays that each is lent.
#[derive(Drop)]
struct Play {
    table: Table,
    calls: u64,
    lines: PayLines,
}

impl Play {
    fn open<W: Write>(out: &mut W) -> io::Result<Self> {
        let opened = opened(house(), order().as_slice());
        refused(out, "refused", opened.number)?;
        Ok(Play {
            table: opened.table,
            calls: 0,
            lines: PayLines::new(),
        })
    }

    // A call; only an accepted one counts.
    fn call<W: Write>(&mut self, out: &mut W, call: Call) -> io::Result<()> {
        let reply = self.lines.step(self.table, call, b"");
        self.table = reply.table;
        // An answer's number, as C reads it: 0 is accepted.
        if reply.answer.number == 0 {
            self.calls = self.calls.saturating_add(1);
        }
        refused(out, "refused", reply.answer.number)
    }

    // What all 27 guests do.
    fn by_all<W: Write, F: Fn(At) -> Call + Drop>(&mut self, out: &mut W, call: F) -> io::Result<()>
        requires { F.IsAlwaysCallable call }
    {
        // The guests' numbers are what is called.
        for guest in 0u8..27 {
            let at = At {
                seat: guest / 3,
                position: guest % 3,
            };
            self.call(out, call(at))?;
        }
        Ok(())
    }

    // A short first round: one seat stakes and stands.
    fn first_round<W: Write>(&mut self, out: &mut W) -> io::Result<()> {
        let seated = At {
            seat: 0,
            position: 0,
        };
        self.call(out, Call::Stake(seated, 2))?;
        self.call(out, Call::Deal)?;
        self.call(out, Call::Stand(seated))?;
        self.call(out, Call::Close)
    }

    // From deal to close.
    fn long_round<W: Write>(&mut self, out: &mut W) -> io::Result<()> {
        self.call(out, Call::Deal)?;
        self.by_all(out, |at| Call::Insure(at, 1))?;
        // The seats' numbers are what is called.
        for seat in 0u8..9 {
            self.call(out, Call::Stand(At { seat, position: 0 }))?;
        }
        self.call(out, Call::Close)
    }

    // How many cards of the order are drawn.
    fn drawn(&self) -> usize {
        self.table.shoe.drawn
    }
}

fn main(rt: HostRuntime) -> io::Result<()> {
    let mut out = BufWriter::new(rt.alloc(), io::writer(&rt))?;
    let mut play = Play::open(&mut out)?;
    play.call(&mut out, Call::Fill(100_000))?;
    play.by_all(&mut out, |at| Call::Buy(at, 100))?;
    play.first_round(&mut out)?;
    play.by_all(&mut out, |at| Call::Stake(at, 2))?;
    let calls_before = play.calls;
    let drawn_before = play.drawn();
    play.long_round(&mut out)?;
    let calls = play.calls.saturating_sub(calls_before);
    let drawn = play.drawn().saturating_sub(drawn_before) as u64;
    writeln!(out, "accepted calls {calls}")?;
    writeln!(out, "cards drawn {drawn}")?;
    writeln!(out, "difference {}", calls.saturating_sub(drawn))?;
    out.flush()
}
