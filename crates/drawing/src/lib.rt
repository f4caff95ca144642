// The drawing that programs share, from reading functions alone: the dealer's screen, a guest's display, the cashier's line.
#![tactic(auto)]

use call::At;
use dealer_screen::lights::{Lights, SeatLights};
use dealer_screen::{Screen, shown_screen};
use display::seat::shown_seat;
use display::{TableShown, shown_table, shown_turn};
use stage::shown::Cards;
use std::io::Write;
use std::{fmt, io};
use table::Table;

// The lit fields of a guest.
#[derive(Clone, Copy)]
struct Fields(Lights);

impl fmt::Display for Fields {
    fn fmt<W: fmt::Write>(&self, f: &mut fmt::Formatter<W>) -> fmt::Result {
        let l = self.0;
        let fields = [
            (l.buy, "buy"),
            (l.cash, "cash"),
            (l.stake, "stake"),
            (l.pair, "pair"),
            (l.sevens, "sevens"),
            (l.more, "more"),
            (l.less, "less"),
            (l.insure, "insure"),
            (l.stand, "stand"),
            (l.draw, "draw"),
            (l.double, "double"),
            (l.split, "split"),
            (l.surrender, "surrender"),
            (l.even, "even"),
            (l.five, "five"),
        ];
        for (lit, name) in fields {
            if lit {
                write!(f, " {name}")?;
            }
        }
        Ok(())
    }
}

// The three guests of a seat, side by side.
fn seat<W: Write>(out: &mut W, number: usize, s: SeatLights) -> io::Result<()> {
    let [seated, one, other] = s.guests;
    writeln!(
        out,
        "  seat {number} |{} |{} |{}",
        Fields(seated),
        Fields(one),
        Fields(other)
    )
}

// The seats that the house has.
fn seats<W: Write>(out: &mut W, screen: &Screen, many: u8) -> io::Result<()> {
    for (number, lights) in screen.seats.iter().enumerate().take(usize::from(many)) {
        seat(out, number, *lights)?;
    }
    Ok(())
}

// The rows that show a hand, by number from 1 with seat, place, cards and total, and the seventh line.
fn rows<W: Write>(out: &mut W, screen: &Screen) -> io::Result<()> {
    for (place, row) in screen.rows.iter().enumerate().take(screen.shown) {
        writeln!(
            out,
            "  row {}: seat {} hand {} {} {}",
            place + 1,
            row.seat,
            row.place,
            Cards(row.hand),
            row.total
        )?;
    }
    writeln!(out, "  hands beyond {}", screen.beyond)
}

// The shoe, the up card, and whose turn it is.
fn round<W: Write>(out: &mut W, t: Table, shown: &TableShown) -> io::Result<()> {
    write!(out, "  cards left {}, bank shows ", shown.left)?;
    if shown.bank.count == 0 {
        write!(out, "nothing")?;
    } else {
        write!(out, "{}", Cards(shown.bank))?;
    }
    let turn = shown_turn(t);
    if turn.somebody {
        writeln!(out, ", turn of seat {} hand {}", turn.seat, turn.place)
    } else {
        writeln!(out, ", nobody's turn")
    }
}

// What the guest's own display has.
fn guest<W: Write>(out: &mut W, t: Table, at: At) -> io::Result<()> {
    let At { seat, position } = at;
    let g = shown_seat(t, seat, position);
    write!(
        out,
        "  display of seat {seat} guest {position}: purse {}, ",
        g.purse
    )?;
    write!(out, "stake {}, insurance {}, ", g.stake, g.insurance)?;
    writeln!(
        out,
        "layout {}, prizes {}, hands {}",
        g.layout, g.prizes, g.hands
    )
}

// The cashier's line.
fn cashier<W: Write>(out: &mut W, shown: &TableShown) -> io::Result<()> {
    writeln!(
        out,
        "  cashier: tray {}, layout {}, purses {}",
        shown.tray, shown.layout, shown.purses
    )
}

// Everything that is seen of a table: the screen, that guest's display, the cashier's line.
pub fn drawn<W: Write>(out: &mut W, t: Table, at: At) -> io::Result<()> {
    let shown = shown_table(t);
    let screen = shown_screen(t);
    round(out, t, &shown)?;
    seats(out, &screen, shown.options.seats)?;
    rows(out, &screen)?;
    guest(out, t, at)?;
    cashier(out, &shown)
}
