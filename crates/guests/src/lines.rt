// What the program writes.
use call::At;
use host::shown::shown_card;
use host_spec::Hosted;
use stage::program::heading;
use stage::shown::Net;
use std::io;
use std::io::Write;

// The name of a call, its number, and the words of the script.
// The number is what is printed.
pub(crate) fn called<W: Write>(
    out: &mut W,
    name: &[u8],
    number: u8,
    what: &[u8],
) -> io::Result<()> {
    out.write_all(name)?;
    write!(out, " {number} | ")?;
    heading(out, what)
}

// What a display has of the card at a position.
pub(crate) fn card<W: Write>(out: &mut W, h: Hosted, at: At) -> io::Result<()> {
    let At { seat, position } = at;
    let shown = shown_card(h, seat, position);
    write!(out, "  seat {seat} position {position} ")?;
    if !shown.here {
        return writeln!(out, "no card");
    }
    write!(out, "card {} rounds {} ", shown.card, shown.rounds)?;
    writeln!(out, "wagered {} net {}", shown.wagered, Net(shown.net))
}
