// A rehearsal with the dealer's screen (request 2.12): plays a script of calls (file stdin) and draws the screen after each, with the display of the guest who called and the cashier's line. The
// expected drawing of a hand stands in the file stdout.
#![tactic(auto)]

mod rows;

use crate::rows::Show;
use stage::program::answer_script;
use std::io;

fn main(rt: HostRuntime) -> io::Result<()> {
    answer_script(
        &rt,
        rt.stdin(),
        io::writer(&rt),
        Show::new(),
        |out, show, row| show.take(out, row),
    )
}
