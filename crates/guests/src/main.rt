// Guests who come and go, rehearsed (request 2.13). The file stdin is the script, a row for each call, arrival or leaving; the expected lines, in the file stdout, are worked out by hand.
#![tactic(auto)]

mod calls;
mod lines;
mod room;
mod rows;

use crate::room::Room;
use stage::program::answer_script;
use std::io;

fn main(rt: HostRuntime) -> io::Result<()> {
    answer_script(&rt, rt.stdin(), io::writer(&rt), Room::new(), rows::take)
}
