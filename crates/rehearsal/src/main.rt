// Rounds that display designers rehearse. The file stdin is the script, a call to a line; the expected lines, in the file stdout, are worked out
// by hand from document 01 and carry a word on what they show.
#![tactic(auto)]

mod calls;
mod lines;
mod rows;

use stage::Stage;
use stage::program::answer_script;
use std::io;

fn main(rt: HostRuntime) -> io::Result<()> {
    answer_script(&rt, rt.stdin(), io::writer(&rt), Stage::new(), rows::take)
}
