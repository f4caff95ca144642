// All play that a just dealt table allows (request 2.11), a line for each list of decisions with its sum, and the best and the worst sum. The file stdin is the script; the expected
// lines, in the file stdout, are worked out by hand for the small tables.
#![tactic(auto)]

mod lines;
mod rows;

use stage::Stage;
use stage::program::answer_script;
use std::io;

fn main(rt: HostRuntime) -> io::Result<()> {
    answer_script(&rt, rt.stdin(), io::writer(&rt), Stage::new(), rows::take)
}
