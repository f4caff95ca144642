// The bank's chances as a hall manager asks for them (request 2.10). The file stdin has a row for each question, and says how a row is written; the expected lines, in the
// file stdout, are worked out by a listing of all draws, or where these are too many by counting them apart from the engine.
#![tactic(auto)]

mod lines;
mod packs;
mod rows;
mod tables;

use stage::program::answer_script;
use std::io;

fn main(rt: HostRuntime) -> io::Result<()> {
    answer_script(&rt, rt.stdin(), io::writer(&rt), (), |out, _, row| {
        rows::question(out, row)
    })
}
