// A fixed workload of whole sessions, for as many calls as the argument says; then a checksum of money and cards.
#![tactic(auto)]

use broken::broken;
use call::pay_line::LINES;
use cashier::opening;
use engine::step_in_place;
use std::io;
use table::Table;
use workload::calls_asked;
use workload::checksum::of_step;
use workload::house::{cards_of, options_of, order_of};
use workload::plan::{Plan, Stage, after, chosen, start};

// A session's first table.
fn opened(p: Plan) -> Table {
    let cards = order_of(p.decks, p.seed);
    let n = cards_of(p.decks);
    opening::opened(options_of(p.decks), &cards[..n]).table
}

// A run that ends on a broken table has no checksum.
// `damaged` is a fact of the run and no choice of the caller's.
fn whole(sum: u64, damaged: bool) -> u64 {
    if damaged { 0 } else { sum }
}

// The checksum after these calls. The order is lent to each of them, and only a load reads it.
fn played(calls: u64) -> u64 {
    let mut p = start();
    let mut t = opened(p);
    let mut cards = order_of(p.decks, p.seed);
    let mut names = [0u32; LINES];
    let mut nets = [0i64; LINES];
    let mut sum: u64 = 0;
    // So many calls: nothing is gone through.
    for _ in 0..calls {
        if p.stage == Stage::Open {
            t = opened(p);
            p.stage = Stage::Fill;
        }
        if p.stage == Stage::Load {
            cards = order_of(p.decks, p.seed);
        }
        let many = cards_of(p.decks);
        let answer = step_in_place(&mut t, chosen(p), &cards[..many], &mut names, &mut nets);
        sum = of_step(sum, answer, t);
        p = after(p, answer.number, t);
    }
    whole(sum, broken(&t))
}

fn main(rt: HostRuntime) -> io::Result<()> {
    let calls = calls_asked(&rt);
    let sum = played(calls);
    println!(rt; "{calls} calls, checksum {sum}")
}
