// The fixed workload that the bench programs play: its houses and their orders, which call comes next, a checksum of what was played, and how many calls are asked for.
#![tactic(auto)]

pub mod checksum;
pub mod house;
pub mod plan;

use script::number;
use std::env::Env;

// A program's argument in decimal.
pub fn calls_asked<R: Env>(rt: &R) -> u64 {
    let mut word = [b' '; 9];
    match rt.arg(1, &mut word) {
        Ok(n) => number(&word[..n]),
        Err(_) => 0,
    }
}
