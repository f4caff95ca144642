// The archive for C and Rust, libdiscgauze.a: every function of the library discgauze, exported under its plain name. Each states the library's clauses again, and calls the library's function of that
// name.
#![tactic(auto)]

pub mod calls;
pub mod chances;
pub mod every_way;
pub mod file;
pub mod in_place;
pub mod lines;
pub mod shown;
