// The library for C and Rust: every public function of the engine under a plain name, over structs of C's layout, numbers and lent bytes. A call is a number with a seat, a
// position and an amount, as the session file has them. No function asks anything of its arguments, and each says what the engine's own definition says.
#![tactic(auto)]

pub mod calls;
pub mod chances;
pub mod every_way;
pub mod file;
pub mod in_place;
pub mod lines;
pub mod shown;
