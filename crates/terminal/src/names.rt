// The calls as they are typed.
use call::{At, Call};
use stage::calls::call_name;
use stage::shown::Letters;
use std::fmt;

// A guest: the position is written where it is not the seated guest's.
#[derive(Clone, Copy)]
struct Guest(At);

impl fmt::Display for Guest {
    fn fmt<W: fmt::Write>(&self, f: &mut fmt::Formatter<W>) -> fmt::Result {
        match self.0 {
            At { seat, position: 0 } => write!(f, "{seat}"),
            At { seat, position } => write!(f, "{seat}.{position}"),
        }
    }
}

// A call with what stands behind its name.
#[derive(Clone, Copy)]
pub(crate) struct Typed(pub(crate) Call);

// A side stake goes by its kind.
fn typed_name(call: Call) -> &'static [u8] {
    match call {
        Call::Side(_, 1, _) => b"pair",
        Call::Side(_, 2, _) => b"sevens",
        Call::Side(_, 3, _) => b"more",
        Call::Side(_, 4, _) => b"less",
        _ => call_name(call),
    }
}

impl fmt::Display for Typed {
    fn fmt<W: fmt::Write>(&self, f: &mut fmt::Formatter<W>) -> fmt::Result {
        write!(f, "{}", Letters(typed_name(self.0)))?;
        match self.0 {
            Call::Fill(amount) | Call::Credit(amount) => write!(f, " {amount}"),
            Call::Buy(at, amount)
            | Call::Cash(at, amount)
            | Call::Stake(at, amount)
            | Call::Insure(at, amount)
            | Call::Side(at, _, amount) => write!(f, " {} {amount}", Guest(at)),
            Call::Stand(at)
            | Call::Draw(at)
            | Call::Double(at)
            | Call::Split(at)
            | Call::Surrender(at)
            | Call::Even(at)
            | Call::Five(at) => write!(f, " {}", Guest(at)),
            Call::Deal | Call::Close | Call::Void | Call::Load => Ok(()),
        }
    }
}

// The guest who makes a call; none where it is the house's.
pub(crate) fn caller(call: Call) -> Option<At> {
    match call {
        Call::Buy(at, _)
        | Call::Cash(at, _)
        | Call::Stake(at, _)
        | Call::Insure(at, _)
        | Call::Side(at, _, _)
        | Call::Stand(at)
        | Call::Draw(at)
        | Call::Double(at)
        | Call::Split(at)
        | Call::Surrender(at)
        | Call::Even(at)
        | Call::Five(at) => Some(at),
        Call::Fill(_) | Call::Credit(_) | Call::Deal | Call::Close | Call::Void | Call::Load =>
            None,
    }
}
