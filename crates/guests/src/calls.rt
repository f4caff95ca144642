// The calls of the script: those of the table as the rehearsal's (crate `stage`), and arrivals and leavings.
use call::{At, Call};
use host_spec::HostCall;
use stage::calls::{call_name, call_of};

// Letters stay bytes, without an enum: a script is a text file, and every byte of it has its answer.
// a arrives with the card that the amount names, l leaves with it; z and y are the same for the largest number of 64 bits, a card like any other.
pub(crate) fn host_call(letter: u8, at: At, amount: u64) -> HostCall {
    match letter {
        b'a' => HostCall::Arrive(at, amount),
        b'l' => HostCall::Leave(amount),
        b'z' => HostCall::Arrive(at, u64::MAX),
        b'y' => HostCall::Leave(u64::MAX),
        _ => HostCall::Play(call_of(letter, at, amount)),
    }
}

// The name of a call, an arrival or a leaving.
pub(crate) fn host_call_name(call: HostCall) -> &'static [u8] {
    match call {
        HostCall::Arrive(..) => b"arrive",
        HostCall::Leave(_) => b"leave",
        // Calls that the script does not make.
        HostCall::Play(
            Call::Credit(_)
            | Call::Cash(..)
            | Call::Side(_, 9, _)
            | Call::Surrender(_)
            | Call::Even(_)
            | Call::Five(_),
        ) => b"load",
        HostCall::Play(played) => call_name(played),
    }
}
