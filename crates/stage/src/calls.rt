// The calls of a script by their letters, and by the words that programs write for them.
ghost use Rattle.std.specs.Prelude.{◌≡◌};
ghost use Rattle.std.specs.Str.{IsUtf8};
ghost use Rattle.stage.specs.Letters.{call_of};
ghost use Rattle.stage.specs.Names.{name_of};

use call::{At, Call};

// The call that a letter stands for.
// Letters stay bytes, without an enum: a script is a text file, and every byte of it has its answer.
#[tactic(auto, unfolding(crate::specs::Letters::call_of))]
pub fn call_of(letter: u8, at: At, amount: u64) -> Call
    ensures { result ≡ call_of letter at amount }
{
    match letter {
        b'f' => Call::Fill(amount),
        b'c' => Call::Credit(amount),
        b'b' => Call::Buy(at, amount),
        b'x' => Call::Cash(at, amount),
        b's' => Call::Stake(at, amount),
        b'A' => Call::Side(at, 1, amount),
        b'B' => Call::Side(at, 2, amount),
        b'E' => Call::Side(at, 3, amount),
        b'F' => Call::Side(at, 4, amount),
        b'G' => Call::Side(at, 9, amount),
        b'D' => Call::Deal,
        b'i' => Call::Insure(at, amount),
        b'n' => Call::Stand(at),
        b'd' => Call::Draw(at),
        b'2' => Call::Double(at),
        b'p' => Call::Split(at),
        b'u' => Call::Surrender(at),
        b'e' => Call::Even(at),
        b'5' => Call::Five(at),
        b'C' => Call::Close,
        b'V' => Call::Void,
        _ => Call::Load,
    }
}

// The name of a call, a fixed byte string. It is UTF-8, so `str::from_utf8` gives it as text too.
pub fn call_name(call: Call) -> &'static [u8]
    ensures letters { result.now ≡ name_of call }
    ensures text { IsUtf8 result.now }
{
    match call {
        Call::Fill(_) => b"fill",
        Call::Credit(_) => b"credit",
        Call::Buy(..) => b"buy",
        Call::Cash(..) => b"cash",
        Call::Stake(..) => b"stake",
        Call::Deal => b"deal",
        Call::Insure(..) => b"insure",
        Call::Stand(_) => b"stand",
        Call::Draw(_) => b"draw",
        Call::Double(_) => b"double",
        Call::Split(_) => b"split",
        Call::Surrender(_) => b"surrender",
        Call::Even(_) => b"even",
        Call::Five(_) => b"five",
        Call::Close => b"close",
        Call::Void => b"void",
        Call::Load => b"load",
        Call::Side(..) => b"side",
    }
}

#[cfg(test)]
mod tests {
    use super::call_name;
    use call::{At, Call};

    // The words of document 01, and that of request 2.6 for a side stake of any kind.
    #[test]
    fn names_as_text(rt: HostRuntime) {
        let at = At {
            seat: 0,
            position: 0,
        };
        for (call, name) in [
            (Call::Fill(1), "fill"),
            (Call::Credit(1), "credit"),
            (Call::Buy(at, 1), "buy"),
            (Call::Cash(at, 1), "cash"),
            (Call::Stake(at, 1), "stake"),
            (Call::Deal, "deal"),
            (Call::Insure(at, 1), "insure"),
            (Call::Stand(at), "stand"),
            (Call::Draw(at), "draw"),
            (Call::Double(at), "double"),
            (Call::Split(at), "split"),
            (Call::Surrender(at), "surrender"),
            (Call::Even(at), "even"),
            (Call::Five(at), "five"),
            (Call::Close, "close"),
            (Call::Void, "void"),
            (Call::Load, "load"),
            (Call::Side(at, 9, 1), "side"),
        ] {
            assert_eq!(rt; str::from_utf8(call_name(call)).unwrap_or(""), name);
        }
    }
}
