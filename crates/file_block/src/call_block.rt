// The call block (request 2.9): what is wrong with it, whether it ends in a load, and the call that ten bytes hold.
ghost use Rattle.std.specs.Prelude.{◌≡◌, ◌≤◌};
ghost use Rattle.std.specs.List.{list_any};
ghost use Rattle.call.specs.Refusal.{first, number_in};
ghost use Rattle.file_spec.specs.CallBlock.{many_in, codes_in, has_seat, has_amount, is_load_code, ends_in_load, call_conditions, call_of, code_call};
ghost use Rattle.file_block.specs.Aids.Codes.{faulty_code, ends_badly, has_calls, code_of};

use crate::block::{Block, all_zero, checks};
use call::refusal::Refusal;
use call::{At, Call};

// The kind of a load: a byte of the file, as the kinds below.
const LOAD: u8 = 17;

// A call's ten bytes, taken apart: its kind, the byte of its seat and its position, its amount. The kind is a number here and below, since a file's byte may be any of 256.
#[derive(Clone, Copy)]
pub(crate) struct Code {
    pub kind: u8,
    pub guest: u8,
    pub amount: u64,
}

impl From<&[u8; 10]> for Code {
    ghost from_gives = { λ bytes code. code ≡ code_of bytes.now };

    fn from(bytes: &[u8; 10]) -> Code {
        let &[kind, guest, a, b, c, d, e, f, g, h] = bytes;
        let amount = u64::from_le_bytes([a, b, c, d, e, f, g, h]);
        Code {
            kind,
            guest,
            amount,
        }
    }
}

// The kinds of calls with a seat.
fn has_seat(kind: u8) -> bool
    ensures { result ≡ has_seat kind }
{
    matches!(kind, 3..=5 | 7..=14 | 18..)
}

// The kinds of calls with an amount.
fn has_amount(kind: u8) -> bool
    ensures { result ≡ has_amount kind }
{
    matches!(kind, 0..=5 | 7 | 18..)
}

// Whether ten bytes make no call: an unknown kind, a seat or an amount at a call that has none.
#[tactic(auto, unfolding(crate::specs::Aids::Codes::faulty_code))]
fn faulty_code(bytes: &[u8; 10]) -> bool
    ensures { result ≡ faulty_code bytes.now }
{
    let Code {
        kind,
        guest,
        amount,
    } = Code::from(bytes);
    kind == 0 || 21 < kind || (!has_seat(kind) && guest != 0) || (!has_amount(kind) && amount != 0)
}

// Whether some of these calls is none.
fn has_fault(codes: &[[u8; 10]]) -> bool
    ensures { result ≡ list_any faulty_code codes.now }
{
    codes.iter().any(|code| faulty_code(code))
}

// The ten bytes of each call of a block.
fn codes(block: &Block) -> &[[u8; 10]]
    requires { many_in block.now ≤ 50 }
    ensures { result.now ≡ codes_in block.now }
{
    let end = 1 + 10 * (block[0] as usize);
    block[1..end].as_chunks().0
}

// Whether some of these calls is a load.
fn has_load(codes: &[[u8; 10]]) -> bool
    ensures { result ≡ list_any is_load_code codes.now }
{
    codes.iter().any(|code| code[0] == LOAD)
}

// Whether the last call of the block is a load.
pub fn ends_in_load(block: &Block) -> bool
    ensures { result ≡ ends_in_load block.now }
{
    let many = block[0] as usize;
    if many == 0 {
        return false;
    }
    let at = 10 * many - 9;
    at < 512 && block[at] == LOAD
}

// Whether a block ends where it should not: the last of the file in a load, another neither full nor in a load. `last` is a fact of the block's place, as in the definition.
fn ends_badly(last: bool, block: &Block) -> bool
    ensures { result ≡ ends_badly last block.now }
{
    let load = ends_in_load(block);
    if last { load } else { block[0] < 50 && !load }
}

// Whether a block has 1 to 50 calls, each of them one, no load before the last, zeros behind them, and ends where it may.
fn has_calls(last: bool, block: &Block) -> bool
    ensures { result ≡ has_calls last block.now }
{
    let many = block[0] as usize;
    if many == 0 || 50 < many {
        return false;
    }
    let codes = codes(block);
    !has_fault(codes)
        && !has_load(&codes[..many - 1])
        && all_zero(&block[1 + 10 * many..508])
        && !ends_badly(last, block)
}

// What is wrong with a call block: its check, else what it has.
pub fn check_calls(last: bool, block: &Block) -> Result<(), Refusal>
    ensures { number_in result ≡ first (call_conditions last block.now) }
{
    if !checks(block) {
        return Err(Refusal::FileCheck);
    }
    if !has_calls(last, block) {
        return Err(Refusal::FileContent);
    }
    Ok(())
}

// The call of a kind, 1 to 21; every other number is a side stake of no known kind.
#[tactic(auto, unfolding(file_spec::specs::CallBlock::call_of))]
pub fn call_of(kind: u8, at: At, amount: u64) -> Call
    ensures { result ≡ call_of kind at amount }
{
    match kind {
        1 => Call::Fill(amount),
        2 => Call::Credit(amount),
        3 => Call::Buy(at, amount),
        4 => Call::Cash(at, amount),
        5 => Call::Stake(at, amount),
        6 => Call::Deal,
        7 => Call::Insure(at, amount),
        8 => Call::Stand(at),
        9 => Call::Draw(at),
        10 => Call::Double(at),
        11 => Call::Split(at),
        12 => Call::Surrender(at),
        13 => Call::Even(at),
        14 => Call::Five(at),
        15 => Call::Close,
        16 => Call::Void,
        LOAD => Call::Load,
        _ => Call::Side(at, kind.saturating_sub(17), amount),
    }
}

// The call that ten bytes hold.
pub fn code_call(bytes: &[u8; 10]) -> Call
    ensures { result ≡ code_call bytes.now }
{
    let Code {
        kind,
        guest,
        amount,
    } = Code::from(bytes);
    let at = At {
        seat: guest % 16,
        position: guest / 16,
    };
    call_of(kind, at, amount)
}
