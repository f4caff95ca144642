// A decision or close played on a table that is not broken: both by the engine's step, which leaves it not broken.
ghost use Rattle.std.specs.Prelude.{◌≡◌, []};
ghost use Rattle.call.specs.declared.Call.TheVariants.{Close};
ghost use Rattle.call.specs.Refusal.{number_in};
ghost use Rattle.engine.specs.Step.{number, next};
ghost use Rattle.ways.specs.Decisions.{decision as decision_of};

use call::pay_line::LINES;
use call::refusal::Refusal;
use call::{At, Call};
use engine::step_whole;
use state::shape::table_shape;
use table::whole::Whole;

// The kinds in the request's order: stand, draw, double, split, even, five. Bytes and no enum: a list of them crosses the C interface in a `Way`.
pub(crate) const KINDS: [u8; 6] = [8, 9, 10, 11, 13, 14];

fn decision(at: At, kind: u8) -> Call
    ensures { result ≡ decision_of at kind }
{
    match kind {
        8 => Call::Stand(at),
        9 => Call::Draw(at),
        10 => Call::Double(at),
        11 => Call::Split(at),
        13 => Call::Even(at),
        _ => Call::Five(at),
    }
}

// A call in place: a `Result` that holds the table is zeroed before it is filled, and with one every_way takes 1.46 times the instructions.
fn play(t: &mut Whole, c: Call) -> Result<(), Refusal>
    ensures number { number_in result ≡ number t.old c [] }
    ensures after { t.new ≡ next t.old c [] }
{
    let mut names = [0u32; LINES];
    let mut nets = [0i64; LINES];
    table_shape(*t.table());
    let r = step_whole(t, c, b"", &mut names, &mut nets);
    if let Ok(why) = Refusal::try_from(r.answer.number) {
        return Err(why);
    }
    *t = Whole::new(r.table);
    Ok(())
}

// The decision of that kind.
pub(crate) fn decide(t: &mut Whole, at: At, kind: u8) -> Result<(), Refusal>
    ensures number { number_in result ≡ number t.old (decision_of at kind) [] }
    ensures after { t.new ≡ next t.old (decision_of at kind) [] }
{
    play(t, decision(at, kind))
}

pub(crate) fn close(t: &mut Whole) -> Result<(), Refusal>
    ensures number { number_in result ≡ number t.old Close [] }
    ensures after { t.new ≡ next t.old Close [] }
{
    play(t, Call::Close)
}

// What close would say of a table that stays as it is.
pub(crate) fn check_close(t: &Whole) -> Result<(), Refusal>
    ensures { number_in result ≡ number t.now Close [] }
{
    let mut after = *t;
    close(&mut after)
}
