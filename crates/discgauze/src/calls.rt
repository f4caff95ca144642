// Opening and stepping by value: a table goes in and the next one comes back.
ghost use Rattle.std.specs.Prelude.{◌≡◌};
ghost use Rattle.table.specs.Broken.{broken as is_broken};
ghost use Rattle.answer.specs.Outcome.{outcome};
ghost use Rattle.answer.specs.Reply.{given_by, given_of};
ghost use Rattle.cashier_spec.specs.Opening.{open_conditions, open_table, empty_table};
ghost use Rattle.discgauze.specs.Calls.{unknown_kind, call_by, step_by};

use answer::outcome::Outcome;
use answer::reply::{Reply, plain_reply};
use broken::broken;
use call::pay_line::LINES;
use call::{At, Call};
use cashier::opening::opened;
use engine::step;
use file_block::call_block::call_of;
use options::Options;
use table::Table;

// The number of a call of unknown kind. A number and no Refusal: C reads it, and no call gives it.
pub const UNKNOWN_KIND: u8 = 255;

// Whether a number is no kind of call.
// C hands over any byte, here and below.
pub(crate) fn unknown_kind(kind: u8) -> bool
    ensures { result ≡ unknown_kind kind }
{
    (kind == 0) | (21 < kind)
}

// The call of these numbers.
pub(crate) fn call_by(kind: u8, seat: u8, position: u8, amount: u64) -> Call
    ensures { result ≡ call_by kind seat position amount }
{
    call_of(kind, At { seat, position }, amount)
}

// A table with these options and this order, or a number and the empty table.
#[unsafe(no_mangle)]
pub extern "C" fn discgauze_opened(options: Options, order: &[u8]) -> Outcome
    ensures { result ≡ outcome (open_conditions options order.now) (open_table options order.now) empty_table }
{
    opened(options, order)
}

// One step: the answer and the next table. An accepted close writes its pay lines into the two arrays. Two lent arrays: C lends them so.
#[unsafe(no_mangle)]
pub extern "C" fn discgauze_stepped(
    table: Table,
    kind: u8,
    seat: u8,
    position: u8,
    amount: u64,
    order: &[u8],
    names: &mut [u32; LINES],
    nets: &mut [i64; LINES],
) -> Reply
    ensures { given_of result names.new nets.new ≡ given_by (step_by table kind seat position amount order.now) names.old nets.old }
{
    if unknown_kind(kind) {
        return plain_reply(Outcome {
            number: UNKNOWN_KIND,
            table,
        });
    }
    step(
        table,
        call_by(kind, seat, position, amount),
        order,
        names,
        nets,
    )
}

// Whether the table is broken: every call would answer 1.
#[unsafe(no_mangle)]
pub extern "C" fn discgauze_broken(table: Table) -> bool
    ensures { result ≡ is_broken table }
{
    broken(&table)
}
