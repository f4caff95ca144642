// Opening and stepping by value: a table goes in and the next one comes back.
ghost use Rattle.std.specs.Prelude.{◌≡◌};
ghost use Rattle.table.specs.Broken.{broken as is_broken};
ghost use Rattle.answer.specs.Outcome.{outcome};
ghost use Rattle.answer.specs.Reply.{given_by, given_of};
ghost use Rattle.cashier_spec.specs.Opening.{open_conditions, open_table, empty_table};
ghost use Rattle.discgauze.specs.Calls.{step_by};

use answer::outcome::Outcome;
use answer::reply::Reply;
use call::pay_line::LINES;
use options::Options;
use table::Table;

// A table with these options and this order, or a number and the empty table.
#[unsafe(no_mangle)]
pub extern "C" fn discgauze_opened(options: Options, order: &[u8]) -> Outcome
    ensures { result ≡ outcome (open_conditions options order.now) (open_table options order.now) empty_table }
{
    discgauze::calls::discgauze_opened(options, order)
}

// One step: the answer and the next table. An accepted close writes its pay lines into the two arrays. Bytes and two lent arrays: C hands them over.
#[unsafe(no_mangle)]
pub extern "C" fn discgauze_stepped(
    table: Table,
    kind: u8,
    seat: u8,
    position: u8,
    amount: u64,
    order: &[u8],
    names: &mut [u32; LINES],
    nets: &mut [i64; LINES],
) -> Reply
    ensures { given_of result names.new nets.new ≡ given_by (step_by table kind seat position amount order.now) names.old nets.old }
{
    discgauze::calls::discgauze_stepped(table, kind, seat, position, amount, order, names, nets)
}

// Whether the table is broken: every call would answer 1.
#[unsafe(no_mangle)]
pub extern "C" fn discgauze_broken(table: Table) -> bool
    ensures { result ≡ is_broken table }
{
    discgauze::calls::discgauze_broken(table)
}
