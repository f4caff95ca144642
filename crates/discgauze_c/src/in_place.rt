// A table of the caller's, opened and stepped in place, as C programs do it. Where a call is refused the table is as it was.
ghost use Rattle.std.specs.Prelude.{◌≡◌};
ghost use Rattle.answer.specs.Outcome.{make_outcome, outcome};
ghost use Rattle.answer.specs.Reply.{given_by, given_of, reply_of};
ghost use Rattle.cashier_spec.specs.Opening.{open_conditions, open_table};
ghost use Rattle.discgauze.specs.Calls.{step_by};

use answer::reply::Answer;
use call::pay_line::LINES;
use options::Options;
use table::Table;

// Opens a table: the number, 0 where it is accepted. Numbers, bytes and two lent arrays here and below: C hands them over and reads them.
#[unsafe(no_mangle)]
pub extern "C" fn discgauze_open(table: &mut Table, options: Options, order: &[u8]) -> u8
    ensures { make_outcome result table.new ≡ outcome (open_conditions options order.now) (open_table options order.now) table.old }
{
    discgauze::in_place::discgauze_open(table, options, order)
}

// One step: the number, which stands in the answer too. An accepted close writes its pay lines into the two arrays.
#[unsafe(no_mangle)]
pub extern "C" fn discgauze_step(
    table: &mut Table,
    kind: u8,
    seat: u8,
    position: u8,
    amount: u64,
    order: &[u8],
    answer: &mut Answer,
    names: &mut [u32; LINES],
    nets: &mut [i64; LINES],
) -> u8
    ensures { (given_of (reply_of answer.new table.new) names.new nets.new ≡ given_by (step_by table.old kind seat position amount order.now) names.old nets.old)
        × (result ≡ answer.new.number) }
{
    discgauze::in_place::discgauze_step(
        table, kind, seat, position, amount, order, answer, names, nets,
    )
}
