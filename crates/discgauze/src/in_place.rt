// A table of the caller's, opened and stepped in place, as C programs do it: where a call is refused the table stays as it was.
ghost use Rattle.std.specs.Prelude.{◌≡◌};
ghost use Rattle.answer.specs.Outcome.{make_outcome, outcome};
ghost use Rattle.answer.specs.Reply.{given_by, given_of, reply_of};
ghost use Rattle.cashier_spec.specs.Opening.{open_conditions, open_table};
ghost use Rattle.discgauze.specs.Calls.{step_by};

use crate::calls::{UNKNOWN_KIND, call_by, unknown_kind};
use answer::outcome::outcome_in;
use answer::reply::{Answer, scored_answer};
use answer::scores::no_scores;
use call::pay_line::LINES;
use cashier::opening::opening;
use engine::step_in_place;
use options::Options;
use table::Table;

// Opens a table: the number, 0 where it is accepted. Numbers, bytes and two lent arrays here and below: C hands them over and reads them.
#[unsafe(no_mangle)]
pub extern "C" fn discgauze_open(table: &mut Table, options: Options, order: &[u8]) -> u8
    ensures { make_outcome result table.new ≡ outcome (open_conditions options order.now) (open_table options order.now) table.old }
{
    let r = outcome_in(table, opening(options, order));
    *table = r.table;
    r.number
}

// One step; a call of unknown kind is refused.
fn stepped(
    table: &mut Table,
    kind: u8,
    seat: u8,
    position: u8,
    amount: u64,
    order: &[u8],
    names: &mut [u32; LINES],
    nets: &mut [i64; LINES],
) -> Answer
    ensures { given_of (reply_of result table.new) names.new nets.new ≡ given_by (step_by table.old kind seat position amount order.now) names.old nets.old }
{
    if unknown_kind(kind) {
        return scored_answer(UNKNOWN_KIND, no_scores());
    }
    let call = call_by(kind, seat, position, amount);
    step_in_place(table, call, order, names, nets)
}

// One step: the number, which stands in the answer too. An accepted close writes its pay lines into the two arrays.
#[unsafe(no_mangle)]
pub extern "C" fn discgauze_step(
    table: &mut Table,
    kind: u8,
    seat: u8,
    position: u8,
    amount: u64,
    order: &[u8],
    answer: &mut Answer,
    names: &mut [u32; LINES],
    nets: &mut [i64; LINES],
) -> u8
    ensures { (given_of (reply_of answer.new table.new) names.new nets.new ≡ given_by (step_by table.old kind seat position amount order.now) names.old nets.old)
        × (result ≡ answer.new.number) }
{
    let given = stepped(table, kind, seat, position, amount, order, names, nets);
    *answer = given;
    given.number
}
