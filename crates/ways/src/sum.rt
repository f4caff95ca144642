// The sum of a list's pay lines and prizes, read off the money of all guests: what is in their purses behind close, less what they had on the table in this round before any prize.
ghost use Rattle.std.specs.Prelude.{◌≡◌, IfOk, []};
ghost use Rattle.call.specs.declared.Call.TheVariants.{Close};
ghost use Rattle.call.specs.Refusal.{number_in};
ghost use Rattle.engine.specs.Step.{number};
ghost use Rattle.ways.specs.Sum.{end_sum};

use crate::decide::close;
use call::refusal::Refusal;
use money::sums::table_sums;
use state::shape::table_shape;
use table::whole::Whole;

// Where close is refused no list ends.
pub(crate) fn end_sum(t: &Whole) -> Result<i64, Refusal>
    ensures number { number_in result ≡ number t.now Close [] }
    ensures sum { IfOk result (λ n. n ≡ end_sum t.now) }
{
    let table = *t.table();
    table_shape(table);
    let before = table_sums(table);
    let mut closed = *t;
    close(&mut closed)?;
    let after = table_sums(*closed.table());
    let had = before.purses + before.laid - before.prizes;
    Ok((after.purses as i64) - (had as i64))
}
