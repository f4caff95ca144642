// Playing a session file (request 2.9): the whole file is checked first, then its calls are played one after another. An accepted call leaves a whole table whole, so broken is not asked
// again. Calls that the table refuses leave it as it was.
#![tactic(auto)]

ghost use Rattle.std.specs.Prelude.{◌≡◌};
ghost use Rattle.answer.specs.Reply.{given_by, given_of, reply_of};
ghost use Rattle.engine.specs.Step.{step as step_by};
ghost use Rattle.books.specs.Laws.{Whole as IsWhole};
ghost use Rattle.session_file.specs.Reader.{order_of};
ghost use Rattle.replaying.specs.Playing.{Opened, Played, outcome_of};

use answer::reply::Answer;
use call::pay_line::LINES;
use call::refusal::Refusal;
use cashier::opening::opening;
use engine::step_whole;
use session_file::check::check_file;
use session_file::reader::{Handed, Reader, file_options, file_order, part};
use state::shape::table_shape;
use table::whole::Whole;

// What a file's session opens with, or why the file is refused. What passes its check opens, and is not broken.
pub fn open_file(file: &[u8]) -> Result<Whole, Refusal>
    ensures { Opened file.now (outcome_of result) }
{
    check_file(file)?;
    Ok(Whole::new(opening(file_options(file), file_order(file))?))
}

// One call that the file hands out, in place.
// Two lent arrays, as the engine takes them.
pub fn play_call(
    t: &mut Whole,
    file: &[u8],
    h: Handed,
    names: &mut [u32; LINES],
    nets: &mut [i64; LINES],
) -> Answer
    ensures step { given_of (reply_of result t.new) names.new nets.new ≡ given_by (step_by t.old h.call (order_of file.now h)) names.old nets.old }
    ensures whole { IsWhole t.new }
{
    table_shape(*t.table());
    let reply = step_whole(t, h.call, part(file, h.order, h.cards), names, nets);
    *t = Whole::new(reply.table);
    reply.answer
}

// A whole file: the table after all its calls, or why it is refused.
pub fn play(file: &[u8]) -> Result<Whole, Refusal>
    ensures { Played file.now (outcome_of result) }
{
    let mut table = open_file(file)?;
    let mut names = [0; LINES];
    let mut nets = [0; LINES];
    for handed in Reader::of_checked(file) {
        play_call(&mut table, file, handed, &mut names, &mut nets);
    }
    Ok(table)
}
