// One step over all eighteen calls: it takes the enum apart. Beside the call the caller lends the order that a load reads, which every other call ignores, and
// two arrays for the names and nets of the pay lines, into which only an accepted close writes.
#![tactic(auto)]

mod replies;
mod scores;

ghost use Rattle.std.specs.Prelude.{◌≡◌, false};
ghost use Rattle.table.specs.Broken.{broken as is_broken};
ghost use Rattle.answer.specs.Outcome.{outcome};
ghost use Rattle.answer.specs.Reply.{given_by, given_of, reply_of, reply_by, plain_reply};
ghost use Rattle.cashier_spec.specs.Fill.{fill_conditions, fill_effect};
ghost use Rattle.cashier_spec.specs.Credit.{credit_conditions, credit_effect};
ghost use Rattle.cashier_spec.specs.Load.{load_conditions, load_effect};
ghost use Rattle.close_spec.specs.Void.{void_conditions, void_effect};
ghost use Rattle.close_spec.specs.Close.{close_conditions, close_shown, close_effect};
ghost use Rattle.engine.specs.Step.{step as step_by};

use crate::replies::{card_moved, changed, dealt, moved, split_moved};
use answer::reply::{Answer, Reply, scored_answer};
use answer::scores::no_scores;
use broken::broken;
use call::Call;
use call::pay_line::LINES;
use call::refusal::Refusal;
use cashier::buy::buy;
use cashier::cash::cash;
use cashier::credit::credit;
use cashier::fill::fill;
use cashier::load::load;
use cashier::side::side;
use cashier::stake::stake;
use close::void::void;
use close::{close, closed_answer};
use decisions::even::even;
use decisions::five::five;
use decisions::insure::insure;
use decisions::stand::stand;
use decisions::surrender::surrender;
use draw::double::double;
use draw::draw::draw;
use draw::split::split;
use state::shape::seats_shape;
use table::Table;
use table::whole::Whole;

// Calls that may change any part of the table, each in a function of its own: put together, the room for each one's table would be cleared in every call. One function that takes the call as
// a closure clears the room for a load's table, 6 % of a call replayed.
#[inline(never)]
fn filled(t: &Whole, next: &mut Table, n: u64) -> Answer
    ensures { reply_of result next.new ≡ plain_reply (outcome (fill_conditions t.now n) (fill_effect t.now n) next.old) }
{
    changed(next, fill(t, n))
}

#[inline(never)]
fn credited(t: &Whole, next: &mut Table, n: u64) -> Answer
    ensures { reply_of result next.new ≡ plain_reply (outcome (credit_conditions t.now n) (credit_effect t.now n) next.old) }
{
    changed(next, credit(t, n))
}

#[inline(never)]
fn voided(t: &Whole, next: &mut Table) -> Answer
    ensures { reply_of result next.new ≡ plain_reply (outcome (void_conditions t.now) (void_effect t.now) next.old) }
{
    changed(next, void(t))
}

#[inline(never)]
fn loaded(t: &Whole, next: &mut Table, order: &[u8]) -> Answer
    ensures { reply_of result next.new ≡ plain_reply (outcome (load_conditions t.now order.now) (load_effect t.now order.now) next.old) }
{
    changed(next, load(t, order))
}

// Two lent arrays, as C lends them.
#[inline(never)]
fn closed(t: &Whole, next: &mut Table, names: &mut [u32; LINES], nets: &mut [i64; LINES]) -> Answer
    requires { next.old ≡ t.now }
    ensures { given_of (reply_of result next.new) names.new nets.new ≡ given_by (reply_by (close_conditions t.now) (close_shown t.now) (close_effect t.now) t.now) names.old nets.old }
{
    closed_answer(next, close(t, names, nets))
}

// The call on the table t, which lies in `next` too: there is put what it changes.
// Here and below two lent arrays: C lends them so, and a struct of the two would have to be made and taken apart around every step.
fn played(
    t: &Whole,
    next: &mut Table,
    c: Call,
    order: &[u8],
    names: &mut [u32; LINES],
    nets: &mut [i64; LINES],
) -> Answer
    requires { next.old ≡ t.now }
    ensures { given_of (reply_of result next.new) names.new nets.new ≡ given_by (step_by t.now c order.now) names.old nets.old }
{
    seats_shape(&next.seats);
    match c {
        Call::Fill(n) => filled(t, next, n),
        Call::Credit(n) => credited(t, next, n),
        Call::Buy(at, n) => moved(next, at, buy(t, at, n)),
        Call::Cash(at, n) => moved(next, at, cash(t, at, n)),
        Call::Stake(at, n) => moved(next, at, stake(t, at, n)),
        Call::Deal => dealt(t, next),
        Call::Insure(at, n) => moved(next, at, insure(t, at, n)),
        Call::Stand(at) => moved(next, at, stand(t, at)),
        Call::Draw(at) => card_moved(next, at, draw(t, at)),
        Call::Double(at) => card_moved(next, at, double(t, at)),
        Call::Split(at) => split_moved(next, at, split(t, at)),
        Call::Surrender(at) => moved(next, at, surrender(t, at)),
        Call::Even(at) => moved(next, at, even(t, at)),
        Call::Five(at) => moved(next, at, five(t, at)),
        Call::Close => closed(t, next, names, nets),
        Call::Void => voided(t, next),
        Call::Load => loaded(t, next, order),
        Call::Side(at, kind, n) => moved(next, at, side(t, at, kind, n)),
    }
}

// A step in place on a table that is known not to be broken, as every table is that an accepted call left: it asks that.
// A function of its own: put into the one below, its copy of the table is cleared before it is made.
#[inline(never)]
fn step_sound(
    table: &mut Table,
    c: Call,
    order: &[u8],
    names: &mut [u32; LINES],
    nets: &mut [i64; LINES],
) -> Answer
    requires { is_broken table.old ≡ false }
    ensures { given_of (reply_of result table.new) names.new nets.new ≡ given_by (step_by table.old c order.now) names.old nets.old }
{
    played(&Whole::new(*table), table, c, order, names, nets)
}

// A step in place on any table: 1 is asked here, once.
pub fn step_in_place(
    table: &mut Table,
    c: Call,
    order: &[u8],
    names: &mut [u32; LINES],
    nets: &mut [i64; LINES],
) -> Answer
    ensures { given_of (reply_of result table.new) names.new nets.new ≡ given_by (step_by table.old c order.now) names.old nets.old }
{
    if broken(table) {
        return scored_answer(Refusal::Broken.number(), no_scores());
    }
    step_sound(table, c, order, names, nets)
}

// The same on a table by value, and the next one beside the answer.
pub fn step(
    t: Table,
    c: Call,
    order: &[u8],
    names: &mut [u32; LINES],
    nets: &mut [i64; LINES],
) -> Reply
    ensures { given_of result names.new nets.new ≡ given_by (step_by t c order.now) names.old nets.old }
{
    let mut table = t;
    let answer = step_in_place(&mut table, c, order, names, nets);
    Reply { answer, table }
}

// The same on a table that is known not to be broken.
pub fn step_whole(
    t: &Whole,
    c: Call,
    order: &[u8],
    names: &mut [u32; LINES],
    nets: &mut [i64; LINES],
) -> Reply
    ensures { given_of result names.new nets.new ≡ given_by (step_by t.now c order.now) names.old nets.old }
{
    let mut table = *t.table();
    let answer = played(t, &mut table, c, order, names, nets);
    Reply { answer, table }
}
