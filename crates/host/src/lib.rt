// Guests who come and go (request 2.13), above the engine: a table with guest cards at its positions, each with its tally; one step over the engine's calls, arrivals and leavings; and
// what a display reads of a card. The engine's table knows nothing of them.
#![tactic(auto)]

pub mod arrive;
mod counting;
pub mod leave;
pub mod outcome;
mod places;
pub mod shown;
pub mod sound;

ghost use Rattle.std.specs.Prelude.{◌≡◌, true, eqb, replicate};
ghost use Rattle.call.specs.declared.Call.TheVariants.{Close as CloseCall};
ghost use Rattle.call.specs.Call.{kind};
ghost use Rattle.host_spec.specs.declared.HostCall.TheVariants.{Play};
ghost use Rattle.host_spec.specs.Cards.{hosted, no_card};
ghost use Rattle.host.specs.Given.{host_given_by, host_given_of};

use crate::arrive::arrive;
use crate::counting::counted;
use crate::leave::leave;
use crate::outcome::{HostReply, plain_host_reply};
use crate::places::no_card;
use crate::sound::cards_sound;
use call::Call;
use call::pay_line::LINES;
use call::refusal::Refusal;
use engine::step;
use host_spec::{HostCall, Hosted};
use table::Table;

// A table without a card.
pub fn without_cards(table: Table) -> Hosted
    ensures { result ≡ hosted table (replicate 27 no_card) }
{
    Hosted {
        table,
        cards: [no_card(); 27],
    }
}

fn is_close(c: Call) -> bool
    ensures same { result ≡ eqb (kind c) 15 }
    ensures known { result ≡ true → c ≡ CloseCall }
{
    match c {
        Call::Close => true,
        _ => false,
    }
}

// A call of the table: the engine's step behind the test of the cards. The round is counted behind an accepted close.
// Two lent arrays, as the engine takes them.
fn play(
    h: Hosted,
    c: Call,
    order: &[u8],
    names: &mut [u32; LINES],
    nets: &mut [i64; LINES],
) -> HostReply
    ensures { host_given_of result names.new nets.new ≡ host_given_by h (Play c) order.now names.old nets.old }
{
    if !cards_sound(h.table.options, h.cards) {
        return plain_host_reply(h, Err(Refusal::Broken));
    }
    let reply = step(h.table, c, order, names, nets);
    let answer = reply.answer;
    // An answer's number, as C reads it: 0 is accepted.
    if answer.number != 0 {
        return HostReply { answer, hosted: h };
    }
    if is_close(c) {
        return HostReply {
            answer,
            hosted: counted(h, reply.table),
        };
    }
    HostReply {
        answer,
        hosted: Hosted {
            table: reply.table,
            ..h
        },
    }
}

// One step of any hosted table: a call of the table, an arrival or a leaving.
pub fn host_step(
    h: Hosted,
    c: HostCall,
    order: &[u8],
    names: &mut [u32; LINES],
    nets: &mut [i64; LINES],
) -> HostReply
    ensures { host_given_of result names.new nets.new ≡ host_given_by h c order.now names.old nets.old }
{
    match c {
        HostCall::Play(call) => play(h, call, order, names, nets),
        HostCall::Arrive(at, card) => plain_host_reply(h, arrive(h, at, card)),
        HostCall::Leave(card) => plain_host_reply(h, leave(h, card)),
    }
}
