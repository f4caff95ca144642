// What a step of a hosted table gives back.
ghost use Rattle.std.specs.Prelude.{◌≡◌};
ghost use Rattle.host.specs.Given.{plain_host_reply};
ghost use Rattle.host.specs.Outcome.{make_host_outcome, host_outcome_in};

use answer::outcome::Outcome;
use answer::reply::{Answer, plain_reply};
use call::refusal::Refusal;
use host_spec::Hosted;

// The answer and the next hosted table; the pay lines of close stand in the arrays that the caller lends.
#[derive(Clone, Copy)]
pub struct HostReply {
    pub answer: Answer,
    pub hosted: Hosted,
}

// The answer of a call that shows nothing.
// The answer holds a number, since C reads it.
fn quiet_answer(h: Hosted, number: u8) -> Answer
    ensures { result ≡ (plain_host_reply (make_host_outcome number h)).answer }
{
    let plain = plain_reply(Outcome {
        number,
        table: h.table,
    });
    plain.answer
}

// The reply of a call on the hosted table h that shows nothing.
pub(crate) fn plain_host_reply(h: Hosted, r: Result<Hosted, Refusal>) -> HostReply
    ensures { result ≡ plain_host_reply (host_outcome_in h r) }
{
    match r {
        Ok(hosted) => HostReply {
            answer: quiet_answer(hosted, 0),
            hosted,
        },
        Err(why) => HostReply {
            answer: quiet_answer(h, why.number()),
            hosted: h,
        },
    }
}
