// What a rule answers.
use cards::score::HandScore;
use payment::pay::Pay;
use std::fmt;

#[derive(Clone, Copy)]
pub(crate) enum Answered {
    Whether(bool),
    Number(u64),
    Score(HandScore),
    Paid(Pay),
}

impl fmt::Display for Answered {
    fn fmt<W: fmt::Write>(&self, f: &mut fmt::Formatter<W>) -> fmt::Result {
        match *self {
            Answered::Whether(true) => write!(f, "yes"),
            Answered::Whether(false) => write!(f, "no"),
            Answered::Number(n) => write!(f, "{n}"),
            Answered::Score(HandScore { total, soft: true }) => write!(f, "{total} soft"),
            Answered::Score(HandScore { total, soft: false }) => write!(f, "{total}"),
            Answered::Paid(Pay { laid, back }) => write!(f, "laid {laid}, back {back}"),
        }
    }
}
