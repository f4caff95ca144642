// The scores that a step shows (request 2.1), together with their number: a deal has one for each staked seat, so there are at most nine.
ghost use Rattle.std.specs.Prelude.{◌≡◌};
ghost use Rattle.answer.specs.Scores.{no_scores, with_score};

use cards::score::HandScore;

#[repr(C)]
#[derive(Clone, Copy)]
pub struct Scores {
    pub each: [HandScore; 9],
    // An array with its number and no Vec: C reads it, and a step takes no memory.
    pub count: usize,
}

// No score.
pub fn no_scores() -> Scores
    ensures { result ≡ no_scores }
{
    let none = HandScore {
        total: 0,
        soft: false,
    };
    Scores {
        each: [none; 9],
        count: 0,
    }
}

// The scores with one more, or unchanged where there are nine.
#[tactic(auto, unfolding(crate::specs::Scores::with_score))]
pub fn with_score(s: Scores, score: HandScore) -> Scores
    ensures { result ≡ with_score s score }
{
    let at = s.count;
    if 9 <= at {
        return s;
    }
    let mut next = s;
    next.each[at] = score;
    next.count = at + 1;
    next
}
