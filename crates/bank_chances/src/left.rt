// The faces left, 52 counts: whether one is above eight, how many cards they are, and how many of each points.
ghost use Rattle.std.specs.Prelude.{◌≡◌, ltb, length};
ghost use Rattle.lists.specs.Tests.{any_of};
ghost use Rattle.bank_chances.specs.CardsLeft.{cards_left};
ghost use Rattle.bank_chances.specs.Aids.Ways.{stand_in, Standing};

use cards::card::rank;

// Whether a face is left more than eight times.
pub(crate) fn some_above(left: [u8; 52]) -> bool
    ensures { result ≡ any_of (λ count. ltb 8 count) left }
{
    left.iter().any(|count| 8 < *count)
}

pub(crate) fn many_left(left: [u8; 52]) -> u64
    ensures { result ≡ length (cards_left left) }
{
    left.iter().map(|count| *count as u64).sum()
}

// The card that stands for every card of its points: jack, queen and king count as the ten.
fn stand_in(card: u8) -> u8
    ensures { result ≡ stand_in card }
{
    rank(card).min(9)
}

pub(crate) fn by_points(left: [u8; 52]) -> [u64; 10]
    ensures { Standing (cards_left left) result }
{
    let mut counts = [0u64; 10];
    for (face, count) in left.iter().enumerate() {
        let at = stand_in(face as u8) as usize;
        counts[at] += *count as u64;
    }
    counts
}
