// Cards: suit, rank and points (document 01, "Cards and totals"). A card is a byte; every byte is taken, also one above 51.
ghost use Rattle.std.specs.Prelude.{◌≡◌};
ghost use Rattle.cards.specs.Card.{suit_of, rank_of, is_ace, is_ten_value};
ghost use Rattle.cards.specs.Points.{points_of};

// The points of the thirteen ranks, by rank.
const POINTS: [u8; 13] = [1, 2, 3, 4, 5, 6, 7, 8, 9, 10, 10, 10, 10];

pub fn suit(card: u8) -> u8
    ensures { result ≡ suit_of card }
{
    card / 13
}

pub fn rank(card: u8) -> u8
    ensures { result ≡ rank_of card }
{
    card % 13
}

#[tactic(auto, unfolding(crate::specs::Points::points_of))]
pub fn points(card: u8) -> u8
    ensures { result ≡ points_of card }
{
    POINTS[rank(card) as usize]
}

pub fn is_ace(card: u8) -> bool
    ensures { result ≡ is_ace card }
{
    rank(card) == 0
}

pub fn is_ten_value(card: u8) -> bool
    ensures { result ≡ is_ten_value card }
{
    9 <= rank(card)
}
