// Houses: the one that the others differ from, and the options as a row has them.
ghost use Rattle.std.specs.Prelude.{◌≡◌, true};
ghost use Rattle.options.specs.Ranges.{in_range};
ghost use Rattle.stage.specs.Rows.{house_in};

use options::Options;
use script::{digit, number};

// The house of the marked session: one deck in a shoe.
pub fn marked() -> Options
    ensures { in_range result ≡ true }
{
    Options {
        seats: 6,
        decks: 1,
        first: 1,
        later: 0,
        hands: 4,
        aces: 0,
        double: 1,
        limit: 0,
        insurance: 1,
        five: 0,
        prize: 1,
        device: 1,
        decider: 1,
        cut: 0,
        smallest: 2,
        largest: 100,
    }
}

// Thirteen options of a digit each, at 2; the cut at 16, the smallest stake at 20, the largest at 28.
pub(crate) fn house_in(letters: &[u8; 36]) -> Options
    ensures { result ≡ house_in letters.now }
{
    Options {
        seats: digit(letters[2]),
        decks: digit(letters[3]),
        first: digit(letters[4]),
        later: digit(letters[5]),
        hands: digit(letters[6]),
        aces: digit(letters[7]),
        double: digit(letters[8]),
        limit: digit(letters[9]),
        insurance: digit(letters[10]),
        five: digit(letters[11]),
        prize: digit(letters[12]),
        device: digit(letters[13]),
        decider: digit(letters[14]),
        cut: (number(&letters[16..19]) % 1000) as u16,
        smallest: (number(&letters[20..27]) % 10_000_000) as u32,
        largest: (number(&letters[28..35]) % 10_000_000) as u32,
    }
}
