// What the programs read of a script: its numbers and cards, and where its lines end. Every text is taken.
#![tactic(auto)]

pub mod named;
pub mod orders;

ghost use Rattle.std.specs.Prelude.{◌≡◌, position};
ghost use Rattle.script.specs.Number.{digit_of, with_digit, number_of};
ghost use Rattle.script.specs.Cards.{rank_named, suit_named, card_named};
ghost use Rattle.script.specs.Lines.{ends_line, line_end};

// The digit, or 0 for any other letter.
// Letters stay bytes, without an enum: a script is a text file, and every byte of it has its answer.
pub fn digit(letter: u8) -> u8
    ensures { result ≡ digit_of letter }
{
    match letter {
        b'0'..=b'9' => letter - b'0',
        _ => 0,
    }
}

// The number with one digit more behind it, a space left aside; past 10^15 it takes no more.
fn with_digit(n: u64, letter: u8) -> u64
    ensures { result ≡ with_digit n letter }
{
    if letter == b' ' {
        return n;
    }
    if 1_000_000_000_000_000 < n {
        return n;
    }
    10 * n + (digit(letter) as u64)
}

// The number that the letters write in decimal.
pub fn number(text: &[u8]) -> u64
    ensures { result ≡ number_of text.now }
{
    text.iter().fold(0, |n, letter| with_digit(n, *letter))
}

// The rank that a letter names: A, 2 to 9, T, J, Q, K; the ace for any other letter.
fn rank(letter: u8) -> u8
    ensures { result ≡ rank_named letter }
{
    match letter {
        b'2'..=b'9' => letter - b'1',
        b'T' => 9,
        b'J' => 10,
        b'Q' => 11,
        b'K' => 12,
        _ => 0,
    }
}

// The suit that a letter names: a to d; the first for any other letter.
fn suit(letter: u8) -> u8
    ensures { result ≡ suit_named letter }
{
    match letter {
        b'b' => 1,
        b'c' => 2,
        b'd' => 3,
        _ => 0,
    }
}

// The card that two letters name: first its rank's, then its suit's.
pub fn card(first: u8, second: u8) -> u8
    ensures { result ≡ card_named first second }
{
    13 * suit(second) + rank(first)
}

// The place of the first line feed.
fn first_feed(text: &[u8]) -> Option<usize>
    ensures { result ≡ position ends_line text.now }
{
    text.iter().position(|letter| *letter == b'\n')
}

// Where the line ends that goes through this place: at the next line feed, or at the text's end.
pub fn end_of(text: &[u8], at: usize) -> usize
    ensures { result ≡ line_end text.now at }
{
    if text.len() <= at {
        return at;
    }
    match first_feed(&text[at..]) {
        Some(letters) => at + letters,
        None => text.len(),
    }
}
