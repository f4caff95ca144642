// Why a call is refused (document 01, "Who can bring about which number", and the new numbers of document 02), and how a call finds it: it asks its list of
// conditions from the front.
ghost use Rattle.std.specs.Prelude.{◌≡◌, map};
ghost use Rattle.call.specs.Refusal.{number_of, number_in, NumberOf, numbered, asked as asked_of, first};

use std::error::Error;
use std::fmt;

// Each under the number that the papers give it.
#[derive(Clone, Copy, Debug, PartialEq, Eq, Hash)]
pub enum Refusal {
    Broken = 1,
    WrongOptions = 2,
    WrongOrder = 3,
    RoundDealt = 4,
    NoRound = 5,
    NothingStaked = 6,
    HandWaits = 7,
    NoSeat = 8,
    LaidAlready = 9,
    NoStake = 10,
    NotInTurn = 11,
    TooLate = 12,
    Barred = 13,
    WrongAmount = 14,
    ShortPurse = 15,
    ShortTray = 16,
    ShortShoe = 17,
    NoCards = 18,
    NoPair = 19,
    HandsUsedUp = 20,
    NoSideKind = 21,
    NoPosition = 22,
    NotDeciding = 23,
    FileLength = 24,
    FileCheck = 25,
    FileContent = 26,
    WrongDepth = 27,
    Taken = 28,
    NotHere = 29,
}

impl Refusal {
    // The number that C and programs are given: it is made here alone.
    pub fn number(self) -> u8
        ensures { result ≡ number_of self }
    {
        self as u8
    }
}

// A number that no refusal has: 0, or one past 29. A number, since C hands it over and this is where it ends.
#[derive(Clone, Copy, Debug, PartialEq, Eq, Hash)]
pub struct NoRefusal(pub u8);

impl TryFrom<u8> for Refusal {
    type Error = NoRefusal;

    ghost try_from_gives = { NumberOf };

    fn try_from(number: u8) -> Result<Self, NoRefusal> {
        match number {
            1 => Ok(Refusal::Broken),
            2 => Ok(Refusal::WrongOptions),
            3 => Ok(Refusal::WrongOrder),
            4 => Ok(Refusal::RoundDealt),
            5 => Ok(Refusal::NoRound),
            6 => Ok(Refusal::NothingStaked),
            7 => Ok(Refusal::HandWaits),
            8 => Ok(Refusal::NoSeat),
            9 => Ok(Refusal::LaidAlready),
            10 => Ok(Refusal::NoStake),
            11 => Ok(Refusal::NotInTurn),
            12 => Ok(Refusal::TooLate),
            13 => Ok(Refusal::Barred),
            14 => Ok(Refusal::WrongAmount),
            15 => Ok(Refusal::ShortPurse),
            16 => Ok(Refusal::ShortTray),
            17 => Ok(Refusal::ShortShoe),
            18 => Ok(Refusal::NoCards),
            19 => Ok(Refusal::NoPair),
            20 => Ok(Refusal::HandsUsedUp),
            21 => Ok(Refusal::NoSideKind),
            22 => Ok(Refusal::NoPosition),
            23 => Ok(Refusal::NotDeciding),
            24 => Ok(Refusal::FileLength),
            25 => Ok(Refusal::FileCheck),
            26 => Ok(Refusal::FileContent),
            27 => Ok(Refusal::WrongDepth),
            28 => Ok(Refusal::Taken),
            29 => Ok(Refusal::NotHere),
            _ => Err(NoRefusal(number)),
        }
    }
}

impl fmt::Display for Refusal {
    fn fmt<W: fmt::Write>(&self, f: &mut fmt::Formatter<W>) -> fmt::Result {
        f.write_str(match self {
            Refusal::Broken => "the table is broken",
            Refusal::WrongOptions => "an option is outside its range",
            Refusal::WrongOrder => "the order has a wrong length, card or count",
            Refusal::RoundDealt => "a round is dealt",
            Refusal::NoRound => "no round is dealt",
            Refusal::NothingStaked => "nothing is staked",
            Refusal::HandWaits => "a hand waits",
            Refusal::NoSeat => "no such seat",
            Refusal::LaidAlready => {
                "laid already: a stake, an insurance or a side stake of that kind"
            }
            Refusal::NoStake => "no stake in this round",
            Refusal::NotInTurn => "not that seat's turn",
            Refusal::TooLate => "too late, or the hand does not wait",
            Refusal::Barred => "barred by the rules",
            Refusal::WrongAmount => {
                "the amount is 0, odd, outside its option, or past all the money that may be"
            }
            Refusal::ShortPurse => "the purse is below what is asked",
            Refusal::ShortTray => "the tray is below what is asked",
            Refusal::ShortShoe => "the shoe is too short for a deal, or a load is due",
            Refusal::NoCards => "fewer cards are left than are drawn",
            Refusal::NoPair => "no pair",
            Refusal::HandsUsedUp => "the seat's hands are used up",
            Refusal::NoSideKind => "no such kind of side stake",
            Refusal::NoPosition => "no such position",
            Refusal::NotDeciding => "not the deciding guest",
            Refusal::FileLength => "the file is empty, or its length is no multiple of 512",
            Refusal::FileCheck => "the check of a block is wrong",
            Refusal::FileContent => "a block has what no session file can have",
            Refusal::WrongDepth => "the depth is over 6 or over the cards left",
            Refusal::Taken => "the position or the card is taken already",
            Refusal::NotHere => "the card is not here",
        })
    }
}

impl Error for Refusal {}

impl fmt::Display for NoRefusal {
    fn fmt<W: fmt::Write>(&self, f: &mut fmt::Formatter<W>) -> fmt::Result {
        write!(f, "no refusal has number {}", self.0)
    }
}

impl Error for NoRefusal {}

// The number where its condition holds, else what was asked behind it: one step of a list, for whoever asks it by numbers.
pub fn asked(number: u8, holds: bool, later: u8) -> u8
    ensures { result ≡ asked_of number holds later }
{
    if holds { number } else { later }
}

// The refusal whose condition is the first that holds.
pub fn first_refusal(conditions: &[(Refusal, bool)]) -> Result<(), Refusal>
    ensures { number_in result ≡ first (map numbered conditions.now) }
{
    for &(why, holds) in conditions {
        if holds {
            return Err(why);
        }
    }
    Ok(())
}
