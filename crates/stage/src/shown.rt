// How the programs write openings, calls, cards and sums.
ghost use Rattle.std.specs.Prelude.{◌≡◌};
ghost use Rattle.call.specs.Refusal.{number_in};

use call::refusal::Refusal;
use cards::hand::Hand;
use cards::score::HandScore;
use display::shown_table;
use std::fmt;
use table::Table;

const RANKS: [char; 13] = [
    'A', '2', '3', '4', '5', '6', '7', '8', '9', 'T', 'J', 'Q', 'K',
];

const SUITS: [char; 4] = ['a', 'b', 'c', 'd'];

// The number that is written for an opening: 0 where it is accepted.
pub fn opening_number(opened: Result<(), Refusal>) -> u8
    ensures { result ≡ number_in opened }
{
    match opened {
        Ok(()) => 0,
        Err(why) => why.number(),
    }
}

// Letters of a fixed byte string of ASCII, each as it is.
#[derive(Clone, Copy)]
pub struct Letters(pub &'static [u8]);

impl fmt::Display for Letters {
    fn fmt<W: fmt::Write>(&self, f: &mut fmt::Formatter<W>) -> fmt::Result {
        for letter in self.0 {
            f.write_char(char::from(*letter))?;
        }
        Ok(())
    }
}

// The line of a call: its name, its number, and what is read of the table after it: tray, layout, all purses, cards left.
// The number is what is printed.
#[derive(Clone, Copy)]
pub struct CallLine {
    pub name: &'static [u8],
    pub number: u8,
    pub table: Table,
}

impl fmt::Display for CallLine {
    fn fmt<W: fmt::Write>(&self, f: &mut fmt::Formatter<W>) -> fmt::Result {
        let shown = shown_table(self.table);
        write!(f, "{} {} {} ", Letters(self.name), self.number, shown.tray)?;
        write!(f, "{} {} {}", shown.layout, shown.purses, shown.left)
    }
}

// A card by two letters, the first for its rank, the other for its suit.
#[derive(Clone, Copy)]
pub struct CardName(pub u8);

impl fmt::Display for CardName {
    fn fmt<W: fmt::Write>(&self, f: &mut fmt::Formatter<W>) -> fmt::Result {
        let card = self.0 as usize;
        write!(f, "{}{}", RANKS[card % 13], SUITS[card / 13 % 4])
    }
}

// The cards of a hand, one behind the other.
#[derive(Clone, Copy)]
pub struct Cards(pub Hand);

impl fmt::Display for Cards {
    fn fmt<W: fmt::Write>(&self, f: &mut fmt::Formatter<W>) -> fmt::Result {
        for card in self.0.held_cards() {
            write!(f, "{}", CardName(*card))?;
        }
        Ok(())
    }
}

// A net, with a sign also where it is a gain.
#[derive(Clone, Copy)]
pub struct Net(pub i64);

impl fmt::Display for Net {
    fn fmt<W: fmt::Write>(&self, f: &mut fmt::Formatter<W>) -> fmt::Result {
        let net = self.0;
        if net > 0 {
            write!(f, "+{net}")
        } else {
            write!(f, "{net}")
        }
    }
}

// A total, and the word soft where an ace counts eleven.
#[derive(Clone, Copy)]
pub struct Total(pub HandScore);

impl fmt::Display for Total {
    fn fmt<W: fmt::Write>(&self, f: &mut fmt::Formatter<W>) -> fmt::Result {
        let HandScore { total, soft } = self.0;
        if soft {
            write!(f, "{total} soft")
        } else {
            write!(f, "{total}")
        }
    }
}
