// Houses by name, and their options in words.
use options::Options;
use stage::house::marked;
use std::io::Write;
use std::{fmt, io};

#[derive(Clone, Copy, Debug, PartialEq, Eq)]
pub(crate) enum House {
    // The marked session's (document 01): one deck in a shoe.
    Marked,
    // Six decks in a shoe, with every option that gives the guest more.
    Macau,
    // A metal box: one deck, the bank's second card face down.
    MetalBox,
    // A shuffling machine of four decks.
    Machine,
    // Nine seats, eight decks, two burns, the largest stake decides.
    Largest,
}

const HOUSES: [House; 5] = [
    House::Marked,
    House::Macau,
    House::MetalBox,
    House::Machine,
    House::Largest,
];

fn macau() -> Options {
    Options {
        seats: 7,
        decks: 6,
        aces: 1,
        limit: 1,
        insurance: 2,
        five: 1,
        cut: 78,
        smallest: 10,
        largest: 1000,
        ..marked()
    }
}

impl House {
    pub(crate) fn named(word: &[u8]) -> Option<Self> {
        HOUSES
            .iter()
            .copied()
            .find(|house| house.name().as_bytes() == word)
    }

    fn name(self) -> &'static str {
        match self {
            House::Marked => "marked",
            House::Macau => "macau",
            House::MetalBox => "box",
            House::Machine => "machine",
            House::Largest => "largest",
        }
    }

    pub(crate) fn options(self) -> Options {
        match self {
            House::Marked => marked(),
            House::Macau => macau(),
            House::MetalBox => Options {
                seats: 7,
                device: 2,
                ..marked()
            },
            House::Machine => Options {
                decks: 4,
                later: 1,
                device: 3,
                cut: 0,
                ..macau()
            },
            House::Largest => Options {
                seats: 9,
                decks: 8,
                first: 2,
                later: 2,
                decider: 2,
                cut: 208,
                smallest: 2,
                largest: 1_000_000,
                ..macau()
            },
        }
    }
}

// Options by name.
#[derive(Clone, Copy)]
pub(crate) struct Listed(pub(crate) Options);

// The device is the byte of the options.
fn device_name(device: u8) -> &'static str {
    match device {
        1 => "shoe",
        2 => "box",
        _ => "machine",
    }
}

impl fmt::Display for Listed {
    fn fmt<W: fmt::Write>(&self, f: &mut fmt::Formatter<W>) -> fmt::Result {
        let o = self.0;
        let device = device_name(o.device);
        write!(f, "seats {}, decks {}, {device}, ", o.seats, o.decks)?;
        write!(f, "first burn {}, later burn {}, ", o.first, o.later)?;
        write!(f, "hands {}, aces again {}, ", o.hands, o.aces)?;
        write!(f, "double {}, loss limited {}, ", o.double, o.limit)?;
        write!(f, "insurance {}, five cards {}, ", o.insurance, o.five)?;
        write!(f, "prize {}, decider {}, ", o.prize, o.decider)?;
        write!(f, "cut {}, stakes {} to {}", o.cut, o.smallest, o.largest)
    }
}

// All houses with their options.
pub(crate) fn all<W: Write>(out: &mut W) -> io::Result<()> {
    for house in HOUSES {
        writeln!(out, "  {}: {}", house.name(), Listed(house.options()))?;
    }
    Ok(())
}
