// The pay lines of close as the programs read them: a step is lent two arrays, and a line is a name and a net at the same place of both.
ghost use Rattle.std.specs.Prelude.{◌≡◌, length, min, take, replicate, pos};
ghost use Rattle.std.specs.Iterator.{at_most};
ghost use Rattle.answer.specs.Reply.{given_by, given_of};
ghost use Rattle.engine.specs.Step.{step as step_by};

use crate::shown::Net;
use answer::reply::Reply;
use call::Call;
use call::pay_line::{HAND, INSURANCE, LINES, line_kind, line_place, line_position, line_seat};
use engine::step;
use std::fmt;
use table::Table;

// What a line pays for: a hand by its place, an insurance or a side stake.
#[derive(Clone, Copy, Debug, PartialEq, Eq)]
pub enum Purpose {
    Hand(u8),
    Insurance,
    Pair,
    Sevens,
    More,
    Less,
}

impl Purpose {
    // A name of no kind that there is stands for the last of them.
    fn of(name: u32) -> Self {
        match line_kind(name) {
            HAND => Purpose::Hand(line_place(name)),
            INSURANCE => Purpose::Insurance,
            2 => Purpose::Pair,
            3 => Purpose::Sevens,
            4 => Purpose::More,
            _ => Purpose::Less,
        }
    }
}

impl fmt::Display for Purpose {
    fn fmt<W: fmt::Write>(&self, f: &mut fmt::Formatter<W>) -> fmt::Result {
        match self {
            Purpose::Hand(place) => write!(f, "hand {place}"),
            Purpose::Insurance => write!(f, "insurance"),
            Purpose::Pair => write!(f, "pair"),
            Purpose::Sevens => write!(f, "sevens"),
            Purpose::More => write!(f, "more"),
            Purpose::Less => write!(f, "less"),
        }
    }
}

// Whom a line pays, for what, and how much.
#[derive(Clone, Copy)]
pub struct PayLine {
    pub seat: u8,
    pub position: u8,
    pub purpose: Purpose,
    pub net: Net,
}

// The arrays that a step is lent.
#[derive(Clone, Copy)]
pub struct PayLines {
    pub names: [u32; LINES],
    pub nets: [i64; LINES],
}

impl PayLines {
    pub fn new() -> Self
        ensures names { result.names ≡ replicate 243 0 }
        ensures nets { result.nets ≡ replicate 243 (pos 0) }
    {
        PayLines {
            names: [0; LINES],
            nets: [0; LINES],
        }
    }

    // A step that is lent them.
    pub fn step(&mut self, t: Table, c: Call, order: &[u8]) -> Reply
        ensures { given_of result self.new.names self.new.nets ≡ given_by (step_by t c order.now) self.old.names self.old.nets }
    {
        step(t, c, order, &mut self.names, &mut self.nets)
    }

    // The first lines; an answer says how many there are.
    pub fn first(&self, count: usize) -> FirstLines<'_>
        ensures names { result.names.now ≡ take (min count 243) self.now.names }
        ensures nets { result.nets.now ≡ take (min count 243) self.now.nets }
    {
        let end = count.min(LINES);
        FirstLines {
            names: &self.names[..end],
            nets: &self.nets[..end],
        }
    }
}

// The lines that are still to come.
#[derive(Clone, Copy)]
pub struct FirstLines<'a> {
    names: &'a [u32],
    nets: &'a [i64],
}

impl Iterator for FirstLines<'_> {
    type Item = PayLine;

    ghost remaining = { λ lines. at_most (length lines.names.now) };

    fn next(&mut self) -> Option<PayLine> {
        let (&name, names) = self.names.split_first()?;
        let (&net, nets) = self.nets.split_first()?;
        self.names = names;
        self.nets = nets;
        Some(PayLine {
            seat: line_seat(name),
            position: line_position(name),
            purpose: Purpose::of(name),
            net: Net(net),
        })
    }
}
