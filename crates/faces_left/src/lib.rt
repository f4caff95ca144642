// The faces left of a table in a dealt round (request 2.10), as `bank_chances::chances` takes them: the cards that nobody has seen.
#![tactic(auto)]

mod counts;

ghost use Rattle.std.specs.Prelude.{◌≡◌, true, replicate};
ghost use Rattle.call.specs.Refusal.{number_of};
ghost use Rattle.table.specs.Table.{is_dealt};
ghost use Rattle.faces_left.specs.FacesLeft.{unseen, counts_below, make_faces, faces_left};

use crate::counts::counted;
use broken::broken;
use call::refusal::Refusal;
use state::round::{is_dealt, up};
use table::Table;
use table::whole::Whole;

// The number, 0 where it is accepted; the up card; and how often each face is left. A number and no Result: the struct crosses the C interface.
#[repr(C)]
#[derive(Clone, Copy)]
pub struct FacesLeft {
    pub number: u8,
    pub up: u8,
    pub left: [u8; 52],
}

fn refused(why: Refusal) -> FacesLeft
    ensures { result ≡ make_faces (number_of why) 0 (replicate 52 0) }
{
    FacesLeft {
        number: why.number(),
        up: 0,
        left: [0u8; 52],
    }
}

// The bank's cards behind the up card lie face down: they count as left, as those of the shoe do.
fn unseen_counts(t: &Whole) -> [u8; 52]
    requires { is_dealt t.now ≡ true }
    ensures { result ≡ counts_below (unseen t.now) 52 }
{
    let t = t.table();
    let all = 52 * (t.options.decks as usize);
    counted(&t.shoe.order[t.shoe.drawn..all], &t.bank.held_cards()[1..])
}

// 1 a broken table, 5 no round is dealt.
#[tactic(auto, unfolding(crate::specs::FacesLeft::faces_left, call::specs::Refusal::first))]
pub fn faces_left(t: Table) -> FacesLeft
    ensures { result ≡ faces_left t }
{
    if broken(&t) {
        return refused(Refusal::Broken);
    }
    if !is_dealt(t) {
        return refused(Refusal::NoRound);
    }
    let left = unseen_counts(&Whole::new(t));
    FacesLeft {
        number: 0,
        up: up(t),
        left,
    }
}
