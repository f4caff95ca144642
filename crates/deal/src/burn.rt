// How many cards a deal burns and takes, and the burning itself: cards of the shoe onto the discards (document 01, "House options"; article 4).
ghost use Rattle.std.specs.Prelude.{◌≡◌, ◌+◌, ◌*◌, ◌≤◌, take};
ghost use Rattle.table.specs.Shoe.{left_of, discard, burns_first};
ghost use Rattle.deal_spec.specs.Burn.{burn_at_deal};
ghost use Rattle.deal_spec.specs.Deal.{deal_takes};

use crate::pass::staked_seats;
use options::Options;
use options::device::{bank_at_deal, is_machine};
use table::{Shoe, Table};

// Whether the next deal takes the first burn: the machine's first one, else one from a fresh shoe.
fn burns_first(o: Options, sh: Shoe) -> bool
    ensures { result ≡ burns_first o sh }
{
    if is_machine(o) {
        sh.begun == 0
    } else {
        sh.drawn == 0
    }
}

// The first burn or the later one. It is small also where the options are damaged.
pub(crate) fn burn_at_deal(o: Options, sh: Shoe) -> usize
    ensures same { result ≡ burn_at_deal o sh }
    ensures few { result ≤ 255 }
{
    if burns_first(o, sh) {
        if o.first == 1 {
            return 1;
        }
        return o.decks as usize;
    }
    if o.later == 0 { 0 } else { 1 }
}

// How many cards the deal burns and takes: two for each staked seat, and the bank's.
pub(crate) fn deal_takes(t: Table) -> usize
    ensures { result ≡ deal_takes t }
{
    let o = t.options;
    burn_at_deal(o, t.shoe) + 2 * staked_seats(t) + (bank_at_deal(o) as usize)
}

// The next n cards of the order become discards. It asks that the order has them, and for room.
pub(crate) fn burn(sh: Shoe, decks: u8, n: usize) -> Shoe
    requires { (sh.drawn + n ≤ 52 * decks) × (52 * decks ≤ 416) × (sh.discarded + n ≤ 416) }
    ensures { result ≡ discard sh (take n (left_of decks sh)) }
{
    let at = sh.discarded;
    let mut discards = sh.discards;
    discards[at..at + n].copy_from_slice(&sh.order[sh.drawn..sh.drawn + n]);
    Shoe {
        discards,
        discarded: at + n,
        ..sh
    }
}
