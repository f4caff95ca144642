// Whether a table is broken, number 1 of every call (docs/BROKEN.md). Any table value is taken: counts past their arrays, sums that would not fit, bytes
// that are no card, codes out of range.
#![tactic(auto)]

mod hand;
mod seat;

ghost use Rattle.std.specs.Prelude.{◌≡◌, true, ◌&&◌};
ghost use Rattle.lists.specs.Below.{all_below};
ghost use Rattle.table.specs.Broken.{seat_sound, sound_faces, sound_begun, sound_bank, sound_money, sound as is_sound, broken as is_broken};
ghost use Rattle.money.specs.Sums.{table_sums};
ghost use Rattle.card_count.specs.Aids.Left.{OfValid};
ghost use Rattle.broken.specs.Aids.OfPass.{OfPass};

use crate::hand::looked_at;
use crate::seat::{Round, SeatLook};
use card_count::conserved::{order_sound, out_is_drawn};
use card_count::out_cards::count_seat;
use money::most_money::past_most_money;
use money::sums::{Sums, no_sums, plus};
use options::device::bank_at_deal;
use options::in_range;
use state::round::{is_dealt, up};
use state::shape::seats_shape;
use table::{Shoe, Table};

// What the seats hold: their sums, and the number of cards in their hands.
#[derive(Clone, Copy)]
struct Held {
    sums: Sums,
    cards: usize,
}

// The one pass over the nine seats: it tests them, adds up their money and counts their hands' cards; nothing where one is not sound. The hands are looked at here, at one place, so that the compiler puts the look into the loop.
fn surveyed(of: &mut [u16; 256], t: &Table) -> Option<Held>
    ensures { OfPass t.now of.old of.new result }
{
    seats_shape(&t.seats);
    let round = Round {
        options: t.options,
        dealt: is_dealt(*t),
        up: up(*t),
    };
    let mut sums = no_sums();
    let mut cards = 0;
    for (i, s) in t.seats.iter().enumerate() {
        if s.hands.many != 0 {
            cards += count_seat(of, s.hands);
        }
        let seat = SeatLook {
            round,
            number: i,
            seat: s,
            look: looked_at(round.options, round.up, s.money.stake, &s.hands),
        };
        sums = plus(sums, seat.surveyed()?);
    }
    Some(Held { sums, cards })
}

// Play has begun or not, and it has where a card is drawn.
#[tactic(auto, unfolding(table::specs::Broken::sound_begun))]
fn begun_sound(sh: Shoe) -> bool
    ensures { result ≡ sound_begun sh }
{
    sh.begun <= 1 && (sh.drawn == 0 || sh.begun == 1)
}

// The bank has no card, or those of a deal in a round with a stake. `m`: the sums over the seats, worked out once. It asks that the seats are sound: then who
// stakes, stakes beside the seated guest.
#[tactic(auto, unfolding(table::specs::Broken::sound_bank))]
fn bank_sound(t: &Table, m: Sums) -> bool
    requires sums { m ≡ table_sums t.now }
    requires seats { all_below (seat_sound t.now) 9 ≡ true }
    ensures { result ≡ sound_bank t.now }
{
    seats_shape(&t.seats);
    t.bank.count == 0 || (t.bank.count == bank_at_deal(t.options) && 0 < m.stakes)
}

// All money is within the limit, and in a dealt round tray and prizes cover every stake, compared so that no sum wraps.
fn money_sound(t: &Table, m: Sums) -> bool
    requires { m ≡ table_sums t.now }
    ensures { result ≡ sound_money t.now }
{
    !past_most_money(t.tray, m, 0)
        && (!is_dealt(*t) || (m.cover <= t.tray || m.cover - t.tray <= m.prizes))
}

// Of a sound order, whose left cards and discards are counted: the seats, the bank, the money, and whether what is out is what was drawn.
fn rest_sound(of: &mut [u16; 256], t: &Table) -> bool
    requires { OfValid of.old t.now }
    ensures { result ≡ (sound_faces t.now && all_below (seat_sound t.now) 9 && sound_bank t.now && sound_money t.now) }
{
    match surveyed(of, t) {
        Some(held) => {
            bank_sound(t, held.sums)
                && (money_sound(t, held.sums) && out_is_drawn(of, t, held.cards))
        }
        None => false,
    }
}

#[tactic(auto, unfolding(card_count::specs::Aids::Counters::no_counts, table::specs::Broken::sound))]
fn sound(t: &Table) -> bool
    ensures { result ≡ is_sound t.now }
{
    if !in_range(t.options) || !begun_sound(t.shoe) {
        return false;
    }
    let mut of = [0u16; 256];
    order_sound(&mut of, t) && rest_sound(&mut of, t)
}

pub fn broken(t: &Table) -> bool
    ensures { result ≡ is_broken t.now }
{
    !sound(t)
}
