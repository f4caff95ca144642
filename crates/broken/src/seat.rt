// Whether a seat of any table value is sound (docs/BROKEN.md, 4): number, stake, insurance, side stakes and prizes of each guest, and its hands, tested as
// `table/specs/Broken.antt` does. Every damaged value is taken.
ghost use Rattle.std.specs.Prelude.{◌≡◌, true, ◌&&◌, ◌||◌, ◌+◌, eqb, leb, ltb, get_or};
ghost use Rattle.lists.specs.Below.{all_below};
ghost use Rattle.options.specs.Permitted.{most_side};
ghost use Rattle.table.specs.Guest.{nobody_in};
ghost use Rattle.table.specs.Seat.{with_money, each_guest, purse};
ghost use Rattle.table.specs.Broken.{sound_number, sound_stake, sound_insurance, sound_sides, sound_hands, sound_guest, seated_first};
ghost use Rattle.money.specs.Sums.{guest_sums, seat_sums};
ghost use Rattle.money.specs.SumsFit.{SumsFit};
ghost use Rattle.broken.specs.Aids.AtRest.{AtRest};
ghost use Rattle.broken.specs.Aids.LookedAt.{LookedAt};
ghost use Rattle.broken.specs.Aids.Surveyed.{Surveyed, SurveyedGuest, SurveyedSeat};

use crate::hand::Looked;
use cards::card::is_ace;
use money::sums::{Sums, money_sums, no_sums, played_sums, plus, purse_sums};
use options::Options;
use options::permitted::{insurance_permitted, stake_permitted};
use state::seat::{no_money, no_sides, nobody_beside};
use table::{Money, Seat};

// The round that a seat is in: the options, whether it is dealt, and its up card.
#[derive(Clone, Copy)]
pub(crate) struct Round {
    pub(crate) options: Options,
    pub(crate) dealt: bool,
    pub(crate) up: u8,
}

// A seat in its round, by its number, with the look at its hands. The seat is lent: over a copy of each of the nine the bench takes 227 instructions a call more.
#[derive(Clone, Copy)]
pub(crate) struct SeatLook<'a> {
    pub(crate) round: Round,
    pub(crate) number: usize,
    pub(crate) seat: &'a Seat,
    pub(crate) look: Looked,
    ghost looked: { LookedAt round.options round.up seat.now.money.stake seat.now.hands look },
}

// A guest of a seat beyond the option holds nothing.
#[tactic(auto, unfolding(table::specs::Broken::sound_number))]
fn sound_number(o: Options, i: usize, s: Seat) -> bool
    ensures { result ≡ sound_number o i s }
{
    i < (o.seats as usize) || (no_money(s.money) && s.hands.many == 0)
}

#[tactic(auto, unfolding(table::specs::Broken::sound_stake))]
fn sound_stake(o: Options, s: Seat) -> bool
    ensures { result ≡ sound_stake o s }
{
    s.money.stake == 0 || stake_permitted(o, s.money.stake as u64)
}

#[tactic(auto, unfolding(table::specs::Broken::sound_insurance))]
fn sound_insurance(r: Round, s: Seat) -> bool
    ensures { result ≡ sound_insurance r.options r.dealt r.up s }
{
    let m = s.money;
    m.insurance == 0
        || (r.dealt
            && (is_ace(r.up)
                && (0 < m.stake && insurance_permitted(r.options, m.stake, m.insurance as u64))))
}

// Every side stake is within its limit.
#[tactic(auto, unfolding(lists::specs::Below::all_below))]
fn small_sides(sides: [u32; 4]) -> bool
    ensures { result ≡ all_below (λ k. leb (get_or sides k 0) most_side) 4 }
{
    sides[0] <= 100000 && (sides[1] <= 100000 && (sides[2] <= 100000 && sides[3] <= 100000))
}

// A side stake is 0, or within its limit beside a stake. Where none lies there, which is nearly always, one test says so.
fn sound_sides(s: Seat) -> bool
    ensures { result ≡ sound_sides s }
{
    no_sides(s.money.sides) || (0 < s.money.stake && small_sides(s.money.sides))
}

// The prizes are within purse and laid, compared so that no sum wraps.
fn sound_prizes(s: Seat, m: Sums) -> bool
    ensures { result ≡ leb m.prizes (purse s + m.laid) }
{
    m.prizes <= s.money.purse || m.prizes - s.money.purse <= m.laid
}

// A guest, as if alone at the seat; `m` are the guest's sums. Put into the pass over the seats, so that the seat is not copied.
#[inline(always)]
#[tactic(auto, using(crate::proofs::seat::Laws::by_sums), unfolding(table::specs::Broken::sound_guest))]
fn sound_guest(r: Round, i: usize, s: Seat, m: Sums) -> bool
    requires { m ≡ guest_sums r.options s }
    ensures { result ≡ sound_guest r.options r.dealt r.up i s }
{
    sound_number(r.options, i, s)
        && (sound_stake(r.options, s)
            && (sound_insurance(r, s) && (sound_sides(s) && sound_prizes(s, m))))
}

// Guests tested give their sums, which are so worked out once, or nothing where one is not sound.
// The seat is lent, and the guest's money stands beside it: put into the pass, of which nothing is copied then.
#[inline(always)]
fn surveyed_guest(r: Round, i: usize, m: Money, s: &Seat) -> Option<Sums>
    ensures { SurveyedGuest r i (with_money s.now m) result }
{
    let sums = money_sums(r.options, m, s);
    sound_guest(r, i, Seat { money: m, ..*s }, sums).then_some(sums)
}

// The seated guest stakes first.
#[tactic(auto, unfolding(table::specs::Seat::guest_at, table::specs::Broken::seated_first))]
fn seated_first(s: Seat) -> bool
    ensures { result ≡ seated_first s }
{
    0 < s.money.stake || (s.others[0].stake == 0 && s.others[1].stake == 0)
}

// Whether the guest has no stake of any kind, and the seat no hand.
fn at_rest(s: Seat) -> bool
    ensures { result ≡ true → AtRest s }
{
    let m = s.money;
    (s.hands.many == 0) & (m.stake == 0) & (m.insurance == 0) & no_sides(m.sides)
}

// At a seat beyond the option a guest has no purse.
fn purse_fits(o: Options, i: usize, purse: u64) -> bool
    ensures { result ≡ (ltb i o.seats || eqb purse 0) }
{
    i < (o.seats as usize) || purse == 0
}

// A seat's type bounds its guest's sums: behind a reference this has to be handed on as a fact.
fn guest_fits(o: Options, s: Seat)
    ensures { SumsFit 1 (guest_sums o s) }
{}

impl<'a> SeatLook<'a> {
    // No hand and none due, or hands within the option in a dealt round, each of them sound.
    #[tactic(auto, unfolding(table::specs::Broken::sound_hands))]
    fn sound_hands(self) -> bool
        ensures { result ≡ sound_hands self.entry.round.options self.entry.round.dealt self.entry.round.up self.entry.seat.now }
    {
        let SeatLook {
            round,
            seat,
            look,
            ..
        } = self;
        if seat.hands.many == 0 {
            !(round.dealt && 0 < seat.money.stake)
        } else {
            seat.hands.many <= round.options.hands
                && (round.dealt && (0 < seat.money.stake && look.sound))
        }
    }

    // What the guests of the seat share.
    fn sound_shared(self) -> bool
        ensures { result ≡ (seated_first self.entry.seat.now && sound_hands self.entry.round.options self.entry.round.dealt self.entry.round.up self.entry.seat.now) }
    {
        seated_first(*self.seat) && self.sound_hands()
    }

    // A guest with that money beside the seated one. Most seats have none: then nothing but the seat's number is asked.
    #[inline(always)]
    fn surveyed_other(self, m: Money) -> Option<Sums>
        ensures { SurveyedGuest self.entry.round self.entry.number (with_money self.entry.seat.now m) result }
    {
        if no_money(m) {
            let g = Seat {
                money: m,
                ..*self.seat
            };
            sound_number(self.round.options, self.number, g).then_some(no_sums())
        } else {
            surveyed_guest(self.round, self.number, m, self.seat)
        }
    }

    // The three guests of the seat.
    #[tactic(auto, unfolding(table::specs::Seat::guest_at))]
    fn surveyed_guests(self) -> Option<Sums>
        ensures { Surveyed (each_guest (sound_guest self.entry.round.options self.entry.round.dealt self.entry.round.up self.entry.number) self.entry.seat.now) (seat_sums self.entry.round.options self.entry.seat.now) 3 result }
    {
        let seated = surveyed_guest(self.round, self.number, self.seat.money, self.seat)?;
        let one = self.surveyed_other(self.seat.others[0])?;
        let two = self.surveyed_other(self.seat.others[1])?;
        Some(plus(plus(seated, one), two))
    }

    // A seat with bets beside the seated guest: each of its guests, and what they share. A function of its own: put into the pass it costs each
    // test of a table without such a seat an eighth.
    #[inline(never)]
    fn surveyed_crowd(self) -> Option<Sums>
        ensures { SurveyedSeat self.entry.round self.entry.number self.entry.seat.now result }
    {
        let guests = self.surveyed_guests()?;
        self.sound_shared().then_some(guests)
    }

    // The guest alone at the seat, and its hands; `m`: the guest's sums.
    fn sound_alone(self, m: Sums) -> bool
        requires { m ≡ guest_sums self.round.options self.seat.now }
        ensures { result ≡ (sound_guest self.entry.round.options self.entry.round.dealt self.entry.round.up self.entry.number self.entry.seat.now && sound_hands self.entry.round.options self.entry.round.dealt self.entry.round.up self.entry.seat.now) }
    {
        sound_guest(self.round, self.number, *self.seat, m) && self.sound_hands()
    }

    // A guest alone at the seat, with a stake or a hand.
    fn surveyed_alone(self) -> Option<Sums>
        requires { nobody_in self.seat.now.others ≡ true }
        ensures { SurveyedSeat self.entry.round self.entry.number self.entry.seat.now result }
    {
        guest_fits(self.round.options, *self.seat);
        let sums = played_sums(*self.seat, self.look.wagers, self.look.prizes);
        self.sound_alone(sums).then_some(sums)
    }

    // A seat where nobody bets beside the seated guest. A seat at rest is passed over: nothing but its number is asked, and its sums are the purse alone.
    fn surveyed_lone(self) -> Option<Sums>
        requires { nobody_in self.seat.now.others ≡ true }
        ensures { SurveyedSeat self.entry.round self.entry.number self.entry.seat.now result }
    {
        let purse = self.seat.money.purse;
        if at_rest(*self.seat) {
            purse_fits(self.round.options, self.number, purse).then_some(purse_sums(purse))
        } else {
            self.surveyed_alone()
        }
    }

    // The sums of the seat's guests, or nothing where the seat is not sound.
    pub(crate) fn surveyed(self) -> Option<Sums>
        ensures { SurveyedSeat self.entry.round self.entry.number self.entry.seat.now result }
    {
        if nobody_beside(self.seat.others) {
            self.surveyed_lone()
        } else {
            self.surveyed_crowd()
        }
    }
}
