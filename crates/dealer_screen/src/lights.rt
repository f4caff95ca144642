// The touch fields of a guest, each lit where a step of its call with its smallest permitted amount would be accepted.
ghost use Rattle.std.specs.Prelude.{◌≡◌, true, ◌<◌};
ghost use Rattle.table.specs.Broken.{broken};
ghost use Rattle.dealer_screen.specs.Lights.{accepts as accepts_by, smallest_insurance, lights_at, seat_lights, all_lights};
ghost use Rattle.dealer_screen.specs.Laws.{dark as dark_lights};

use call::guest::Guest;
use call::pay_line::LINES;
use call::{At, Call};
use engine::step_whole;
use state::seat::guest_money;
use table::Table;
use table::whole::Whole;

#[repr(C)]
#[derive(Clone, Copy)]
pub struct Lights {
    pub buy: bool,
    pub cash: bool,
    pub stake: bool,
    pub insure: bool,
    pub stand: bool,
    pub draw: bool,
    pub double: bool,
    pub split: bool,
    pub surrender: bool,
    pub even: bool,
    pub five: bool,
    pub pair: bool,
    pub sevens: bool,
    pub more: bool,
    pub less: bool,
}

// The fields of a seat, by position.
#[repr(C)]
#[derive(Clone, Copy)]
pub struct SeatLights {
    pub guests: [Lights; 3],
}

// Whether a call would be accepted now.
fn accepts(t: &Whole, c: Call) -> bool
    ensures { result ≡ accepts_by t.now c }
{
    let mut names = [0u32; LINES];
    let mut nets = [0i64; LINES];
    let r = step_whole(t, c, b"", &mut names, &mut nets);
    // An answer's number, as C reads it: 0 is accepted.
    r.answer.number == 0
}

// Half of the guest's stake.
fn smallest_insurance(t: &Table, g: Guest) -> u64
    ensures { result ≡ smallest_insurance t.now g }
{
    let money = guest_money(t, g);
    (money.stake / 2) as u64
}

fn lights_at(t: &Whole, g: Guest) -> Lights
    ensures { result ≡ lights_at t.now g }
{
    let at = g.at();
    let o = t.table().options;
    Lights {
        buy: accepts(t, Call::Buy(at, 1)),
        cash: accepts(t, Call::Cash(at, 1)),
        stake: accepts(t, Call::Stake(at, o.smallest as u64)),
        insure: accepts(t, Call::Insure(at, smallest_insurance(t.table(), g))),
        stand: accepts(t, Call::Stand(at)),
        draw: accepts(t, Call::Draw(at)),
        double: accepts(t, Call::Double(at)),
        split: accepts(t, Call::Split(at)),
        surrender: accepts(t, Call::Surrender(at)),
        even: accepts(t, Call::Even(at)),
        five: accepts(t, Call::Five(at)),
        pair: accepts(t, Call::Side(at, 1, 1)),
        sevens: accepts(t, Call::Side(at, 2, 1)),
        more: accepts(t, Call::Side(at, 3, 1)),
        less: accepts(t, Call::Side(at, 4, 1)),
    }
}

fn dark() -> Lights
    ensures { result ≡ dark_lights }
{
    Lights {
        buy: false,
        cash: false,
        stake: false,
        insure: false,
        stand: false,
        draw: false,
        double: false,
        split: false,
        surrender: false,
        even: false,
        five: false,
        pair: false,
        sevens: false,
        more: false,
        less: false,
    }
}

fn seat_lights(t: &Whole, seat: u8) -> SeatLights
    requires { seat < 9 }
    ensures { result ≡ seat_lights t.now seat }
{
    let seated = lights_at(t, Guest::new(At { seat, position: 0 }));
    let one = lights_at(t, Guest::new(At { seat, position: 1 }));
    let other = lights_at(t, Guest::new(At { seat, position: 2 }));
    SeatLights {
        guests: [seated, one, other],
    }
}

pub(crate) fn all_lights(t: &Whole) -> [SeatLights; 9]
    ensures { result ≡ all_lights t.now }
{
    [
        seat_lights(t, 0),
        seat_lights(t, 1),
        seat_lights(t, 2),
        seat_lights(t, 3),
        seat_lights(t, 4),
        seat_lights(t, 5),
        seat_lights(t, 6),
        seat_lights(t, 7),
        seat_lights(t, 8),
    ]
}

// Nothing is lit on a broken table.
pub(crate) fn all_dark(t: Table) -> [SeatLights; 9]
    requires { broken t ≡ true }
    ensures { result ≡ all_lights t }
{
    let seat = SeatLights {
        guests: [dark(); 3],
    };
    [seat; 9]
}
