// The marked session of document 01, played in the house of `house::marked`: its order and its calls.
ghost use Rattle.std.specs.Prelude.{◌≡◌, min, take};
ghost use Rattle.engine.specs.Session.{order, calls};

use call::{At, Call};
use script::orders::{Order, begun_order};

// The order begins with these; then come the other faces, rising.
pub fn marked_order() -> Order
    ensures { take (min result.count 416) result.cards ≡ order }
{
    begun_order(&[51, 6, 5, 19, 32, 9, 45, 22, 3], 1)
}

// Seat 2 acts throughout.
pub fn marked_calls() -> [Call; 10]
    ensures { result ≡ calls }
{
    let at = At {
        seat: 2,
        position: 0,
    };
    [
        Call::Fill(1000),
        Call::Buy(at, 100),
        Call::Stake(at, 20),
        Call::Deal,
        Call::Insure(at, 10),
        Call::Split(at),
        Call::Double(at),
        Call::Stand(at),
        Call::Close,
        Call::Stand(at),
    ]
}
