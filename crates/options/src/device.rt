// The device that the cards are dealt from, and what it changes for the bank (request 2.7).
ghost use Rattle.std.specs.Prelude.{◌≡◌};
ghost use Rattle.options.specs.Device.{is_shoe, is_box, is_machine, bank_at_deal};

use crate::Options;

// A shoe needs no new order for each round, and has a cut.
pub fn is_shoe(o: Options) -> bool
    ensures { result ≡ is_shoe o }
{
    o.device == 1
}

// A metal box holds one deck; its bank has two cards from the deal on.
pub fn is_box(o: Options) -> bool
    ensures { result ≡ is_box o }
{
    o.device == 2
}

// A shuffling machine takes the first burn once.
pub fn is_machine(o: Options) -> bool
    ensures { result ≡ is_machine o }
{
    o.device == 3
}

// How many cards the bank has from the deal on.
#[tactic(auto, unfolding(crate::specs::Device::bank_at_deal))]
pub fn bank_at_deal(o: Options) -> u8
    ensures { result ≡ bank_at_deal o }
{
    if is_box(o) { 2 } else { 1 }
}
