// The amounts that the options permit (document 01, "House options, given at opening"): a stake, and an insurance of a stake. Every value is taken.
ghost use Rattle.std.specs.Prelude.{◌≡◌};
ghost use Rattle.options.specs.Permitted.{stake_permitted, insurance_permitted, side_permitted};

use crate::Options;

// A stake within the options, and even.
#[tactic(auto, unfolding(crate::specs::Permitted::stake_permitted))]
pub fn stake_permitted(o: Options, stake: u64) -> bool
    ensures { result ≡ stake_permitted o stake }
{
    (o.smallest as u64) <= stake && (stake <= (o.largest as u64) && stake % 2 == 0)
}

// An insurance of a stake: exactly half of it, or half to whole. One above the stake is neither, and is tested first so that no double wraps.
#[tactic(auto, unfolding(crate::specs::Permitted::insurance_permitted))]
pub fn insurance_permitted(o: Options, stake: u32, amount: u64) -> bool
    ensures { result ≡ insurance_permitted o stake amount }
{
    let s = stake as u64;
    if s < amount {
        return false;
    }
    if o.insurance == 1 {
        return 2 * amount == s;
    }
    s <= 2 * amount
}

// A side stake: 1 to 100,000 (request 2.6).
#[tactic(auto, unfolding(crate::specs::Permitted::side_permitted))]
pub fn side_permitted(amount: u64) -> bool
    ensures { result ≡ side_permitted amount }
{
    1 <= amount && amount <= 100000
}
