// The pay of an insurance (article 12): three times it goes back on a bank natural, else nothing.
ghost use Rattle.std.specs.Prelude.{◌≡◌};
ghost use Rattle.payment.specs.Insurance.{insurance_pay};

use crate::bank::Score;
use crate::pay::Pay;

#[tactic(auto, unfolding(crate::specs::Insurance::insurance_pay))]
pub fn insurance_pay(bank: Score, insurance: u32) -> Pay
    ensures { result ≡ insurance_pay bank insurance }
{
    let laid = insurance as u64;
    let back = if bank.natural { 3 * laid } else { 0 };
    Pay { laid, back }
}
