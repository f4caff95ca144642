// deal: burns, then one card to each staked seat, one to the bank, a second to each seat, and with the box to the bank too (document 01, "The seventeen calls";
// articles 4 and 5; request 2.7).
#![tactic(auto)]

mod burn;
mod pass;

ghost use Rattle.std.specs.Prelude.{◌≡◌};
ghost use Rattle.call.specs.Refusal.{number_in, first};
ghost use Rattle.answer.specs.Outcome.{outcome, outcome_in};
ghost use Rattle.deal_spec.specs.Deal.{load_due, dealt_bank, deal_conditions, deal_effect};

use crate::burn::{burn, burn_at_deal, deal_takes};
use crate::pass::{pass, staked_seats};
use call::refusal::{Refusal, first_refusal};
use cards::hand::{Hand, empty_hand, with_card};
use money::sums::table_sums;
use options::Options;
use options::device::{is_box, is_shoe};
use shoe::{card_ahead, with_drawn};
use state::round::{cards_left, is_dealt};
use table::whole::Whole;
use table::{Shoe, Table};

// Box and machine need a new order after a dealt round.
fn load_due(o: Options, sh: Shoe) -> bool
    ensures { result ≡ load_due o sh }
{
    !is_shoe(o) && sh.drawn != 0
}

// Why a deal is refused: the conditions of its list, from the front.
fn check_deal(t: &Whole) -> Result<(), Refusal>
    ensures { number_in result ≡ first (deal_conditions t.now) }
{
    let t = t.table();
    let o = t.options;
    let left = cards_left(*t);
    let sums = table_sums(*t);
    first_refusal(&[
        (Refusal::RoundDealt, is_dealt(*t)),
        (Refusal::NothingStaked, sums.stakes == 0),
        (Refusal::ShortTray, t.tray < sums.cover),
        (Refusal::ShortShoe, load_due(o, t.shoe)),
        (Refusal::ShortShoe, left <= usize::from(o.cut)),
        (Refusal::ShortShoe, left < deal_takes(*t)),
    ])
}

// The bank's cards: the up card, and with the box the hidden one.
fn dealt_bank(o: Options, up: u8, hidden: u8) -> Hand
    ensures { result ≡ dealt_bank o up hidden }
{
    let bank = with_card(empty_hand(), up);
    if is_box(o) {
        return with_card(bank, hidden);
    }
    bank
}

// The table after an accepted deal: the up card lies between the two passes, the hidden one behind them.
fn dealt(t: Table) -> Table
    requires { first (deal_conditions t) ≡ 0 }
    ensures { result ≡ deal_effect t }
{
    let o = t.options;
    let shoe = t.shoe;
    let order = shoe.order;
    let burnt = burn_at_deal(o, shoe);
    let staked = staked_seats(t);
    let second = burnt + staked + 1;
    let up = card_ahead(&order[..], shoe.drawn, burnt + staked);
    let hidden = card_ahead(&order[..], shoe.drawn, second + staked);
    let once = pass(t, true, burnt);
    let mut next = pass(once, false, second);
    next.bank = dealt_bank(o, up, hidden);
    let mut drawn = with_drawn(burn(shoe, o.decks, burnt), deal_takes(t));
    drawn.begun = 1;
    next.shoe = drawn;
    next
}

pub fn deal(t: &Whole) -> Result<Table, Refusal>
    ensures { outcome_in t.now result ≡ outcome (deal_conditions t.now) (deal_effect t.now) t.now }
{
    check_deal(t)?;
    Ok(dealt(*t.table()))
}
