// An accepted close (document 01, "The seventeen calls", close): what lay on the layout goes to the tray, what goes back comes from it, and all cards that were drawn are discards.
ghost use Rattle.std.specs.Prelude.{◌≡◌, Ok};
ghost use Rattle.cards.specs.declared.hand.Hand.{Hand as HandValue};
ghost use Rattle.table.specs.declared.Table.{Table as TableValue};
ghost use Rattle.table.specs.Shoe.{with_drawn, discard_drawn};
ghost use Rattle.answer.specs.Reply.{make_reply_view, given_by, given_of};
ghost use Rattle.close_spec.specs.BankDraw.{close_takes};
ghost use Rattle.close_spec.specs.Close.{close_effect, close_shown};
ghost use Rattle.close.specs.Settled.{closed_reply};
ghost use Rattle.close.specs.Aids.Closes.{Closes, payment_of};

use crate::Settled;
use crate::bank_draw::bank_burn;
use crate::paying::Payment;
use crate::seats::{Ending, ended_seats};
use answer::scores::{no_scores, with_score};
use call::pay_line::LINES;
use cards::hand::{Hand, empty_hand};
use cards::score::hand_score;
use money::sums::table_sums;
use payment::bank::score_of;
use shoe::{discard_drawn, with_drawn};
use std::marker::Model;
use table::whole::Whole;
use table::{Shoe, Table};

// The table, the bank's hand once it has drawn and stands, and what is paid by. Clauses see the table and the hand.
#[derive(Drop)]
pub(crate) struct Closing<'a> {
    table: &'a Whole,
    bank: Hand,
    payment: Payment,
}

impl<'a> Model for Closing<'a> {
    ghost Value = { TableValue × HandValue };

    ghost view = { λ c. (c.table.now, c.bank) };

    ghost invariant = { λ c. Closes c.table.now c.bank × (c.payment ≡ payment_of c.table.now) };
}

impl<'a> Closing<'a> {
    // It asks for what is known behind the refusals.
    pub(crate) fn new(table: &'a Whole, bank: Hand) -> Closing<'a>
        requires { Closes table.now bank }
        ensures { result ≡ (table.now, bank) }
    {
        let payment = Payment {
            options: table.table().options,
            bank: score_of(bank),
        };
        Closing {
            table,
            bank,
            payment,
        }
    }

    // The burnt card and the bank's, but for those that it had, are drawn too.
    fn shoe(&self) -> Shoe
        ensures { result ≡ discard_drawn (with_drawn self.now.0.shoe (close_takes self.now.0)) }
    {
        let t = self.table.table();
        let burnt = bank_burn(t.options);
        let new = self.bank.held_cards().len() - t.bank.held_cards().len();
        discard_drawn(with_drawn(t.shoe, burnt + new))
    }

    // The table then.
    fn closed(&self) -> Table
        ensures { result ≡ close_effect self.now.0 }
    {
        let t = self.table.table();
        let sums = table_sums(*t);
        let mut next = ended_seats(*t, Ending::Paid(self.payment));
        next.tray = t.tray + sums.laid - self.payment.seats_back(&t.seats);
        next.bank = empty_hand();
        next.shoe = self.shoe();
        next
    }

    // What the close gives back. Two lent arrays, since C lends them so.
    pub(crate) fn settle(&self, names: &mut [u32; LINES], nets: &mut [i64; LINES]) -> Settled
        ensures { given_of (closed_reply self.now.0 (Ok result)) names.new nets.new ≡ given_by (make_reply_view 0 (close_shown self.now.0) (close_effect self.now.0)) names.old nets.old }
    {
        let lines = self
            .payment
            .all_lines(names, nets, &self.table.table().seats);
        Settled {
            bank: self.bank,
            scores: with_score(no_scores(), hand_score(self.bank)),
            lines,
            table: self.closed(),
        }
    }
}
