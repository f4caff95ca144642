// What a script plays: its rows, orders, openings and calls, what is kept from row to row, and how the programs that read scripts write cards and sums.
#![tactic(auto)]

pub mod calls;
pub mod house;
pub mod marked;
pub mod pay_lines;
pub mod program;
pub mod row;
pub mod shown;

ghost use Rattle.std.specs.Prelude.{◌≡◌, [], min, take};
ghost use Rattle.call.specs.Refusal.{number_in};
ghost use Rattle.answer.specs.Outcome.{outcome};
ghost use Rattle.answer.specs.Scores.{no_scores};
ghost use Rattle.answer.specs.Reply.{given_by, given_of};
ghost use Rattle.cashier_spec.specs.Opening.{open_conditions, open_table, empty_table};
ghost use Rattle.engine.specs.Step.{step as step_by};
ghost use Rattle.script.specs.Begun.{begun};
ghost use Rattle.stage.specs.Rows.{lent_order};

use crate::pay_lines::PayLines;
use crate::row::Row;
use answer::reply::{Answer, Reply};
use answer::scores::{Scores, no_scores};
use call::Call;
use call::refusal::Refusal;
use cashier::opening::{empty_table, opening};
use options::Options;
use script::orders::{Order, begun_order};
use table::Table;

// The table, the order that the next opening or load is lent, what the dealer called aloud at the last call, and the arrays that each call is lent.
#[derive(Clone, Copy)]
pub struct Stage {
    pub table: Table,
    pub order: Order,
    pub aloud: Scores,
    pub lines: PayLines,
}

impl Stage {
    // The empty table, which a refused opening gives, no order, and nothing called.
    pub fn new() -> Self
        ensures table { result.table ≡ empty_table }
        ensures order { result.order ≡ begun [] 0 }
        ensures aloud { result.aloud ≡ no_scores }
    {
        Stage {
            table: empty_table(),
            order: begun_order(b"", 0),
            aloud: no_scores(),
            lines: PayLines::new(),
        }
    }

    // The order that the next opening or load is lent.
    pub fn take_order(&mut self, row: Row<'_>)
        ensures order { self.new.order ≡ lent_order row.entry.front.now row.entry.words.now }
        ensures table { self.new.table ≡ self.old.table }
    {
        self.order = row.order();
    }

    // An opening with the order that was lent last. A refused one leaves the empty table.
    pub fn open(&mut self, house: Options) -> Result<(), Refusal>
        ensures { let cards = take (min self.old.order.count 416) self.old.order.cards in
            record { number = number_in result; table = self.new.table } ≡ outcome (open_conditions house cards) (open_table house cards) empty_table }
    {
        self.table = empty_table();
        self.table = opening(house, self.order.as_slice())?;
        Ok(())
    }

    // A call on the table, with the order that was lent last.
    pub fn play(&mut self, call: Call) -> Answer
        ensures { given_of (record { answer = result; table = self.new.table }) self.new.lines.names self.new.lines.nets
            ≡ given_by (step_by self.old.table call (take (min self.old.order.count 416) self.old.order.cards)) self.old.lines.names self.old.lines.nets }
    {
        let Reply { answer, table } = self.lines.step(self.table, call, self.order.as_slice());
        self.table = table;
        answer
    }
}
