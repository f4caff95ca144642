// One session of the workload, played and written as its file.
use answer::reply::Reply;
use cashier::opening::opened;
use file_block::block::Block;
use file_writer::writer::Writer;
use stage::pay_lines::PayLines;
use std::alloc::{AllocError, Global};
use std::slice;
use table::Table;
use workload::house::{cards_of, options_of, order_of};
use workload::plan::{Plan, Stage, after, chosen, start};

// More calls than one session of the workload has.
const MOST: usize = 4096;

// The plan, the table, the arrays that each call is lent, the writer, and the bytes of the file that are complete.
#[derive(Drop)]
pub(crate) struct Session {
    plan: Plan,
    pub(crate) table: Table,
    lines: PayLines,
    writer: Writer,
    pub(crate) file: Vec<u8>,
}

impl Session {
    // The session opens with the order of its seed.
    fn begin(alloc: Global) -> Result<Self, AllocError> {
        let plan = start();
        let options = options_of(plan.decks);
        let cards = order_of(plan.decks, plan.seed);
        let order = &cards[..cards_of(plan.decks)];
        let mut session = Session {
            plan,
            table: opened(options, order).table,
            lines: PayLines::new(),
            writer: Writer::new(options),
            file: Vec::new(alloc),
        };
        if let Ok(begun) = Writer::begin(options, order) {
            let block = begun.1;
            session.writer = begun.0;
            session.lay(slice::from_ref(&block))?;
        }
        Ok(session)
    }

    // These blocks behind the others.
    fn lay(&mut self, blocks: &[Block]) -> Result<(), AllocError> {
        for block in blocks {
            self.file.extend_from_slice(block)?;
        }
        Ok(())
    }

    fn is_over(&self) -> bool {
        self.plan.stage == Stage::Open
    }

    // One call, lent an order that only a load reads: where it is accepted it is written.
    fn tell(&mut self) -> Result<(), AllocError> {
        let plan = self.plan;
        let call = chosen(plan);
        let cards = order_of(plan.decks, plan.seed);
        let order = &cards[..cards_of(plan.decks)];
        let Reply { answer, table } = self.lines.step(self.table, call, order);
        self.table = table;
        self.plan = after(plan, answer.number, table);
        // An answer's number, as C reads it: 0 is accepted.
        if answer.number != 0 {
            return Ok(());
        }
        match self.writer.add(call, order) {
            Ok(blocks) => self.lay(blocks.as_slice()),
            Err(_) => Ok(()),
        }
    }

    // The block that is still open.
    fn finish(&mut self) -> Result<(), AllocError> {
        match self.writer.end() {
            Some(block) => self.lay(slice::from_ref(&block)),
            None => Ok(()),
        }
    }
}

// The whole session; the count only bounds the loop.
pub(crate) fn written_session(alloc: Global) -> Result<Session, AllocError> {
    let mut session = Session::begin(alloc)?;
    for _ in 0..MOST {
        if session.is_over() {
            break;
        }
        session.tell()?;
    }
    session.finish()?;
    Ok(session)
}
