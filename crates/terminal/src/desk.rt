// What is kept from line to line, and how a session goes on: each accepted call is told to the writer, and the blocks that it gives are kept.
use crate::asked::first_guest;
use crate::orders::{Source, by_seed};
use answer::reply::{Answer, Reply};
use call::{At, Call};
use cashier::opening::empty_table;
use file_block::block::Block;
use file_writer::writer::Writer;
use options::Options;
use stage::pay_lines::PayLines;
use state::empty::no_options;
use std::alloc::{AllocError, Global};
use std::slice;
use table::Table;

// The bytes that a session's file may have here, 2048 blocks.
pub(crate) const ROOM: usize = 1048576;

// The table and its house; how the next order is made; the arrays that each call is lent; the writer, the blocks of the file that are complete and whether some had no room; the guest who called
// last; whether it is over.
#[derive(Drop)]
pub(crate) struct Desk {
    pub table: Table,
    pub house: Options,
    pub source: Source,
    pub lines: PayLines,
    pub writer: Writer,
    pub file: Vec<u8>,
    // A fact of the session, with no value beside it.
    pub lost: bool,
    pub guest: At,
    pub over: bool,
}

impl Desk {
    // The empty table, which a refused opening gives.
    pub(crate) fn new(alloc: Global) -> Self {
        Desk {
            table: empty_table(),
            house: no_options(),
            source: by_seed(1),
            lines: PayLines::new(),
            writer: Writer::new(no_options()),
            file: Vec::new(alloc),
            lost: false,
            guest: first_guest(),
            over: false,
        }
    }

    // The blocks that are complete now, laid behind the others; one that has no room is lost.
    fn lay(&mut self, blocks: &[Block]) -> Result<(), AllocError> {
        for block in blocks {
            if self.file.len() <= ROOM - 512 {
                self.file.extend_from_slice(block)?;
            } else {
                self.lost = true;
            }
        }
        Ok(())
    }

    // A new session with the table that an opening gave.
    pub(crate) fn open(
        &mut self,
        table: Table,
        house: Options,
        order: &[u8],
    ) -> Result<(), AllocError> {
        self.table = table;
        self.house = house;
        self.file.clear();
        self.lost = false;
        self.guest = first_guest();
        match Writer::begin(house, order) {
            Ok(begun) => {
                let block = begun.1;
                self.writer = begun.0;
                self.lay(slice::from_ref(&block))
            }
            Err(_) => {
                self.writer = Writer::new(house);
                Ok(())
            }
        }
    }

    // One call; a refused one leaves the session as it was.
    pub(crate) fn call(&mut self, call: Call, order: &[u8]) -> Result<Answer, AllocError> {
        let Reply { answer, table } = self.lines.step(self.table, call, order);
        // An answer's number, as C reads it: 0 is accepted.
        if answer.number != 0 {
            return Ok(answer);
        }
        self.table = table;
        if let Ok(blocks) = self.writer.add(call, order) {
            self.lay(blocks.as_slice())?;
        }
        Ok(answer)
    }
}
