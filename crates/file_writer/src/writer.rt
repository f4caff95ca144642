// The writer (request 2.9). It keeps the options and the bytes of the block that is still open. What no file can hold is refused by 26, and then nothing has changed; an accepted call
// is always written.
ghost use Rattle.std.specs.Prelude.{◌≡◌, [], ◌++◌, ◌<◌, ◌+◌, IfOk, option_to_list};
ghost use Rattle.file_spec.specs.Writer.{block_of, begun, added, ended};
ghost use Rattle.file_writer.specs.Writer.{calls_of, blocks_in, begun_of, written_of};

use crate::blocks::{call_block, table_block};
use crate::codes::Code;
use call::Call;
use call::refusal::Refusal;
use card_count::valid_order::valid_order;
use file_block::block::Block;
use options::{Options, in_range};
use std::slice;

// C holds it by value, so the calls are a fixed array with their number beside it.
#[repr(C)]
#[derive(Clone, Copy)]
pub struct Writer {
    pub options: Options,
    // The calls of the open block, below 50, and their bytes.
    pub many: u8,
    pub bytes: [u8; 500],
}

// The blocks that are now complete: none, a full call block, or one that ends in a load with the table block behind it.
#[derive(Clone, Copy)]
pub enum Blocks {
    None,
    One(Block),
    Two([Block; 2]),
}

impl Blocks {
    pub fn as_slice(&self) -> &[Block]
        ensures { result.now ≡ blocks_in self.now }
    {
        match self {
            Blocks::None => &[],
            Blocks::One(block) => slice::from_ref(block),
            Blocks::Two(blocks) => blocks,
        }
    }
}

impl Writer {
    // A writer whose open block has no call.
    pub fn new(options: Options) -> Writer
        ensures { (result.options ≡ options) × (calls_of result ≡ []) × (result.many ≡ 0) }
    {
        Writer {
            options,
            many: 0,
            bytes: [0; 500],
        }
    }

    // The beginning of a session: the writer, and the table block.
    pub fn begin(options: Options, order: &[u8]) -> Result<(Writer, Block), Refusal>
        ensures gives { begun_of result ≡ begun options order.now }
        ensures options { IfOk result (λ begun. begun.0.options ≡ options) }
    {
        if !in_range(options) || !valid_order(options.decks, order) {
            return Err(Refusal::FileContent);
        }
        Ok((Writer::new(options), table_block(options, order)))
    }

    // The ten bytes of one more call behind the others.
    fn push(&mut self, code: Code)
        requires { self.old.many < 50 }
        ensures options { self.new.options ≡ self.old.options }
        ensures many { self.new.many ≡ self.old.many + 1 }
        ensures calls { calls_of self.new ≡ calls_of self.old ++ code.0 }
    {
        let at = 10 * usize::from(self.many);
        self.bytes[at..at + 10].copy_from_slice(&code.0);
        self.many += 1;
    }

    // The open block, closed; the next has no call.
    fn close(&mut self) -> Block
        ensures block { result ≡ block_of self.old.many (calls_of self.old) }
        ensures after { (self.new.options ≡ self.old.options) × (calls_of self.new ≡ []) × (self.new.many ≡ 0) }
    {
        let block = call_block(self.many, &self.bytes);
        // C reads the bytes behind the open block's calls too: they are zeros, as in a new writer.
        *self = Writer::new(self.options);
        block
    }

    // One more accepted call. A full block, and one that ends in a load with the table block behind it, are given out.
    pub fn add(&mut self, call: Call, order: &[u8]) -> Result<Blocks, Refusal>
        ensures gives { written_of result self.new ≡ added self.old.options self.old.many (calls_of self.old) (record { call = call; order = order.now }) }
        ensures options { self.new.options ≡ self.old.options }
    {
        if 50 <= self.many {
            return Err(Refusal::FileContent);
        }
        let code = Code::try_from(call)?;
        if let Call::Load = call {
            if !valid_order(self.options.decks, order) {
                return Err(Refusal::FileContent);
            }
            self.push(code);
            let block = self.close();
            return Ok(Blocks::Two([block, table_block(self.options, order)]));
        }
        self.push(code);
        if self.many == 50 {
            return Ok(Blocks::One(self.close()));
        }
        Ok(Blocks::None)
    }

    // The end of a session: the open block, where it has a call.
    pub fn end(&self) -> Option<Block>
        ensures { option_to_list result ≡ ended self.now.many (calls_of self.now) }
    {
        if self.many == 0 {
            return None;
        }
        Some(call_block(self.many, &self.bytes))
    }
}
