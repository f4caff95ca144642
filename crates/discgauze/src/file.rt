// The session file: the number of any bytes, what a checked file hands out, and the writer. C reads numbers where the crates below answer a Result or an Option.
ghost use Rattle.std.specs.Prelude.{◌≡◌, cond, leb, length, take, [], ◌∷◌, Err};
ghost use Rattle.options.specs.Ranges.{no_options};
ghost use Rattle.file_spec.specs.Number.{file_number};
ghost use Rattle.file_spec.specs.Handed.{file_options};
ghost use Rattle.file_spec.specs.Reader.{first_place, handed_at};
ghost use Rattle.file_spec.specs.Writer.{begun, ended, written};
ghost use Rattle.file_writer.specs.Writer.{calls_of, written_of};
ghost use Rattle.replaying.specs.Playing.{Opened};
ghost use Rattle.discgauze.specs.File.{file_call_of, file_call_by, added_by, last_of, Gives};

use crate::calls::call_by;
use answer::outcome::{Outcome, outcome_in};
use call::refusal::Refusal;
use cashier::opening::empty_table;
use file_block::block::Block;
use file_writer::codes::parts_of;
use file_writer::writer::{Blocks, Writer};
use options::Options;
use replaying::open_file;
use session_file::check::check_file;
use session_file::reader::{call_at, file_options, first_place};

// The number of a file: 0, 24, 25 or 26. Numbers and bytes here and below: C reads them and hands them over.
#[unsafe(no_mangle)]
pub extern "C" fn discgauze_file_number(file: &[u8]) -> u8
    ensures { result ≡ file_number file.now }
{
    match check_file(file) {
        Ok(()) => 0,
        Err(why) => why.number(),
    }
}

// The options that its session opens with; none where the file has no block.
#[unsafe(no_mangle)]
pub extern "C" fn discgauze_file_options(file: &[u8]) -> Options
    ensures { result ≡ cond (leb 512 (length file.now)) (file_options file.now) no_options }
{
    file_options(file)
}

// The number of the whole file, and the table that its session opens with; the empty table where the file is refused.
#[unsafe(no_mangle)]
pub extern "C" fn discgauze_file_opened(file: &[u8]) -> Outcome
    ensures { Opened file.now result }
{
    outcome_in(&empty_table(), open_file(file).map(|t| *t.table()))
}

// The place of the first call; the end for a refused file.
#[unsafe(no_mangle)]
pub extern "C" fn discgauze_file_first(file: &[u8]) -> usize
    ensures { result ≡ first_place file.now }
{
    first_place(file)
}

// A call that the file hands out, by its numbers; the place and the number of cards of the order that a load reads; the place behind the call.
// C reads it: so a flag and no Option, and the kind as a number.
#[repr(C)]
#[derive(Clone, Copy)]
pub struct FileCall {
    pub found: bool,
    pub kind: u8,
    pub seat: u8,
    pub position: u8,
    pub amount: u64,
    pub order: usize,
    pub cards: usize,
    pub behind: usize,
}

// The call at a place.
#[unsafe(no_mangle)]
pub extern "C" fn discgauze_file_call(file: &[u8], at: usize) -> FileCall
    ensures { file_call_of file.now result ≡ file_call_by (handed_at file.now at) }
{
    let Some(h) = call_at(file, at) else {
        return FileCall {
            found: false,
            kind: 0,
            seat: 0,
            position: 0,
            amount: 0,
            order: 0,
            cards: 0,
            behind: at,
        };
    };
    let parts = parts_of(h.call);
    FileCall {
        found: true,
        kind: parts.kind.unwrap_or(0),
        seat: parts.seat,
        position: parts.position,
        amount: parts.amount,
        order: h.order,
        cards: h.cards,
        behind: h.behind,
    }
}

// What the writer gives: a number; how many blocks are now complete, none, one or two, and these; the writer to go on with.
// C reads it: so a number, and how many of the two blocks count.
#[repr(C)]
#[derive(Clone, Copy)]
pub struct Written {
    pub number: u8,
    pub blocks: u8,
    pub first: Block,
    pub second: Block,
    pub writer: Writer,
}

// What it gives at the end: one block or none. C reads it too: so a number of blocks and no Option.
#[repr(C)]
#[derive(Clone, Copy)]
pub struct Last {
    pub blocks: u8,
    pub block: Block,
}

// So many of these blocks are complete.
fn given(blocks: u8, first: Block, second: Block, writer: Writer) -> Written
    ensures { Gives writer.options (written (take blocks (first ∷ second ∷ [])) writer.many (calls_of writer)) result }
{
    Written {
        number: 0,
        blocks,
        first,
        second,
        writer,
    }
}

// Nothing was written.
fn refused(why: Refusal, writer: Writer) -> Written
    ensures { Gives writer.options (written_of (Err why) writer) result }
{
    Written {
        number: why.number(),
        blocks: 0,
        first: [0; 512],
        second: [0; 512],
        writer,
    }
}

// The beginning of a session's file.
#[unsafe(no_mangle)]
pub extern "C" fn discgauze_file_begin(options: Options, order: &[u8]) -> Written
    ensures { Gives options (begun options order.now) result }
{
    match Writer::begin(options, order) {
        Ok(begun) => {
            let table = begun.1;
            given(1, table, [0; 512], begun.0)
        }
        Err(why) => refused(why, Writer::new(options)),
    }
}

// One more accepted call, and the order that a load read.
#[unsafe(no_mangle)]
pub extern "C" fn discgauze_file_add(
    writer: Writer,
    kind: u8,
    seat: u8,
    position: u8,
    amount: u64,
    order: &[u8],
) -> Written
    ensures { Gives writer.options (added_by writer kind seat position amount order.now) result }
{
    // The writer changes where it lies in what is given, and the blocks' room is cleared once.
    let mut r = Written {
        number: 0,
        blocks: 0,
        first: [0; 512],
        second: [0; 512],
        writer,
    };
    match r.writer.add(call_by(kind, seat, position, amount), order) {
        Ok(Blocks::None) => {}
        Ok(Blocks::One(block)) => {
            r.blocks = 1;
            r.first = block;
        }
        Ok(Blocks::Two(both)) => {
            r.blocks = 2;
            r.first = both[0];
            r.second = both[1];
        }
        Err(why) => r.number = why.number(),
    }
    r
}

// The end of a session's file.
#[unsafe(no_mangle)]
pub extern "C" fn discgauze_file_end(writer: Writer) -> Last
    ensures { last_of result ≡ ended writer.many (calls_of writer) }
{
    match writer.end() {
        Some(block) => Last { blocks: 1, block },
        None => Last {
            blocks: 0,
            block: [0; 512],
        },
    }
}
