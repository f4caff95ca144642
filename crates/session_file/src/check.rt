// What is wrong with any bytes as a session file (request 2.9): the length of the whole, then block by block the check before the content.
ghost use Rattle.std.specs.Prelude.{◌≡◌, false, cond};
ghost use Rattle.call.specs.Refusal.{first, number_in};
ghost use Rattle.file_spec.specs.TableBlock.{loaded_conditions};
ghost use Rattle.file_spec.specs.CallBlock.{call_conditions};
ghost use Rattle.file_spec.specs.Number.{number_behind, file_number};

use call::refusal::Refusal;
use file_block::block::Block;
use file_block::call_block::{check_calls, ends_in_load};
use file_block::table_block::{check_loaded, check_table};

// A block behind the first: a table block where one has to follow a load, else a call block. Whether it has to is what the walk has read so far, so it is a value and no choice of the caller's.
fn check_block(start: &Block, loaded: bool, last: bool, block: &Block) -> Result<(), Refusal>
    ensures { number_in result ≡ cond loaded (first (loaded_conditions start.now block.now)) (first (call_conditions last block.now)) }
{
    if loaded {
        check_loaded(start, block)
    } else {
        check_calls(last, block)
    }
}

// The blocks behind the first.
fn check_behind(start: &Block, blocks: &[Block]) -> Result<(), Refusal>
    ensures { number_in result ≡ number_behind start.now false blocks.now }
{
    let mut loaded = false;
    for (i, block) in blocks.iter().enumerate() {
        check_block(start, loaded, i + 1 == blocks.len(), block)?;
        loaded = !loaded && ends_in_load(block);
    }
    Ok(())
}

// A whole file.
pub fn check_file(file: &[u8]) -> Result<(), Refusal>
    ensures { number_in result ≡ file_number file.now }
{
    let (blocks, rest) = file.as_chunks();
    if !rest.is_empty() {
        return Err(Refusal::FileLength);
    }
    let Some((start, behind)) = blocks.split_first() else {
        return Err(Refusal::FileLength);
    };
    check_table(start)?;
    check_behind(start, behind)
}
