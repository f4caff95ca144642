// The table block (request 2.9): the options that it holds, and what is wrong with it.
ghost use Rattle.std.specs.Prelude.{◌≡◌};
ghost use Rattle.call.specs.Refusal.{first, number_in};
ghost use Rattle.file_spec.specs.TableBlock.{options_in, table_conditions, same_options, loaded_conditions};
ghost use Rattle.file_block.specs.Aids.Tables.{has_table};

use crate::block::{Block, all_zero, checks};
use call::refusal::Refusal;
use card_count::valid_order::valid_order;
use options::{Options, in_range};

// The options of a block.
pub fn options_in(block: &Block) -> Options
    ensures { result ≡ options_in block.now }
{
    Options {
        seats: block[0],
        decks: block[1],
        first: block[2],
        later: block[3],
        hands: block[4],
        aces: block[5],
        double: block[6],
        limit: block[7],
        insurance: block[8],
        five: block[9],
        prize: block[10],
        device: block[11],
        decider: block[12],
        cut: u16::from_le_bytes([block[13], block[14]]),
        smallest: u32::from_le_bytes([block[15], block[16], block[17], block[18]]),
        largest: u32::from_le_bytes([block[19], block[20], block[21], block[22]]),
    }
}

// Whether a block has options in range, an order for them, and zeros elsewhere.
fn has_table(block: &Block) -> bool
    ensures { result ≡ has_table block.now }
{
    if !in_range(options_in(block)) {
        return false;
    }
    let decks = block[1];
    let end = 32 + 52 * (decks as usize);
    valid_order(decks, &block[32..end]) && all_zero(&block[23..32]) && all_zero(&block[end..508])
}

// What is wrong with a table block: its check, else what it has.
pub fn check_table(block: &Block) -> Result<(), Refusal>
    ensures { number_in result ≡ first (table_conditions block.now) }
{
    if !checks(block) {
        return Err(Refusal::FileCheck);
    }
    if !has_table(block) {
        return Err(Refusal::FileContent);
    }
    Ok(())
}

// Whether two blocks have the same options.
pub(crate) fn same_options(start: &Block, block: &Block) -> bool
    ensures { result ≡ same_options start.now block.now }
{
    start[..23] == block[..23]
}

// What is wrong with a table block behind a load: the same, and options that are not those of the file's first block.
pub fn check_loaded(start: &Block, block: &Block) -> Result<(), Refusal>
    ensures { number_in result ≡ first (loaded_conditions start.now block.now) }
{
    check_table(block)?;
    if !same_options(start, block) {
        return Err(Refusal::FileContent);
    }
    Ok(())
}
