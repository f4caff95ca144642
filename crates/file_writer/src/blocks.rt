// The two blocks that a writer gives (request 2.9).
ghost use Rattle.std.specs.Prelude.{◌≡◌, ◌*◌, take};
ghost use Rattle.file_spec.specs.Block.{padded};
ghost use Rattle.file_spec.specs.TableBlock.{option_bytes as option_bytes_of, table_block};
ghost use Rattle.file_spec.specs.Writer.{block_of};

use crate::bytes::{put, seal};
use file_block::block::Block;
use options::Options;

// The options at their places, zeros behind them.
fn option_bytes(o: Options) -> [u8; 32]
    ensures { result ≡ padded 32 (option_bytes_of o) }
{
    let cut = o.cut.to_le_bytes();
    let smallest = o.smallest.to_le_bytes();
    let largest = o.largest.to_le_bytes();
    [
        o.seats,
        o.decks,
        o.first,
        o.later,
        o.hands,
        o.aces,
        o.double,
        o.limit,
        o.insurance,
        o.five,
        o.prize,
        o.device,
        o.decider,
        cut[0],
        cut[1],
        smallest[0],
        smallest[1],
        smallest[2],
        smallest[3],
        largest[0],
        largest[1],
        largest[2],
        largest[3],
        0,
        0,
        0,
        0,
        0,
        0,
        0,
        0,
        0,
    ]
}

// The table block of options and an order; of an order too long for a block the first 476 cards.
pub(crate) fn table_block(o: Options, order: &[u8]) -> Block
    ensures { result ≡ table_block o order.now }
{
    let mut block = [0; 512];
    let used = order.len().min(476);
    put(&mut block, 0, &option_bytes(o));
    put(&mut block, 32, &order[..used]);
    seal(&mut block);
    block
}

// The call block of so many calls, from their bytes.
pub(crate) fn call_block(many: u8, bytes: &[u8; 500]) -> Block
    ensures { result ≡ block_of many (take (10 * many) bytes.now) }
{
    let mut block = [0; 512];
    let used = (10 * usize::from(many)).min(500);
    block[0] = many;
    put(&mut block, 1, &bytes[..used]);
    seal(&mut block);
    block
}
