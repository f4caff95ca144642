// Bytes laid into a block, and its check.
ghost use Rattle.std.specs.Prelude.{◌≡◌, ◌+◌, ◌≤◌, length};
ghost use Rattle.std.proofs.Math.Seq.{paste};
ghost use Rattle.file_spec.specs.Block.{content, sealed};

use file_block::block::{Block, check_sum};

// These bytes, from a place on.
pub(crate) fn put(block: &mut Block, at: usize, bytes: &[u8])
    requires { at + length bytes.now ≤ 512 }
    ensures { block.new ≡ paste block.old at bytes.now (length bytes.now) }
{
    block[at..at + bytes.len()].copy_from_slice(bytes);
}

// The check of the first 508 bytes behind them.
pub(crate) fn seal(block: &mut Block)
    ensures { block.new ≡ sealed (content block.old) }
{
    let check = check_sum(block).to_le_bytes();
    put(block, 508, &check);
}
