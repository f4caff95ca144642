// What table blocks and call blocks share (request 2.9): 512 bytes, the check in the last four, and zeros.
ghost use Rattle.std.specs.Prelude.{◌≡◌};
ghost use Rattle.file_spec.specs.Block.{weighed, content, checks as checks_of};
ghost use Rattle.file_block.specs.Aids.Tables.{all_zero};

pub type Block = [u8; 512];

// The sum over a block's first 508 bytes of byte times (its place + 1). The loop has no branch, so that the compiler sums several at a time.
pub fn check_sum(block: &Block) -> u32
    ensures { result ≡ weighed 0 (content block.now) }
{
    let mut sum = 0;
    for (i, &byte) in block[..508].iter().enumerate() {
        sum += u32::from(byte) * (i as u32 + 1);
    }
    sum
}

// Whether a block's check is that of its bytes.
pub(crate) fn checks(block: &Block) -> bool
    ensures { result ≡ checks_of block.now }
{
    let check = u32::from_le_bytes([block[508], block[509], block[510], block[511]]);
    check == check_sum(block)
}

// Whether every byte is zero.
pub(crate) fn all_zero(bytes: &[u8]) -> bool
    ensures { result ≡ all_zero bytes.now }
{
    bytes.iter().all(|&byte| byte == 0)
}
