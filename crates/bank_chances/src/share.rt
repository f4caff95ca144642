// A count's share of all draws (request 2.10).
ghost use Rattle.std.specs.Prelude.{◌≡◌};
ghost use Rattle.bank_chances.specs.Share.{share_of};

// In parts of ten thousand, rounded down; by two steps of a hundred, so that no product is past 64 bits.
pub fn share(count: u64, all: u64) -> u64
    ensures { result ≡ share_of count all }
{
    if all == 0 {
        return 0;
    }
    if 10_000_000_000_000_000 < all {
        return 0;
    }
    if all < count {
        return 0;
    }
    let hundredths = count * 100;
    hundredths / all * 100 + hundredths % all * 100 / all
}
