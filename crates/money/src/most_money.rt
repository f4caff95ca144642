// The test of document 01's 10^15 ("all money on the table"), for any table and any amount: no sum wraps.
ghost use Rattle.std.specs.Prelude.{◌≡◌, ◌+◌, ltb};
ghost use Rattle.table.specs.Money.{most_money};

use crate::sums::{MOST_MONEY, Sums};

// Whether tray, layout, purses and n more are past the limit. A sum past 64 bits stays at the most that they hold, which is past it too.
pub fn past_most_money(tray: u64, m: Sums, n: u64) -> bool
    ensures { result ≡ ltb most_money (tray + m.laid + m.purses + n) }
{
    MOST_MONEY
        < tray
            .saturating_add(m.laid)
            .saturating_add(m.purses)
            .saturating_add(n)
}
