// The tray, replaced, for the calls that move money between it and the house: fill and credit.
ghost use Rattle.std.specs.Prelude.{◌≡◌};
ghost use Rattle.table.specs.Table.{with_tray};

use table::Table;

// The table with another tray.
pub(crate) fn with_tray(t: Table, tray: u64) -> Table
    ensures { result ≡ with_tray t tray }
{
    let mut next = t;
    next.tray = tray;
    next
}
