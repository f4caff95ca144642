// A table that is not broken (docs/BROKEN.md): what every call reads behind number 1. Clauses see the table itself.
ghost use Rattle.std.specs.Prelude.{◌≡◌, false, length};
ghost use Rattle.table.specs.declared.Table.{Table};
ghost use Rattle.table.specs.Broken.{broken};

use crate::Table;
use std::marker::Model;

#[derive(Clone, Copy)]
pub struct Whole {
    table: Table,
}

impl Model for Whole {
    ghost Value = { Table };

    ghost view = { λ w. w.table };

    // Its arrays' lengths are known of its type; this one stands here for those who get the table behind a reference.
    ghost invariant = { λ w. (broken w.table ≡ false) × (length w.table.seats ≡ 9) };

    ghost inverse = { λ t. record { table = t } };
}

impl Whole {
    // For whoever has tested the table, or knows the call that left it.
    pub fn new(table: Table) -> Self
        requires { broken table ≡ false }
        ensures { result ≡ table }
    {
        Whole { table }
    }

    pub fn table(&self) -> &Table
        ensures same { result.now ≡ self.now }
        ensures whole { broken self.now ≡ false }
        ensures nine { length self.now.seats ≡ 9 }
    {
        &self.table
    }
}
