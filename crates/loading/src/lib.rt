// A sheet's sizes in a working table, and its diagonal's parameters: leaving rates on the table's diagonal,
// or margins in a vector (document 01, "The sheet and its two readings"; document 02, U10). A zero of either sign becomes
// plus zero. Places outside the sheet keep their numbers.
#![tactic(auto)]

ghost use Rattle.std.specs.Prelude.{◌<◌};
ghost use Rattle.definitions.specs.Sheet.{size, diagonal};
ghost use Rattle.tables.specs.RowMajor.{table, Holds};
ghost use Rattle.tables.specs.Operators.{between, span};
ghost use Rattle.tables.specs.Vectors.{vector, VectorHolds};
ghost use Rattle.loading.specs.LoadedTable.{negated, with_sizes, with_rates};

use shape::sheets::Sheet;
use tables::{row, vector};

// Row i as if the diagonal place held a rate too: one plain loop.
fn negate_row(i: usize, sheet: Sheet<'_>, t: &mut [f64; 1024])
    requires { i < sheet.n }
    ensures { Holds t.new (span i 0 sheet.entry.n (negated sheet.entry.n sheet.entry.numbers.now i) (table t.old)) }
{
    for j in 0..sheet.n {
        let x = sheet.number_at(i, j);
        row::put(i, j, 0.0 - x, t);
    }
}

// Row i: the sizes, and plus zero on the diagonal.
fn load_row(i: usize, sheet: Sheet<'_>, t: &mut [f64; 1024])
    requires { i < sheet.n }
    ensures { Holds t.new (span i 0 sheet.entry.n (size sheet.entry.n sheet.entry.numbers.now i) (table t.old)) }
{
    negate_row(i, sheet, t);
    row::put(i, i, 0.0, t);
}

pub fn sizes(sheet: Sheet<'_>, t: &mut [f64; 1024])
    ensures { Holds t.new (with_sizes sheet.entry.n sheet.entry.numbers.now (table t.old)) }
{
    for i in 0..sheet.n {
        load_row(i, sheet, t);
    }
}

// The leaving rates on the diagonal of a table.
pub fn rates(sheet: Sheet<'_>, t: &mut [f64; 1024])
    ensures { Holds t.new (with_rates sheet.entry.n sheet.entry.numbers.now (table t.old)) }
{
    for i in 0..sheet.n {
        let x = sheet.number_at(i, i);
        row::put(i, i, x + 0.0, t);
    }
}

// The margins in a vector.
pub fn margins(sheet: Sheet<'_>, d: &mut [f64; 32])
    ensures { VectorHolds d.new (between 0 sheet.entry.n (diagonal sheet.entry.n sheet.entry.numbers.now) (vector d.old)) }
{
    for i in 0..sheet.n {
        let x = sheet.number_at(i, i);
        vector::put(i, x + 0.0, d);
    }
}
