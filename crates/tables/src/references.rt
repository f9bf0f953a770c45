// The keys and references of a table.
ghost use Rattle.std.specs.Prelude.{◌≡◌, eqb, length};
ghost use Rattle.page.specs.File.{any};
ghost use Rattle.page.specs.Tables.{table_at, column_at};
ghost use Rattle.tables.specs.Keys.{by_key, key_columns, reference_at, refer_columns, target_at};

use crate::rows::find_table;
use crate::{TABLES, WIDEST, find_column};

// Whether a column belongs to the primary key of table t, or to its second one.
fn is_key(t: usize, second: bool, k: usize) -> bool
    ensures { result ≡ by_key second (column_at t k) }
{
    let column = find_column(t, k);
    if second {
        column.second
    } else {
        column.primary
    }
}

pub fn find_key(t: usize, second: bool) -> [bool; WIDEST]
    ensures { result ≡ key_columns (by_key second) t }
{
    std::array::from_fn(|k| is_key(t, second, k))
}

pub fn count_references(t: usize) -> usize
    ensures { result ≡ length (table_at t).references }
{
    find_table(t).references.len()
}

fn list_columns(t: usize, r: usize) -> &'static [usize]
    ensures { result.now ≡ (reference_at t r).columns }
{
    let references = find_table(t).references;
    if r < references.len() {
        references[r].columns
    } else {
        &[]
    }
}

fn is_among(columns: &[usize], k: usize) -> bool
    ensures { result ≡ any (eqb k) columns.now }
{
    columns.contains(&k)
}

// The columns of reference r of table t, from 0.
pub fn find_reference(t: usize, r: usize) -> [bool; WIDEST]
    ensures { result ≡ refer_columns t r }
{
    let columns = list_columns(t, r);
    std::array::from_fn(|k| is_among(columns, k))
}

// The table that it goes to; past the last, if there is none.
pub fn find_target(t: usize, r: usize) -> usize
    ensures { result ≡ target_at t r }
{
    let references = find_table(t).references;
    if r < references.len() {
        references[r].target
    } else {
        TABLES
    }
}
