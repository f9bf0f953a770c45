// A table is named by its place in the list, from 0; past the last stands a table of no columns, and past its last column one that takes
// nothing.
#![tactic(auto, unfolding(page::specs::Tables::number_at, page::specs::Tables::name_at, page::specs::Tables::column_at, page::specs::Tables::rules))]

ghost use Rattle.std.specs.Prelude.{◌≡◌};
ghost use Rattle.page.specs.Bytes.{bytes};
ghost use Rattle.page.specs.Tables.{table_at, number_at, width, column_at, name_at, rules};
ghost use Rattle.tables.specs.Rows.{rules_of};

use crate::Rule;
use crate::rows::{find_named, find_table};
use page::Column;

pub fn find_number(t: usize) -> u32
    ensures { result ≡ number_at t }
{
    find_table(t).number
}

#[tactic(auto, using(crate::proofs::RowLaws::row_width), unfolding(page::specs::Tables::width, page::specs::Tables::columns))]
pub fn find_width(t: usize) -> usize
    ensures { result ≡ width t }
{
    find_table(t).columns.len()
}

pub fn find_rule(t: usize) -> Option<Rule>
    ensures { rules_of result ≡ rules t }
{
    find_table(t).rule
}

pub fn find_title(t: usize) -> &'static [u8]
    ensures { result.now ≡ bytes (table_at t).name }
{
    find_table(t).name
}

pub fn find_name(t: usize, k: usize) -> &'static [u8]
    ensures { result.now ≡ bytes (name_at t k) }
{
    find_named(t, k).name
}

pub fn find_column(t: usize, k: usize) -> Column
    ensures { result ≡ column_at t k }
{
    find_named(t, k).column
}

pub fn is_text(t: usize, k: usize) -> bool
    ensures { result ≡ (column_at t k).text }
{
    find_column(t, k).text
}

pub fn is_fillable(t: usize, k: usize) -> bool
    ensures { result ≡ (column_at t k).fillable }
{
    find_column(t, k).fillable
}
