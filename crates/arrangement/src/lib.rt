// Which column stands where. An order is lent as an array of WIDEST places, of which the first ones, as many as the table has columns, count.
#![tactic(auto)]

ghost use Rattle.std.specs.Prelude.{◌≡◌, true};
ghost use Rattle.page.specs.Tables.{WIDEST};
ghost use Rattle.page.specs.Order.{upto, listed_order, place, column_in};
ghost use Rattle.page.specs.Marks.{may_mark};
ghost use Rattle.arrangement.specs.Orders.{held, Orderly};

use tables::{WIDEST, find_width, is_fillable};

// The columns of each table in the order of the documents.
const LISTED: [u8; WIDEST] = [
    0, 1, 2, 3, 4, 5, 6, 7, 8, 9, 10, 11, 12, 13, 14, 15, 16, 17, 18, 19,
];

// "exactly the columns below in this order": the same array for every table.
pub fn list_columns() -> [u8; WIDEST]
    ensures { result ≡ upto 0 WIDEST }
{
    LISTED
}

// The place of column c of table t; past the last, if it stands nowhere.
pub fn find_place(o: &[u8; WIDEST], t: usize, c: usize) -> usize
    requires { Orderly o.now }
    ensures { result ≡ place c (held t o.now) }
{
    let n = find_width(t);
    for p in 0..n {
        if o[p] as usize == c {
            return p;
        }
    }
    n
}

// Is this document 01's own order?
pub fn is_listed(o: &[u8; WIDEST], t: usize) -> bool
    requires { Orderly o.now }
    ensures { result ≡ true → held t o.now ≡ listed_order t }
{
    let n = find_width(t);
    o[..n] == LISTED[..n]
}

// The column, from 1, of field m, from 1; 0: none.
pub fn column_in(o: &[u8; WIDEST], t: usize, m: u64) -> u64
    requires { Orderly o.now }
    ensures { result ≡ column_in (held t o.now) m }
{
    if m < 1 {
        return 0;
    }
    let p = m as usize - 1;
    if find_width(t) <= p {
        return m;
    }
    o[p] as u64 + 1
}

// "Only these may be marked": field i, from 1.
pub fn may_mark(t: usize, o: &[u8; WIDEST], i: u64) -> bool
    requires { Orderly o.now }
    ensures { result ≡ may_mark t (held t o.now) i }
{
    if i < 1 {
        return false;
    }
    let p = i as usize - 1;
    p < find_width(t) && is_fillable(t, o[p] as usize)
}
