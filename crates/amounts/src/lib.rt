// A number column's field by the number that it reads as: a number within its range, and a real day where that is asked, a missing number, or a
// refusal by its number.
#![tactic(auto)]

ghost use Rattle.std.specs.Prelude.{◌≡◌, false, ◌-◌, ◌≤◌, length, take, drop};
ghost use Rattle.page.specs.Bytes.{pick, trim};
ghost use Rattle.page.specs.Fields.{number_of};
ghost use Rattle.page.specs.Section.{day_field, number_field, left_out, field_of};
ghost use Rattle.page.specs.declared.Number.TheVariants as N;
ghost use Rattle.page.specs.declared.Field.TheVariants as F;

use calendar::is_real_day;
use page::{Column, Field, Number};

// No number stands in the part of w from one place to another. "Where a column there allows NULL, an empty field is a missing number": any
// other is 12.
fn judge_nothing(w: &[u8], from: usize, to: usize, optional: bool) -> Field
    requires { (from ≤ to) × (to ≤ length w.now) }
    ensures { result ≡ pick (left_out optional (trim (take (to - from) (drop from w.now)))) F.Missing (F.Refused 12) }
{
    if optional && lines::trimmed(&w[from..to]).is_empty() {
        Field::Missing
    } else {
        Field::Refused(12)
    }
}

// "26, no such day"
#[tactic(auto, unfolding(page::specs::Section::day_field))]
fn judge_day(n: u64, day: bool) -> Field
    ensures { result ≡ day_field day n }
{
    if !day || is_real_day(n) {
        Field::Number(n)
    } else {
        Field::Refused(26)
    }
}

// 13, "26, no such day, at its field directly after 13"
#[tactic(auto, unfolding(page::specs::Section::number_field))]
fn judge_amount(n: u64, lo: u64, hi: u64, day: bool) -> Field
    ensures { result ≡ number_field day lo hi (N.Plus n) }
{
    if n < lo || hi < n {
        Field::Refused(13)
    } else {
        judge_day(n, day)
    }
}

// 12, 13, 26: a number column's field is the part of w from one place to another, and reads as this number.
pub fn judge_number(w: &[u8], from: usize, to: usize, number: Number, column: Column) -> Field
    requires { (from ≤ to) × (to ≤ length w.now) × (column.text ≡ false) × (number ≡ number_of (trim (take (to - from) (drop from w.now)))) }
    ensures { result ≡ field_of column (trim (take (to - from) (drop from w.now))) }
{
    match number {
        Number::Plus(n) => judge_amount(n, column.lo, column.hi, column.day),
        Number::Minus(_) => Field::Refused(13),
        Number::Nothing => judge_nothing(w, from, to, column.optional),
    }
}
