// Why a fill is refused where the file is accepted and the field is there.
ghost use Rattle.std.specs.Prelude.{◌≡◌, ◌-◌, ◌<◌};
ghost use Rattle.page.specs.Tables.{column_at};
ghost use Rattle.page.specs.Head.{latin_of};
ghost use Rattle.page.specs.Records.{table_index};
ghost use Rattle.page.specs.Reading.{section_at, find_refusal};
ghost use Rattle.fills.specs.Filling.{empty_value, text_number, fill_number};

use names::table_at;
use page::Value;

// "text empty 11, text byte not allowed in a `rec` 4, over 40 bytes 13"
fn judge_text(s: &[u8], text: &[u8]) -> u32
    ensures { result ≡ text_number (latin_of s.now) text.now }
{
    if text.len() == 0 {
        return 11;
    }
    let latin = headers::read_charset(s);
    if !lines::all_allowed(text, latin) {
        return 4;
    }
    if 40 < text.len() {
        return 13;
    }
    0
}

// 22: "field to fill is not empty"
fn is_empty(v: Value) -> bool
    ensures { result ≡ empty_value v }
{
    match v {
        Value::Number(_) => false,
        Value::Missing => false,
        Value::Words(x) => x.from == x.to,
    }
}

// 23: "field may not be filled"; field f counts from 1, in section i.
fn is_fillable(s: &[u8], i: usize, f: usize) -> bool
    requires { ((find_refusal s.now i).number ≡ 0) × (0 < f) }
    ensures { result ≡ (column_at (table_index (section_at s.now i).lines) (f - 1)).fillable }
{
    match sections::locate(s, i) {
        Ok(at) => tables::is_fillable(table_at(s, at), f - 1),
        Err(_) => false,
    }
}

// v is the value of field f, from 1, of a record of section i. A number, and 0 for none, as the definition `fill_number` has it.
pub fn judge_fill(s: &[u8], i: usize, f: usize, v: Value, text: &[u8]) -> u32
    requires { ((find_refusal s.now i).number ≡ 0) × (0 < f) }
    ensures { result ≡ fill_number (column_at (table_index (section_at s.now i).lines) (f - 1)).fillable (empty_value v) (latin_of s.now) text.now }
{
    if !is_fillable(s, i, f) {
        return 23;
    }
    if !is_empty(v) {
        return 22;
    }
    judge_text(s, text)
}
