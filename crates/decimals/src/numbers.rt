// "Numbers without leading zeros", and what is made of numbers.
ghost use Rattle.std.specs.Prelude.{◌≡◌, ◌∷◌, ◌++◌, ◌+◌, ◌%◌};
ghost use Rattle.page.specs.Form.{decimal_in, decimal, padded, date_text, time_text, format_text};
ghost use Rattle.output.specs.Put.{Puts};

use output::Output;
use page::{Column, Date, Time};

// The last digit.
fn digit_of(n: u64) -> u8
    ensures { result ≡ 48 + n % 10 }
{
    48 + (n % 10) as u8
}

// At most k + 1 digits, the first put first: by recursion, as in the definition `decimal_in`, since a loop would need an array for them.
fn put_digits(out: &mut Output<'_>, k: usize, n: u64)
    ensures { Puts out.old (decimal_in k n) out.new }
{
    if n < 10 {
        return out.put_byte(48 + n as u8);
    }
    if 0 < k {
        put_digits(out, k - 1, n / 10);
    }
    out.put_byte(digit_of(n));
}

pub fn put_decimal(out: &mut Output<'_>, n: u64)
    ensures { Puts out.old (decimal n) out.new }
{
    put_digits(out, 19, n);
}

// The last k digits.
pub fn put_padded(out: &mut Output<'_>, k: usize, n: u64)
    ensures { Puts out.old (padded k n) out.new }
{
    if 0 < k {
        put_padded(out, k - 1, n / 10);
        out.put_byte(digit_of(n));
    }
}

// Two digits of each number but the last, which has k, and a separator between them.
fn put_three(out: &mut Output<'_>, a: u64, b: u64, c: u64, separator: u8, k: usize)
    ensures { Puts out.old (padded 2 a ++ (separator ∷ (padded 2 b ++ (separator ∷ padded k c)))) out.new }
{
    put_padded(out, 2, a);
    out.put_byte(separator);
    put_padded(out, 2, b);
    out.put_byte(separator);
    put_padded(out, k, c);
}

// DD.MM.YYYY
pub fn put_date(out: &mut Output<'_>, date: Date)
    ensures { Puts out.old (date_text date) out.new }
{
    put_three(out, date.day, date.month, date.year, b'.', 4);
}

// HH:MM:SS
pub fn put_time(out: &mut Output<'_>, time: Time)
    ensures { Puts out.old (time_text time) out.new }
{
    put_three(out, time.hour, time.minute, time.second, b':', 2);
}

fn put_sized(out: &mut Output<'_>, kind: &[u8], size: u64, end: &[u8])
    ensures { Puts out.old (kind.now ++ (decimal size ++ end.now)) out.new }
{
    out.put_bytes(kind);
    put_decimal(out, size);
    out.put_bytes(end);
}

// "formats with the sizes above"
pub fn put_format(out: &mut Output<'_>, column: Column)
    ensures { Puts out.old (format_text column) out.new }
{
    if column.text {
        put_sized(out, b"char[", column.size, b"]");
    } else {
        put_sized(out, b"num[", column.size, b".0]");
    }
}
