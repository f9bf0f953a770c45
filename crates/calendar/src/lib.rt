// The calendar: real Gregorian dates, by which the date of `src` and the days of records go.
#![tactic(auto)]

ghost use Rattle.std.specs.Prelude.{◌≡◌};
ghost use Rattle.page.specs.Dates.{leap, days_in, real_date, real_day};

use page::Date;

#[tactic(auto, unfolding(page::specs::Dates::leap))]
fn is_leap(year: u64) -> bool
    ensures { result ≡ leap year }
{
    (year % 4 == 0 && year % 100 != 0) || year % 400 == 0
}

#[tactic(auto, unfolding(page::specs::Dates::days_in))]
fn days_in_february(year: u64) -> u64
    ensures { result ≡ days_in year 2 }
{
    if is_leap(year) { 29 } else { 28 }
}

// 0 for a month that there is not. A `match`, of which nothing is built on the stack for each record.
#[tactic(auto, unfolding(page::specs::Dates::days_in))]
fn days_in(year: u64, month: u64) -> u64
    ensures { result ≡ days_in year month }
{
    match month {
        1 | 3 | 5 | 7 | 8 | 10 | 12 => 31,
        4 | 6 | 9 | 11 => 30,
        2 => days_in_february(year),
        _ => 0,
    }
}

#[tactic(auto, unfolding(page::specs::Dates::real_date))]
pub fn is_real_date(d: Date) -> bool
    ensures { result ≡ real_date d }
{
    1 <= d.year && 1 <= d.day && d.day <= days_in(d.year, d.month)
}

// "the number's value read as YYYYMMDD with leading zeros optional"
#[tactic(auto, unfolding(page::specs::Dates::real_day, page::specs::Dates::day_of))]
pub fn is_real_day(n: u64) -> bool
    ensures { result ≡ real_day n }
{
    is_real_date(Date {
        year: n / 10000,
        month: n / 100 % 100,
        day: n % 100,
    })
}
