// "a quoted real Gregorian date from year 0001 in the stated form and a quoted time 00:00:00 to 23:59:59"
ghost use Rattle.std.specs.Prelude.{◌≡◌};
ghost use Rattle.page.specs.Dates.{
  real_time,
  date_of,
  date_shape,
  date_ok,
  time_of,
  time_shape,
  time_ok,
};

use crate::places::{is_quoted, is_triple, number_at};
use calendar::is_real_date;
use page::{Date, Time};

// The form DD.MM.YYYY is 1, YYYY/MM/DD is 2: a number, as `date_shape` and `date_of` have it.
#[tactic(auto, unfolding(page::specs::Dates::date_shape))]
fn is_date_shape(f: &[u8], form: u32) -> bool
    ensures { result ≡ date_shape form f.now }
{
    is_quoted(f, 10)
        && if form == 1 {
            is_triple(f, 2, 4, b'.')
        } else {
            is_triple(f, 4, 2, b'/')
        }
}

#[tactic(auto, unfolding(page::specs::Dates::date_of))]
pub fn read_date(f: &[u8], form: u32) -> Date
    ensures { result ≡ date_of form f.now }
{
    let (year, month, day) = if form == 1 { (7, 4, 1) } else { (1, 6, 9) };
    Date {
        year: number_at(f, year, 4),
        month: number_at(f, month, 2),
        day: number_at(f, day, 2),
    }
}

#[tactic(auto, unfolding(page::specs::Dates::date_ok))]
pub fn is_date(f: &[u8], form: u32) -> bool
    ensures { result ≡ date_ok form f.now }
{
    is_date_shape(f, form) && is_real_date(read_date(f, form))
}

#[tactic(auto, unfolding(page::specs::Dates::real_time))]
fn is_real_time(t: Time) -> bool
    ensures { result ≡ real_time t }
{
    t.hour <= 23 && t.minute <= 59 && t.second <= 59
}

#[tactic(auto, unfolding(page::specs::Dates::time_shape))]
fn is_time_shape(f: &[u8]) -> bool
    ensures { result ≡ time_shape f.now }
{
    is_quoted(f, 8) && is_triple(f, 2, 2, b':')
}

#[tactic(auto, unfolding(page::specs::Dates::time_of))]
pub fn read_time(f: &[u8]) -> Time
    ensures { result ≡ time_of f.now }
{
    Time {
        hour: number_at(f, 1, 2),
        minute: number_at(f, 4, 2),
        second: number_at(f, 7, 2),
    }
}

#[tactic(auto, unfolding(page::specs::Dates::time_ok))]
pub fn is_time(f: &[u8]) -> bool
    ensures { result ≡ time_ok f.now }
{
    is_time_shape(f) && is_real_time(read_time(f))
}
