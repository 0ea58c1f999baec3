//! Dates and times of day (RFC 7937, section 3.1, after RFC 3339).

ghost use Rattle.std.specs.Prelude.{◌≡◌, ◌+◌, ◌-◌, ◌*◌, ◌<◌, ◌≤◌, ◌∷◌, ◌++◌, ◌&&◌, IsTrue, bytes_eq, nat_lt};
ghost use Rattle.cdni_log.specs.Date as date;
ghost use Rattle.log_audit.specs.Value.{is_date, is_date_of_years, is_time};

use jiff::civil::Date;

// whether the text is a date that the calendar has, in the years 1970 to 9999
#[tactic(auto, unfolding(crate::specs::Value::is_date))]
pub(crate) fn is_date(text: &[u8]) -> bool
    ensures { result ≡ is_date text.now }
{
    match text {
        [y1, y2, y3, y4, _, m1, m2, _, d1, d2] => {
            let year = tens(*y1, *y2) * 100 + tens(*y3, *y4);
            is_date_text(year, tens(*m1, *m2), tens(*d1, *d2), text)
        }
        _ => false,
    }
}

fn is_date_text(year: u32, month: u32, day: u32, text: &[u8]) -> bool
    ensures { result ≡ (is_date_of_years (record { year = year; month = month; day = day })
        && bytes_eq text.now (date.date_text (record { year = year; month = month; day = day }))) }
{
    is_civil_date(year, month, day) && text == date_text(year, month, day).as_slice()
}

fn is_civil_date(year: u32, month: u32, day: u32) -> bool
    ensures value { result ≡ is_date_of_years (record { year = year; month = month; day = day }) }
    ensures short_year { IsTrue result → year ≤ 9999 }
    ensures short_month { IsTrue result → month ≤ 12 }
    ensures short_day { IsTrue result → day ≤ 31 }
{
    1970 <= year
        && year <= 9999
        && month <= 12
        && day <= 31
        && Date::new(year as i16, month as i8, day as i8).is_ok()
}

fn date_text(year: u32, month: u32, day: u32) -> [u8; 10]
    requires year { year ≤ 9999 }
    requires month { month ≤ 12 }
    requires day { day ≤ 31 }
    ensures { result ≡ date.date_text (record { year = year; month = month; day = day }) }
{
    [
        (48 + year / 100 / 10) as u8,
        (48 + year / 100 % 10) as u8,
        (48 + year % 100 / 10) as u8,
        (48 + year % 100 % 10) as u8,
        b'-',
        (48 + month / 10) as u8,
        (48 + month % 10) as u8,
        b'-',
        (48 + day / 10) as u8,
        (48 + day % 10) as u8,
    ]
}

// the number that two digits write
fn tens(first: u8, second: u8) -> u32
    ensures value { result ≡ (first - 48) * 10 + (second - 48) }
    ensures short { result ≤ 2277 }
{
    ones(first) * 10 + ones(second)
}

fn ones(digit: u8) -> u32
    ensures value { result ≡ digit - 48 }
    ensures short { result ≤ 207 }
{
    digit.saturating_sub(48) as u32
}

// whether the text is a time of day with milliseconds
#[tactic(auto, unfolding(crate::specs::Value::is_time))]
pub(crate) fn is_time(text: &[u8]) -> bool
    ensures { result ≡ is_time text.now }
{
    match text {
        [h1, h2, _, m1, m2, _, s1, s2, _, t1, t2, t3] => {
            let second = tens(*h1, *h2) * 3600 + tens(*m1, *m2) * 60 + tens(*s1, *s2);
            is_time_text(second, tens(*t1, *t2) * 10 + ones(*t3), text)
        }
        _ => false,
    }
}

fn is_time_text(second: u32, thousandth: u32, text: &[u8]) -> bool
    ensures { result ≡ (nat_lt second 86400 && nat_lt thousandth 1000
        && bytes_eq text.now (date.clock_text second ++ 46 ∷ date.three_digits thousandth)) }
{
    second < 86400 && thousandth < 1000 && text == time_text(second, thousandth).as_slice()
}

fn time_text(second: u32, thousandth: u32) -> [u8; 12]
    requires second { second < 86400 }
    requires thousandth { thousandth < 1000 }
    ensures { result ≡ date.clock_text second ++ 46 ∷ date.three_digits thousandth }
{
    [
        (48 + second / 3600 / 10) as u8,
        (48 + second / 3600 % 10) as u8,
        b':',
        (48 + second % 3600 / 60 / 10) as u8,
        (48 + second % 3600 / 60 % 10) as u8,
        b':',
        (48 + second % 60 / 10) as u8,
        (48 + second % 60 % 10) as u8,
        b'.',
        (48 + thousandth / 100) as u8,
        (48 + thousandth / 10 % 10) as u8,
        (48 + thousandth % 10) as u8,
    ]
}
