//! Dates and times of day, UTC (RFC 7937, section 3.1, after RFC 3339).

ghost use Rattle.std.specs.Prelude.{◌≡◌, ◌+◌, ◌*◌, ◌/◌, ◌%◌, ◌<◌, ◌≤◌, ◌∷◌, ◌++◌, OnOk, codes, slice_range, bytes_eq};
ghost use Rattle.httpdate.specs.Text.{four_digits, two_digits};
ghost use Rattle.cdni_log.specs.Date.{clock_text, date_field, time_field, shown, three_digits};
ghost use Rattle.cdni_log.specs.HttpParts.{parts_of, number_of_month};

use httpdate::HttpDate;
use listing::Moment;
use std::alloc::AllocError;

// the last millisecond of the year 9999
const LAST_MOMENT: Moment = 253402300799999;

// adds the date of a moment
#[tactic(auto, unfolding(crate::specs::Date::date_field))]
pub(crate) fn add_date(out: &mut Vec<u8>, moment: Moment) -> Result<(), AllocError>
    ensures { OnOk result (out.new.items ≡ out.old.items ++ date_field moment) }
{
    let date = http_date(shown(moment) / 1000);
    out.extend_from_slice(&date[12..16])?;
    out.extend_from_slice(b"-")?;
    out.extend_from_slice(month_digits(&date[8..11]))?;
    out.extend_from_slice(b"-")?;
    out.extend_from_slice(&date[5..7])
}

// adds the time of day of a moment, with milliseconds
#[tactic(auto, unfolding(crate::specs::Date::time_field))]
pub(crate) fn add_time(out: &mut Vec<u8>, moment: Moment) -> Result<(), AllocError>
    ensures { OnOk result (out.new.items ≡ out.old.items ++ time_field moment) }
{
    let date = http_date(shown(moment) / 1000);
    out.extend_from_slice(&date[17..25])?;
    out.extend_from_slice(b".")?;
    out.extend_from_slice(&three_digits(shown(moment) % 1000))
}

// a moment, or the last one whose year has four digits
fn shown(moment: Moment) -> Moment
    ensures value { result ≡ shown moment }
    ensures last { result ≤ LAST_MOMENT }
{
    moment.min(LAST_MOMENT)
}

// the HTTP date of a second (RFC 9110, section 5.6.7)
fn http_date(second: u64) -> [u8; 29]
    requires { second < 253402300800 }
    ensures year { slice_range result 12 16 ≡ four_digits (parts_of second).year }
    ensures month { number_of_month (slice_range result 8 11) ≡ (parts_of second).mon }
    ensures day { slice_range result 5 7 ≡ two_digits (parts_of second).day }
    ensures clock { slice_range result 17 25 ≡ clock_text (second % 86400) }
{
    match HttpDate::from_unix_secs(second) {
        Ok(date) => date.to_bytes(),
        Err(_) => unreachable!(),
    }
}

// the two digits of the month of this name
fn month_digits(name: &[u8]) -> &'static [u8]
    ensures { result.now ≡ two_digits (number_of_month name.now) }
{
    if is(name, b"Jan") {
        b"01"
    } else if is(name, b"Feb") {
        b"02"
    } else if is(name, b"Mar") {
        b"03"
    } else if is(name, b"Apr") {
        b"04"
    } else if is(name, b"May") {
        b"05"
    } else if is(name, b"Jun") {
        b"06"
    } else if is(name, b"Jul") {
        b"07"
    } else if is(name, b"Aug") {
        b"08"
    } else if is(name, b"Sep") {
        b"09"
    } else if is(name, b"Oct") {
        b"10"
    } else if is(name, b"Nov") {
        b"11"
    } else {
        b"12"
    }
}

fn is(name: &[u8], other: &[u8]) -> bool
    ensures { result ≡ bytes_eq name.now other.now }
{
    name == other
}

// a number below 1000 in three digits
pub(crate) fn three_digits(n: u64) -> [u8; 3]
    requires { n < 1000 }
    ensures { result ≡ three_digits n }
{
    [
        (48 + n / 100) as u8,
        (48 + n / 10 % 10) as u8,
        (48 + n % 10) as u8,
    ]
}
