//! Records of a log file (RFC 7937, section 3.4.1).

ghost use Rattle.std.specs.Prelude.{◌≡◌, None, Some, option_map};
ghost use Rattle.log_audit.specs.Lines.{parts_in, IsRecordIn};
ghost use Rattle.log_audit.specs.Value.{agrees, goes_on, is_uri, url_after};

use crate::line::{first_value, framed};
use crate::value::is_value;
use cdni_log::Field;

// the values in the line of a record, joined by tabs, where it is a record of these fields
pub(crate) fn record_in<'a>(fields: &[Field], line: &'a [u8]) -> Option<&'a [u8]>
    ensures { IsRecordIn fields.now line.now (option_map (λ values. values.now) result) }
{
    let Some(values) = framed(b"", b"\r\n", line) else {
        return None;
    };
    if is_record(fields, values) {
        Some(values)
    } else {
        None
    }
}

// whether there is one value for each field, and both URLs are one
fn is_record(fields: &[Field], joined: &[u8]) -> bool
    ensures { result ≡ goes_on fields.now None (parts_in (Some joined.now)) }
{
    let mut left = Some(joined);
    let mut url = None;
    'fields: for field in fields {
        let Some(values) = left else {
            return false;
        };
        let (value, others) = first_value(values);
        if !is_value(field, value) || !agrees(field, url, value) {
            return false;
        }
        url = url_after(field, url, value);
        left = others;
    }
    left.is_none()
}

// whether the value is the URL before it, where both are URLs
fn agrees(field: &Field, url: Option<&[u8]>, value: &[u8]) -> bool
    ensures { result ≡ agrees field.now (option_map (λ bytes. bytes.now) url.entry) value.now }
{
    match url {
        Some(url) if is_url_field(field) => value == url,
        _ => true,
    }
}

// the URL behind which the others stand
fn url_after<'a>(field: &Field, url: Option<&'a [u8]>, value: &'a [u8]) -> Option<&'a [u8]>
    ensures { option_map (λ bytes. bytes.now) result
        ≡ url_after field.now (option_map (λ bytes. bytes.now) url.entry) value.now }
{
    if is_url_field(field) {
        Some(value)
    } else {
        url
    }
}

fn is_url_field(field: &Field) -> bool
    ensures { result ≡ is_uri field.now }
{
    matches!(field, Field::CsUri | Field::UUri)
}
