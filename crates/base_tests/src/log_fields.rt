//! Fields of log files that were chosen.

use crate::log_files::{first_row, head_of, one_row};
use cdni_log::{Extra, Field, FieldNameFault, Row, RowList, file_text, logged_value, read_fields};
use listing::Text;
use std::alloc::Global;
use std::test::Fail;

// the names of fields, and the values of one row below them
const COLUMNS: [(&str, &str); 21] = [
    ("date", "2013-05-17"),
    ("time", "00:38:06.825"),
    ("time-taken", "9.058"),
    ("c-groupid", "as64496"),
    ("cs-method", "GET"),
    ("cs-uri", "http://v.example/a"),
    ("u-uri", "http://v.example/a"),
    ("protocol", "HTTP/1.1"),
    ("sc-status", "200"),
    ("sc-total-bytes", "134"),
    ("sc-entity-bytes", "10"),
    ("s-ccid", "-"),
    ("s-cached", "0"),
    ("cs(user-agent)", "\"a\"\"b\""),
    ("cs(referer)", "-"),
    ("cs(cookie)", "\"\""),
    ("cs(accept)", "\"text/plain\""),
    ("cs(via)", "\"\"\"\""),
    ("cs(x)", "\"-\""),
    ("cs(a.b)", "-"),
    ("cs(x-1)", "-"),
];

// the values of the headers, of which the last is not there
const VALUES: [Option<&[u8]>; 7] = [
    Some(b"a\"b"),
    None,
    Some(b""),
    Some(b"text/plain"),
    Some(b"\""),
    Some(b"-"),
    None,
];

// names that are none of a field
const OTHERS: [&str; 18] = [
    "",
    "Date",
    "date ",
    "dates",
    "cs",
    "cs(",
    "cs()",
    "cs(a",
    "cs a)",
    "CS(a)",
    "cs(a))",
    "cs(a b)",
    "cs(a\"b)",
    "cs(a,b)",
    "cs(\u{e9})",
    "cs(\t)",
    "xcs(a)",
    "cs(hhhhhhhhhhhhhhhhhhhhhhhhhhhhhhhhhhhhhhhhhhhhhhhhhhhhhhhhhhhhhhhhh)",
];

// one row with the values of the headers
fn rows(alloc: Global) -> Result<RowList, Fail> {
    let mut row: Row = first_row(alloc)?;
    for value in VALUES {
        let extra: Extra = match value {
            Some(value) => Some(Text::of(alloc, value)?),
            None => None,
        };
        row.extra.push(extra)?;
    }
    Ok(one_row(alloc, row)?)
}

// whether a file with the fields of these names, joined by tabs, has this record and no other
fn has_record(alloc: Global, names: &str, record: &str) -> Result<bool, Fail> {
    let Ok(fields) = read_fields(alloc, b'\t', names.as_bytes()) else {
        return Err(Fail::from("names"));
    };
    let mut head = head_of(alloc, 1, 1368751086900, b"dcdn.example")?;
    head.fields = fields;
    let text = file_text(alloc, &head, &rows(alloc)?)?;
    let lines = format!(in alloc; "\r\n#fields:\t{names}\r\n{record}\r\n#SHA256-hash:\t")?;
    let text = String::from_utf8(Vec::from_slice(alloc, text.bytes())?).map_err(|_| "UTF-8")?;
    Ok(text.as_str().contains(lines.as_str()))
}

#[test]
fn each_field_is_written_alone(rt: HostRuntime) -> Result<(), Fail> {
    for (name, value) in COLUMNS {
        let value = if name.starts_with("cs(") {
            "\"a\"\"b\""
        } else {
            value
        };
        assert!(rt; has_record(rt.alloc(), name, value)?, "{name}");
    }
    Ok(())
}

#[test]
fn all_fields_are_written_together(rt: HostRuntime) -> Result<(), Fail> {
    let alloc = rt.alloc();
    let mut names = String::new(alloc);
    let mut record = String::new(alloc);
    for (name, value) in COLUMNS {
        if !names.is_empty() {
            names.push('\t')?;
            record.push('\t')?;
        }
        names.push_str(name)?;
        record.push_str(value)?;
    }
    assert!(rt; has_record(alloc, names.as_str(), record.as_str())?);
    assert!(rt; has_record(alloc, "sc-status\tcs(user-agent)", "200\t\"a\"\"b\"")?);
    Ok(())
}

#[test]
fn names_are_read_or_unknown(rt: HostRuntime) -> Result<(), Fail> {
    let alloc = rt.alloc();
    for name in OTHERS {
        match Field::read(alloc, name.as_bytes()) {
            Err(FieldNameFault::Unknown) => {}
            _ => return Err(Fail::from(name)),
        }
    }
    let Ok(field) = Field::read(alloc, b"cs(User-AGENT)") else {
        return Err(Fail::from("a header"));
    };
    assert!(rt; field.name(alloc)?.is(b"cs(user-agent)"));
    assert!(rt; Field::read(alloc, format!(in alloc; "cs({:H>64})", "")?.as_bytes()).is_ok());
    assert!(rt; read_fields(alloc, b',', b"cs(a),cs(A)").is_err());
    assert!(rt; read_fields(alloc, b',', b"date,time,date").is_err());
    assert!(rt; read_fields(alloc, b',', b"date,,time").is_err());
    Ok(())
}

// whether this is what is logged of the value
fn is_logged(alloc: Global, value: &[u8], logged: &[u8]) -> Result<bool, Fail> {
    let extra = logged_value(alloc, value)?;
    Ok(extra.is_some_and(|text| text.is(logged)))
}

#[test]
fn values_are_logged(rt: HostRuntime) -> Result<(), Fail> {
    let alloc = rt.alloc();
    assert!(rt; logged_value(alloc, b"")?.is_none());
    assert!(rt; is_logged(alloc, b"\ta\rb\x7fc\x1fd\x00", b" a b c d ")?);
    assert!(rt; is_logged(alloc, b"~\x80\xff\"", b"~\x80\xff\"")?);
    let long: [u8; 1024] = [b'a'; 1024];
    let longer: [u8; 1025] = [b'a'; 1025];
    assert!(rt; is_logged(alloc, &long, &long)?);
    assert!(rt; is_logged(alloc, &longer, &long)?);
    Ok(())
}
