//! Files that other programs made: their UUIDs are Python's `uuid5`, and their hashes `sha256sum`'s.

use cdni_log::{ExtraList, FileHead, Row, RowList, default_fields, file_text};
use listing::{Moment, ReservedList, Text};
use std::alloc::{AllocError, Global};
use std::test::Fail;

const FIRST: [&str; 7] = [
    "#version:\tcdni/1.0",
    "#UUID:\t\"urn:uuid:fe019a37-83b1-54c0-ad63-4eff0481b93a\"",
    "#claimed-origin:\tdcdn.example",
    "#record-type:\tcdni_http_request_v1",
    "#fields:\tdate\ttime\ttime-taken\tc-groupid\tcs-method\tcs-uri\tu-uri\tprotocol\tsc-status\tsc-total-bytes\tsc-entity-bytes\ts-ccid\ts-cached",
    "2013-05-17\t00:38:06.825\t9.058\tas64496\tGET\thttp://v.example/a\thttp://v.example/a\tHTTP/1.1\t200\t134\t10\t-\t0",
    "#SHA256-hash:\t57b0d9445035d8e490ff926fcd7e8566cba7d4290da1fb0019fab5280efaebec",
];

const SECOND: [&str; 9] = [
    "#version:\tcdni/1.0",
    "#UUID:\t\"urn:uuid:67a63b69-3bae-574e-a9cf-f151cbd33729\"",
    "#claimed-origin:\tlog.example",
    "#record-type:\tcdni_http_request_v1",
    "#fields:\tdate\ttime\ttime-taken\tc-groupid\tcs-method\tcs-uri\tu-uri\tprotocol\tsc-status\tsc-total-bytes\tsc-entity-bytes\ts-ccid\ts-cached",
    "1970-01-01\t00:00:00.000\t0.000\t-\tHEAD\thttps://v.example:8443/b?q\thttps://v.example:8443/b?q\tHTTP/1.1\t404\t0\t0\t\"a\"\"b\"\t1",
    "2000-02-29\t23:59:59.007\t86400.001\tas0\tGET\thttp://v.example/\thttp://v.example/\tHTTP/1.1\t206\t18446744073709551615\t7\t\"\"\"\"\t0",
    "9999-12-31\t23:59:59.999\t0.999\tas4294967295\tGET\thttp://v.example/\thttp://v.example/\tHTTP/1.1\t200\t1\t1\t\"\"\t0",
    "#SHA256-hash:\t5f6b15b6b1d1cde98d1de0efbdccb39f4e788caf655736efb4f1d01cf4e84d98",
];

// the lines, each with CR LF
fn file_of(alloc: Global, lines: &[&str]) -> Result<Vec<u8>, AllocError> {
    let mut text = Vec::new(alloc);
    for line in lines {
        text.extend_from_slice(line.as_bytes())?;
        text.extend_from_slice(b"\r\n")?;
    }
    Ok(text)
}

pub(crate) fn head_of(
    alloc: Global,
    number: u64,
    moment: Moment,
    origin: &[u8],
) -> Result<FileHead, AllocError> {
    Ok(FileHead {
        number,
        moment,
        origin: Text::of(alloc, origin)?,
        fields: default_fields(alloc)?,
    })
}

// what differs from row to row
struct Seen<'a> {
    moments: [Moment; 2],
    asn: Option<u32>,
    request: [&'a [u8]; 2],
    status: u16,
    bytes: [u64; 2],
    ccid: Option<&'a [u8]>,
    cached: bool,
}

fn row_of(alloc: Global, seen: &Seen<'_>) -> Result<Row, AllocError> {
    let ccid = match seen.ccid {
        Some(ccid) => Some(Text::of(alloc, ccid)?),
        None => None,
    };
    Ok(Row {
        admitted: seen.moments[0],
        finished: seen.moments[1],
        asn: seen.asn,
        method: Text::of(alloc, seen.request[0])?,
        uri: Text::of(alloc, seen.request[1])?,
        status: seen.status,
        total: seen.bytes[0],
        entity: seen.bytes[1],
        ccid,
        cached: seen.cached,
        extra: ExtraList::new(alloc),
    })
}

fn rows_of(alloc: Global, seen: &[Seen<'_>]) -> Result<RowList, AllocError> {
    let mut rows = ReservedList::new(alloc);
    for one in seen {
        let row = row_of(alloc, one)?;
        rows.reserve(alloc, 1)?;
        rows.push_reserved(row);
    }
    Ok(rows)
}

// the row of the first file
pub(crate) fn first_row(alloc: Global) -> Result<Row, AllocError> {
    row_of(
        alloc,
        &Seen {
            moments: [1368751077767, 1368751086825],
            asn: Some(64496),
            request: [b"GET", b"http://v.example/a"],
            status: 200,
            bytes: [134, 10],
            ccid: None,
            cached: false,
        },
    )
}

// a list of this row
pub(crate) fn one_row(alloc: Global, row: Row) -> Result<RowList, AllocError> {
    let mut rows = ReservedList::new(alloc);
    rows.reserve(alloc, 1)?;
    rows.push_reserved(row);
    Ok(rows)
}

// the rows of the second one
fn second_rows(alloc: Global) -> Result<RowList, AllocError> {
    rows_of(
        alloc,
        &[
            Seen {
                moments: [5, 0],
                asn: None,
                request: [b"HEAD", b"https://v.example:8443/b?q"],
                status: 404,
                bytes: [0, 0],
                ccid: Some(b"a\"b"),
                cached: true,
            },
            Seen {
                moments: [951782399006, 951868799007],
                asn: Some(0),
                request: [b"GET", b"http://v.example/"],
                status: 206,
                bytes: [18446744073709551615, 7],
                ccid: Some(b"\""),
                cached: false,
            },
            Seen {
                moments: [253402300799001, 253402300800000],
                asn: Some(4294967295),
                request: [b"GET", b"http://v.example/"],
                status: 200,
                bytes: [1, 1],
                ccid: Some(b""),
                cached: false,
            },
        ],
    )
}

#[test]
fn files_are_those_of_other_programs(rt: HostRuntime) -> Result<(), Fail> {
    let alloc = rt.alloc();
    let head = head_of(alloc, 1, 1368751086900, b"dcdn.example")?;
    let text = file_text(alloc, &head, &one_row(alloc, first_row(alloc)?)?)?;
    assert!(rt; text.is(&file_of(alloc, &FIRST)?));

    let head = head_of(alloc, 18446744073709551615, 0, b"log.example")?;
    let text = file_text(alloc, &head, &second_rows(alloc)?)?;
    assert!(rt; text.is(&file_of(alloc, &SECOND)?));
    Ok(())
}
