// What no clause says: that reading succeeds where there is memory, on messages written out in full.
use edge_base::MemorySource;
use http_wire::{
    BodyRead, Head, HeadRead, Inbox, body_of, read_chunked, read_head, read_response_head,
    read_to_end,
};
use std::alloc::{AllocError, Global};
use std::test::Fail;

// a word and a number
fn numbered(alloc: Global, word: &str, number: u64) -> Result<Vec<u8>, Fail> {
    let text = format!(in alloc; "{word} {number}")?;
    Ok(Vec::from_slice(alloc, text.as_bytes())?)
}

// adds a header field, behind a bar
fn add_field(text: &mut Vec<u8>, name: &[u8], value: &[u8]) -> Result<(), AllocError> {
    text.extend_from_slice(b"|")?;
    text.extend_from_slice(name)?;
    text.extend_from_slice(b"=")?;
    text.extend_from_slice(value)
}

// the parts of a head
fn parts_told(alloc: Global, head: &Head) -> Result<Vec<u8>, Fail> {
    let mut text = Vec::from_slice(alloc, head.method())?;
    text.extend_from_slice(b" ")?;
    text.extend_from_slice(head.target())?;
    for i in 0..head.header_count() {
        let header = head.header(i);
        add_field(&mut text, header.name, header.value)?;
    }
    Ok(text)
}

// the parts of the head that is read, or what the answer is
fn head_told(alloc: Global, bytes: &[u8], gives: &[u64]) -> Result<Vec<u8>, Fail> {
    let mut source = MemorySource::new(alloc, bytes, gives)?;
    let mut inbox = Inbox::new(alloc)?;
    match read_head(alloc, &mut source, &mut inbox) {
        HeadRead::Head(head) => parts_told(alloc, &head),
        HeadRead::Ended => Ok(Vec::from_slice(alloc, b"ended")?),
        HeadRead::CutShort { taken } => numbered(alloc, "cut", taken),
        HeadRead::BadHead { taken } => numbered(alloc, "bad", taken),
        HeadRead::ReadFault => Ok(Vec::from_slice(alloc, b"fault")?),
        HeadRead::Memory => Ok(Vec::from_slice(alloc, b"memory")?),
    }
}

// what a body is, or what the answer is
fn body_told(alloc: Global, read: BodyRead) -> Result<Vec<u8>, Fail> {
    match read {
        BodyRead::Body(text) => Ok(Vec::from_slice(alloc, text.bytes())?),
        BodyRead::Coded => Ok(Vec::from_slice(alloc, b"coded")?),
        BodyRead::BadLength { taken } => numbered(alloc, "bad length", taken),
        BodyRead::TooLarge { len } => numbered(alloc, "too large", len),
        BodyRead::CutShort { taken } => numbered(alloc, "cut", taken),
        BodyRead::ReadFault => Ok(Vec::from_slice(alloc, b"fault")?),
        BodyRead::Memory => Ok(Vec::from_slice(alloc, b"memory")?),
    }
}

#[test]
fn heads(rt: HostRuntime) -> Result<(), Fail> {
    let alloc = rt.alloc();
    let ones = vec![in alloc; 1u64; 64]?;
    let cases: [(&str, &str); 16] = [
        (
            "GET /a HTTP/1.1\r\nHost: v.example\r\n\r\n",
            "GET /a|Host=v.example",
        ),
        ("GET /a HTTP/1.0\n\n", "GET /a"),
        ("\r\n\nGET / HTTP/1.1\r\n\r\n", "GET /"),
        (
            "PUT * HTTP/1.1\r\nA:\t b c \t\r\nb:\r\n\r\nrest",
            "PUT *|A=b c|b=",
        ),
        ("x-y! http://h/?q HTTP/1.1\r\n\r\n", "x-y! http://h/?q"),
        ("", "ended"),
        ("GET /a HT", "cut 9"),
        ("GET /a HTTP/1.1\r\nHost: v", "cut 24"),
        ("\r\n", "cut 2"),
        ("GET / HTTP/2.0\r\n\r\n", "bad"),
        ("GET / HTTP/1.1\r\nA : b\r\n\r\n", "bad"),
        ("GET / HTTP/1.1\r\nA: b\r\n c\r\n\r\n", "bad"),
        ("GET / HTTP/1.1\r\n: b\r\n\r\n", "bad"),
        ("GET  / HTTP/1.1\r\n\r\n", "bad"),
        ("GET / HTTP/1.1\r\rA: b\r\n\r\n", "bad"),
        ("(", "bad"),
    ];
    for (bytes, want) in cases {
        for gives in [[].as_slice(), ones.as_slice()] {
            let told = head_told(alloc, bytes.as_bytes(), gives)?;
            let same = if want == "bad" {
                told.starts_with(b"bad")
            } else {
                told.as_slice() == want.as_bytes()
            };
            assert!(rt; same, "{bytes}");
        }
    }
    Ok(())
}

#[test]
fn limits_of_heads(rt: HostRuntime) -> Result<(), Fail> {
    let alloc = rt.alloc();
    for (fill, fields, lines, bad) in [
        (16_366, 0, 0, false),
        (16_367, 0, 0, true),
        (1, 64, 0, false),
        (1, 65, 0, true),
        (1, 0, 64, false),
        (1, 0, 65, true),
    ] {
        let mut bytes = vec![in alloc; 10u8; lines]?;
        bytes.extend_from_slice(b"GET /")?;
        for _ in 0..fill {
            bytes.push(97)?;
        }
        bytes.extend_from_slice(b" HTTP/1.1\r\n")?;
        for _ in 0..fields {
            bytes.extend_from_slice(b"a:\n")?;
        }
        bytes.extend_from_slice(b"\r\n")?;
        let told = head_told(alloc, &bytes, &[])?;
        assert_eq!(rt; told.starts_with(b"bad"), bad, "{fill} {fields} {lines}");
    }
    Ok(())
}

// what a request with these header lines and bytes behind them has as its body, of at most 5 bytes
fn request_body(alloc: Global, rest: &str, gives: &[u64]) -> Result<Vec<u8>, Fail> {
    let bytes = format!(in alloc; "POST / HTTP/1.1\r\n{rest}")?;
    let mut source = MemorySource::new(alloc, bytes.as_bytes(), gives)?;
    let mut inbox = Inbox::new(alloc)?;
    match read_head(alloc, &mut source, &mut inbox) {
        HeadRead::Head(head) => body_told(alloc, body_of(alloc, &mut source, &mut inbox, &head, 5)),
        _ => Err(Fail::from("a head")),
    }
}

#[test]
fn bodies(rt: HostRuntime) -> Result<(), Fail> {
    let alloc = rt.alloc();
    let ones = vec![in alloc; 1u64; 128]?;
    let cases: [(&str, &str); 11] = [
        ("\r\nabc", ""),
        ("Content-Length: 5\r\n\r\nabcdefg", "abcde"),
        ("CONTENT-LENGTH: 003\r\n\r\nabc", "abc"),
        ("Content-Length: 6\r\n\r\nabcdef", "too large 6"),
        (
            "Content-Length: 99999999999999999999\r\n\r\n",
            "too large 18446744073709551615",
        ),
        ("Content-Length: 5\r\n\r\nabc", "cut 3"),
        ("Content-Length: \r\n\r\nabc", "bad length 0"),
        ("Content-Length: +3\r\n\r\nabc", "bad length 0"),
        ("Content-Length: 3, 3\r\n\r\nabc", "bad length 0"),
        (
            "Content-Length: 3\r\nContent-Length: 3\r\n\r\nabc",
            "bad length 0",
        ),
        (
            "Content-Length: x\r\nTransfer-Encoding: chunked\r\n\r\n",
            "coded",
        ),
    ];
    for (rest, want) in cases {
        for gives in [[].as_slice(), ones.as_slice()] {
            let told = request_body(alloc, rest, gives)?;
            assert_eq!(rt; told.as_slice(), want.as_bytes(), "{rest}");
        }
    }
    Ok(())
}

#[test]
fn chunked_bodies(rt: HostRuntime) -> Result<(), Fail> {
    let alloc = rt.alloc();
    let ones = vec![in alloc; 1u64; 64]?;
    let cases: [(&str, &str); 14] = [
        ("3\r\nabc\r\n0\r\n\r\nrest", "abc"),
        (
            "003 ;x=y\r\nabc\r\nA\r\n0123456789\r\n0\r\nT: u\nV: w\r\n\n",
            "abc0123456789",
        ),
        ("0;last\r\n\r\n", ""),
        ("e\r\n", "too large 14"),
        ("A\r\n0123456789\r\n4\r\n", "too large 14"),
        ("FFFFFFFFFFFFFFFF\r\n", "too large 14"),
        ("g", "bad length"),
        ("00000000000000000\r\n", "bad length"),
        ("3\nabc", "bad length"),
        ("3\r\nabcd", "bad length"),
        ("0\r\nT u\r\n\r\n", "bad length"),
        ("", "cut 0"),
        ("3\r\nab", "cut 5"),
        ("3\r\nabc\r\n0\r\nT: u", "cut 15"),
    ];
    for (bytes, want) in cases {
        for gives in [[].as_slice(), ones.as_slice()] {
            let mut source = MemorySource::new(alloc, bytes.as_bytes(), gives)?;
            let mut inbox = Inbox::new(alloc)?;
            let read = read_chunked(alloc, &mut source, &mut inbox, 13);
            let told = body_told(alloc, read)?;
            let same = if want == "bad length" {
                told.starts_with(b"bad length")
            } else {
                told.as_slice() == want.as_bytes()
            };
            assert!(rt; same, "{bytes}");
        }
    }
    Ok(())
}

// A chunk line, and the trailers with the empty line behind them, of 16,384 bytes at most.
#[test]
fn limits_of_chunked_bodies(rt: HostRuntime) -> Result<(), Fail> {
    let alloc = rt.alloc();
    for (extension, trailer, bad) in [
        (16_380, 16_378, false),
        (16_381, 1, true),
        (1, 16_379, true),
    ] {
        let mut bytes = Vec::new(alloc);
        bytes.extend_from_slice(b"1;")?;
        bytes.resize(bytes.len() + extension, 120)?;
        bytes.extend_from_slice(b"\r\na\r\n0\r\nT:")?;
        bytes.resize(bytes.len() + trailer, 120)?;
        bytes.extend_from_slice(b"\r\n\r\n")?;
        let mut source = MemorySource::new(alloc, &bytes, &[])?;
        let mut inbox = Inbox::new(alloc)?;
        let read = read_chunked(alloc, &mut source, &mut inbox, 1);
        let told = body_told(alloc, read)?;
        assert_eq!(rt;
            told.starts_with(b"bad length"),
            bad,
            "{extension} {trailer}"
        );
        assert!(rt;
            bad || told.as_slice() == b"a".as_slice(),
            "{extension} {trailer}"
        );
    }
    Ok(())
}

#[test]
fn bodies_to_the_end(rt: HostRuntime) -> Result<(), Fail> {
    let alloc = rt.alloc();
    let ones = vec![in alloc; 1u64; 8]?;
    for (bytes, want) in [("", ""), ("abcd", "abcd"), ("abcde", "too large 5")] {
        for gives in [[].as_slice(), ones.as_slice()] {
            let mut source = MemorySource::new(alloc, bytes.as_bytes(), gives)?;
            let mut inbox = Inbox::new(alloc)?;
            let read = read_to_end(alloc, &mut source, &mut inbox, 4);
            let told = body_told(alloc, read)?;
            assert_eq!(rt; told.as_slice(), want.as_bytes(), "{bytes}");
        }
    }
    Ok(())
}

#[test]
fn heads_of_responses(rt: HostRuntime) -> Result<(), Fail> {
    let alloc = rt.alloc();
    for (bytes, status) in [
        ("HTTP/1.1 200 OK\r\nContent-Length: 5\r\n\r\n", 200),
        ("HTTP/1.0 404\n\n", 404),
    ] {
        let mut source = MemorySource::new(alloc, bytes.as_bytes(), &[])?;
        let mut inbox = Inbox::new(alloc)?;
        match read_response_head(alloc, &mut source, &mut inbox) {
            HeadRead::Head(head) => assert_eq!(rt; head.status(), status, "{bytes}"),
            _ => return Err(Fail::from("a head")),
        }
    }
    Ok(())
}
