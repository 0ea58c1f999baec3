//! Reads heads of requests and chunked bodies and puts heads of answers, so that their instructions can be counted
//! (bench/instructions/heads.sh), and prints how many of them succeeded. Numbers: what is done, and how often, at most 200 times:
//!
//! * 0, 1: a head of 36 bytes is read by `httparse` alone, by `read_head`;
//! * 2, 3: the same of a head of 12 header fields and 500 bytes;
//! * 4: the head of an answer is put, with its date;
//! * 5, 6: a body of 1 MB is read in chunks of 8 KB, by its length; at most twice.
//!
//! Without numbers each is done ten times, and the bodies once.
use answer_head::{ANSWER_HEAD_MAX, AnswerHead, put_head};
use anyhow::bail;
use cdni_base::{Scratch, TypeName};
use edge_base::MemorySource;
use http_wire::{BodyRead, HeadRead, Inbox, read_chunked, read_head, read_length};
use httparse::Status;
use httparse::spans::{EMPTY_HEADER_SPAN, HeaderSpan, parse_request};
use std::alloc::{AllocError, Global};

const MOST: usize = 200;

const SHORT: &[u8] = b"GET /a HTTP/1.1\r\nHost: v.example\r\n\r\n";

const LONG: &[u8] = b"GET /films/trailers/one/segment-0001.ts HTTP/1.1\r\n\
Host: video.v.example\r\n\
User-Agent: Mozilla/5.0 (X11; Linux x86_64; rv:128.0) Gecko/20100101\r\n\
Accept: text/html,application/xhtml+xml,application/xml;q=0.9,*/*\r\n\
Accept-Language: en-US,en;q=0.5\r\n\
Accept-Encoding: gzip, deflate, br, zstd\r\n\
Referer: https://www.v.example/films/trailers/\r\n\
Connection: keep-alive\r\n\
Cookie: session=0123456789abcdef0123456789a\r\n\
Range: bytes=0-1048575\r\n\
Cache-Control: no-cache\r\n\
Pragma: no-cache\r\n\
X-Forwarded-For: 192.0.2.77\r\n\
\r\n";

const CHUNKS: usize = 128;

const CHUNK: usize = 8192;

// 1 where all header fields that were found stand within the head, which they do, and 0 else.
fn are_within(head: &[u8], spans: &[HeaderSpan]) -> u32 {
    for span in spans {
        if span.value.end > head.len() {
            return 0;
        }
    }
    1
}

// How many of so many readings by `httparse` alone give a head, of whose header fields each is looked at.
fn parse_often(head: &[u8], count: u32) -> u32 {
    let mut read = 0u32;
    for _ in 0..count {
        let mut spans = [EMPTY_HEADER_SPAN; 64];
        if let Ok(Status::Complete(found)) = parse_request(head, &mut spans) {
            read = read.saturating_add(are_within(head, &spans[..found.headers]));
        }
    }
    read
}

// How many of so many readings of a source that gives this head again and again give a head.
fn read_often(alloc: Global, head: &[u8], count: u32) -> Result<u32, AllocError> {
    let mut bytes = Vec::new(alloc);
    let mut gives = Vec::new(alloc);
    for _ in 0..MOST {
        bytes.extend_from_slice(head)?;
        gives.push(head.len() as u64)?;
    }
    let mut source = MemorySource::new(alloc, &bytes, &gives)?;
    let mut inbox = Inbox::new(alloc)?;
    let mut read = 0u32;
    for _ in 0..count {
        if let HeadRead::Head(_) = read_head(alloc, &mut source, &mut inbox) {
            read = read.saturating_add(1);
        }
    }
    Ok(read)
}

// How many of so many heads of answers fit a scratch.
fn put_often(alloc: Global, count: u32) -> Result<u32, AllocError> {
    let mut scratch = Scratch::new(alloc, ANSWER_HEAD_MAX)?;
    let kind = TypeName::of(alloc, b"video/mp2t")?;
    let mut put = 0u32;
    for day in 0..count {
        scratch.clear();
        let head = AnswerHead {
            status: 200,
            moment: day as u64 % 1_000_000 * 108_001_000,
            length: Some(1_048_576),
            kind: kind.as_ref(),
            ranges: true,
            content_range: None,
            allow: None,
            location: None,
            close: false,
        };
        if put_head(&mut scratch, &head) {
            put = put.saturating_add(1);
        }
    }
    Ok(put)
}

// A chunked body of 1 MB.
fn chunked_body(alloc: Global) -> Result<Vec<u8>, AllocError> {
    let data = vec![in alloc; 7u8; CHUNK]?;
    let mut body = Vec::new(alloc);
    for _ in 0..CHUNKS {
        body.extend_from_slice(b"2000\r\n")?;
        body.extend_from_slice(&data)?;
        body.extend_from_slice(b"\r\n")?;
    }
    body.extend_from_slice(b"0\r\n\r\n")?;
    Ok(body)
}

// How many of so many readings give a body of 1 MB: in chunks, or by its length.
fn bodies_often(alloc: Global, chunked: bool, count: u32) -> Result<u32, AllocError> {
    let body = if chunked {
        chunked_body(alloc)?
    } else {
        vec![in alloc; 7u8; CHUNKS * CHUNK]?
    };
    let mut bytes = Vec::new(alloc);
    bytes.extend_from_slice(&body)?;
    bytes.extend_from_slice(&body)?;
    let mut source = MemorySource::new(alloc, &bytes, &[])?;
    let mut inbox = Inbox::new(alloc)?;
    let mut whole = 0u32;
    for _ in 0..count {
        let read = if chunked {
            read_chunked(alloc, &mut source, &mut inbox, 1 << 24)
        } else {
            read_length(alloc, &mut source, &mut inbox, (CHUNKS * CHUNK) as u64)
        };
        if let BodyRead::Body(text) = read {
            if text.bytes().len() == CHUNKS * CHUNK {
                whole = whole.saturating_add(1);
            }
        }
    }
    Ok(whole)
}

fn measure(alloc: Global, what: u32, count: u32) -> anyhow::Result<u32> {
    match what {
        0 => Ok(parse_often(SHORT, count)),
        1 => Ok(read_often(alloc, SHORT, count)?),
        2 => Ok(parse_often(LONG, count)),
        3 => Ok(read_often(alloc, LONG, count)?),
        4 => Ok(put_often(alloc, count)?),
        5 => Ok(bodies_often(alloc, true, count)?),
        6 => Ok(bodies_often(alloc, false, count)?),
        _ => bail!("0 to 3 read a head, 4 puts one, and 5 and 6 read a body"),
    }
}

/// Runs it as these numbers say, or on its sample where there are none.
pub fn run<R: Print>(rt: &R, alloc: Global, numbers: &[u32]) -> anyhow::Result<()> {
    if let [what, count] = numbers {
        let count = measure(alloc, *what, *count)?;
        println!(rt; "{count}")?;
        return Ok(());
    }
    println!(rt; "heads of {} and {} bytes", SHORT.len(), LONG.len())?;
    for what in [0, 1, 2, 3, 4] {
        let count = measure(alloc, what, 10)?;
        println!(rt; "{what}: {count}")?;
    }
    for what in [5, 6] {
        let count = measure(alloc, what, 1)?;
        println!(rt; "{what}: {count}")?;
    }
    Ok(())
}
