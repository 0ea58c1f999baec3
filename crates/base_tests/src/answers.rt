// What no clause says: that a head is what the RFCs have, written out in full.
use answer_head::{ANSWER_HEAD_MAX, Allow, AnswerHead, ContentRange, Location, Made, put_head};
use cdni_base::{HostName, Scratch, Text, TypeName};
use std::test::Fail;

#[test]
fn heads_of_answers(rt: HostRuntime) -> Result<(), Fail> {
    let alloc = rt.alloc();
    let Some(kind) = TypeName::of(alloc, b"text/plain")? else {
        return Err(Fail::from("a short name"));
    };
    let mut head = AnswerHead {
        status: 200,
        moment: 1_368_751_086_825,
        length: Some(10),
        kind: Some(&kind),
        ranges: true,
        content_range: None,
        allow: None,
        location: None,
        close: false,
    };
    let mut out = Scratch::new(alloc, 165)?;
    assert!(rt; put_head(&mut out, &head));
    assert!(rt;
        out.bytes().starts_with(b"HTTP/1.1 200 OK\r\nDate: Fri, 17 May 2013 00:38:06 GMT\r\n")
    );
    assert!(rt;
        out.bytes().ends_with(
            b"Content-Length: 10\r\nContent-Type: text/plain\r\nAccept-Ranges: bytes\r\n\r\n"
        )
    );
    assert!(rt; !put_head(&mut out, &head));
    assert_eq!(rt; out.bytes().len(), 124);
    out.clear();
    head.status = 206;
    head.length = Some(3);
    head.content_range = Some(ContentRange::Part {
        first: 2,
        last: 4,
        len: 10,
    });
    assert!(rt; put_head(&mut out, &head));
    assert_eq!(rt; out.bytes().len(), 165);
    Ok(())
}

#[test]
fn the_other_lines(rt: HostRuntime) -> Result<(), Fail> {
    let alloc = rt.alloc();
    let host = HostName(Text::of(alloc, b"n.example")?);
    let head = AnswerHead {
        status: 405,
        moment: 1_368_751_086_825,
        length: None,
        kind: None,
        ranges: false,
        content_range: Some(ContentRange::None { len: 10 }),
        allow: Some(Allow::Control),
        location: Some(Location {
            host: &host,
            made: Made::Trigger,
            number: 7,
        }),
        close: true,
    };
    let mut out = Scratch::new(alloc, ANSWER_HEAD_MAX)?;
    assert!(rt; put_head(&mut out, &head));
    let want = "HTTP/1.1 405 Method Not Allowed\r\nDate: Fri, 17 May 2013 00:38:06 GMT\r\n\
        Content-Range: bytes */10\r\nAllow: GET, POST, DELETE\r\n\
        Location: http://n.example/triggers/7\r\nConnection: close\r\n\r\n";
    assert_eq!(rt; out.bytes(), want.as_bytes());
    Ok(())
}
