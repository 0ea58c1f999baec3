// The cases of a table, from a header's value and a body's length to what is sent.
use byte_range::{Span, Want, laws, put_range, read, resolve};
use cdni_base::Scratch;
use std::test::Fail;

#[test]
fn ranges(rt: HostRuntime) {
    for (len, header, span) in [
        (10, "bytes=0-0", Span::Part { first: 0, last: 0 }),
        (10, "bytes=9-99", Span::Part { first: 9, last: 9 }),
        (10, "bytes=10-", Span::Unsatisfiable),
        (10, "bytes=-0", Span::Unsatisfiable),
        (10, "bytes=-99", Span::Part { first: 0, last: 9 }),
        (10, "bytes=5-3", Span::Whole),
        (10, "bytes=0-0,2-2", Span::Whole),
        (10, "items=0-1", Span::Whole),
        (0, "bytes=-5", Span::Whole),
        (0, "bytes=0-", Span::Unsatisfiable),
        // The examples of RFC 9110, section 14.1.2, with one range, on a body of 10,000 bytes.
        (
            10_000,
            "bytes=0-499",
            Span::Part {
                first: 0,
                last: 499,
            },
        ),
        (
            10_000,
            "bytes=500-999",
            Span::Part {
                first: 500,
                last: 999,
            },
        ),
        (
            10_000,
            "bytes=-500",
            Span::Part {
                first: 9_500,
                last: 9_999,
            },
        ),
        (
            10_000,
            "bytes=9500-",
            Span::Part {
                first: 9_500,
                last: 9_999,
            },
        ),
        (
            10_000,
            "BYTES=0-499",
            Span::Part {
                first: 0,
                last: 499,
            },
        ),
        (10_000, "bytes=007-008", Span::Part { first: 7, last: 8 }),
        (
            10_000,
            "bytes=1-99999999999999999999",
            Span::Part {
                first: 1,
                last: 9_999,
            },
        ),
        (10_000, "bytes=99999999999999999999-", Span::Unsatisfiable),
        (10_000, "bytes=-", Span::Whole),
        (10_000, "bytes=", Span::Whole),
        (10_000, "bytes", Span::Whole),
        (10_000, "", Span::Whole),
        (10_000, "bytes=1-2-3", Span::Whole),
        (10_000, "bytes= 1-2", Span::Whole),
        (10_000, "bytes=1-2 ", Span::Whole),
        (10_000, "bytes=+1-2", Span::Whole),
        (10_000, "bytes=0x1-2", Span::Whole),
    ] {
        assert_eq!(rt;
            resolve(read(header.as_bytes()), len),
            span,
            "{header} on {len} bytes"
        );
    }
}

#[test]
fn numbers_past_the_largest(rt: HostRuntime) {
    let wanted = Want::From {
        first: u64::MAX,
        last: Some(u64::MAX),
    };
    assert_eq!(rt;
        read(b"bytes=18446744073709551616-18446744073709551615"),
        wanted
    );
    assert_eq!(rt;
        read(b"bytes=-18446744073709551616"),
        Want::Last { count: u64::MAX }
    );
}

// The laws are contracts: to call them is to cite them.
#[test]
fn laws_are_cited() {
    laws::grammar_has_one_reading();
    laws::part_is_the_bytes_first_to_last();
}

#[test]
fn parts_are_put_where_they_fit(rt: HostRuntime) -> Result<(), Fail> {
    let mut out = Scratch::new(rt.alloc(), 24)?;
    assert!(rt; put_range(&mut out, 2, 4, 10));
    assert!(rt; !put_range(&mut out, 2, 4, 100));
    assert_eq!(rt; out.bytes(), b"bytes 2-4/10".as_slice());
    assert!(rt; put_range(&mut out, 0, 0, 10));
    assert_eq!(rt; out.bytes(), b"bytes 2-4/10bytes 0-0/10".as_slice());
    Ok(())
}
