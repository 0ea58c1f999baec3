//! What no clause says: that counting succeeds where there is memory, and what a summary looks like.

use answer_summary::Summary;
use std::test::Fail;

#[test]
fn words_are_counted_in_byte_order(rt: HostRuntime) -> Result<(), Fail> {
    let alloc = rt.alloc();
    let mut summary = Summary::new(alloc);
    let answers: [&[u8]; 9] = [
        b"miss 1 1 o.example:80\n",
        b"ended kept\n",
        b"not-due 5\n",
        b"ended\n",
        b"text 14\nmiss 1\ndue 2\nx\n",
        b"",
        b"not-open 5\n",
        b"due 1\n",
        b"miss 2 2 o.example:80\n",
    ];
    for answer in answers {
        summary.count(alloc, answer)?;
    }
    let text = summary.text(alloc)?;
    assert_eq!(rt;
        text.bytes(),
        b"due 1\nended 2\nmiss 2\nnot-due 1\nnot-open 1\ntext 1\n".as_slice()
    );
    Ok(())
}

#[test]
fn a_word_comes_after_those_it_begins_with(rt: HostRuntime) -> Result<(), Fail> {
    let alloc = rt.alloc();
    let mut summary = Summary::new(alloc);
    let answers: [&[u8]; 4] = [b"logs -\n", b"logged 1\n", b"log\n", b"logs 1\n"];
    for answer in answers {
        summary.count(alloc, answer)?;
    }
    assert_eq!(rt;
        summary.text(alloc)?.bytes(),
        b"log 1\nlogged 1\nlogs 2\n".as_slice()
    );
    Ok(())
}
