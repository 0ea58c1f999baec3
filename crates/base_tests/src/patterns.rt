// What a match answers, against tables of cases, and what reading answers at its limit.
use pattern_match::{MAX_PATTERN_LEN, Pattern, PatternFault, laws, plain};
use std::alloc::Global;
use std::process::Abort;
use std::test::Fail;

// The program and the plain program both give the answer that the table has.
fn both_answer(
    rt: &impl Abort,
    alloc: Global,
    pattern: &str,
    case_sensitive: bool,
    text: &str,
    answer: bool,
) -> Result<(), Fail> {
    let compiled = Pattern::read(alloc, pattern.as_bytes(), case_sensitive)?;
    assert_eq!(rt;
        compiled.matches(text.as_bytes()),
        answer,
        "pattern {pattern} on {text}"
    );
    let units = plain::units_of(alloc, text.as_bytes())?;
    let plainly = plain::tokens_match(compiled.tokens(), &units, compiled.is_case_sensitive());
    assert_eq!(rt;
        plainly,
        answer,
        "the plain program, pattern {pattern} on {text}"
    );
    Ok(())
}

// Pattern, whether the case of letters counts, text, answer.
#[test]
fn worked_cases(rt: HostRuntime) -> Result<(), Fail> {
    for (pattern, case_sensitive, text, answer) in [
        ("/movies/*", false, "/MOVIES/a%2Fb", true),
        ("/movies/*", true, "/MOVIES/a%2Fb", false),
        ("/movies/a?b", false, "/movies/a%2Fb", true),
        ("/movies/a??b", false, "/movies/a%2Fb", false),
        ("/a$*", false, "/a*", true),
        ("/a$*", false, "/ab", false),
        ("/a$?", false, "/a?", true),
        ("/a$b", false, "/a$b", true),
        ("/a$", false, "/a$", true),
        ("", false, "", true),
        ("", false, "/", false),
        ("**", false, "/a/b", true),
        ("**", false, "", true),
        ("$$", false, "$", true),
        ("%2f", false, "%2F", true),
        ("%2f", true, "%2F", false),
        ("%2", false, "%2", true),
        ("?", false, "%2f", true),
        ("???", false, "%2f", false),
        ("???", false, "%zz", true),
        ("$$*", false, "$abc", true),
        ("$*$?$$", true, "*?$", true),
        ("$%41", true, "$%41", true),
    ] {
        both_answer(&rt, rt.alloc(), pattern, case_sensitive, text, answer)?;
    }
    Ok(())
}

// Globbing as shells do it, but for two rules: `*` matches `/` too, and brackets are plain characters.
#[test]
fn globbing_cases(rt: HostRuntime) -> Result<(), Fail> {
    for (pattern, text, answer) in [
        ("*.c", "foo.c", true),
        ("*.c", ".c", true),
        ("*.c", "foo.h", false),
        ("*.c", "lib/foo.c", true),
        ("a*", "abc", true),
        ("a*", "bac", false),
        ("*a", "banana", true),
        ("a?c", "abc", true),
        ("a?c", "ac", false),
        ("a?c", "a/c", false),
        ("?", "", false),
        ("?*", "x", true),
        ("*?", "x", true),
        ("*?", "/", false),
        ("*?", "", false),
        ("???", "ab", false),
        ("???", "abcd", false),
        ("*a*b*c*", "xxaxxbxxcxx", true),
        ("*a*b*c*", "xxaxxcxxbxx", false),
        ("*ab*ab", "abab", true),
        ("*ab*ab", "aab", false),
        ("*aab", "aaaab", true),
        ("a*a*a", "aa", false),
        ("a*a*a", "aaa", true),
        ("*abc*abd", "abcabcabd", true),
        ("*x*y", "xxyxy", true),
        ("/a/*/b/*/c?.m4s", "/a/1/b/2/c3.m4s", true),
        ("/a/*/b/*/c?.m4s", "/a/b/c1.m4s/c2.m4s", false),
        ("/a/*/b/*/c?.m4s", "/a/x/b/c1.m4s/c2.m4s", true),
        ("/a/*/b/*/c?.m4s", "/a/x/b/y/c/.m4s", false),
        ("[ab]", "a", false),
        ("[ab]", "[ab]", true),
        ("\\*", "\\x", true),
    ] {
        both_answer(&rt, rt.alloc(), pattern, true, text, answer)?;
        both_answer(&rt, rt.alloc(), pattern, false, text, answer)?;
    }
    Ok(())
}

// Bytes above 127 are units like others, and their case always counts.
#[test]
fn bytes_above_ascii(rt: HostRuntime) -> Result<(), Fail> {
    let pattern = Pattern::read(rt.alloc(), &[0xC3, b'*'], false)?;
    assert!(rt; pattern.matches(&[0xC3, 0xA9]));
    assert!(rt; !pattern.matches(&[0xE3, 0xA9]));
    Ok(())
}

#[test]
fn length_limit(rt: HostRuntime) -> Result<(), Fail> {
    let longest = vec![in rt.alloc(); b'?'; MAX_PATTERN_LEN]?;
    let pattern = Pattern::read(rt.alloc(), &longest, false)?;
    let copy = pattern.clone()?;
    assert!(rt; copy.matches(&vec![in rt.alloc(); b'x'; 1024]?));
    assert!(rt; !copy.matches(&vec![in rt.alloc(); b'x'; 1023]?));
    assert!(rt; !copy.matches(&vec![in rt.alloc(); b'x'; 1025]?));
    let longer = vec![in rt.alloc(); b'?'; 1025]?;
    let Err(fault) = Pattern::read(rt.alloc(), &longer, false) else {
        assert!(rt; false, "1,025 bytes are too many");
        return Ok(());
    };
    assert_eq!(rt; fault, PatternFault::TooLong { len: 1025 });
    Ok(())
}

// A walk that tried each `*` again would never end here.
#[test]
fn many_stars_end_at_once(rt: HostRuntime) -> Result<(), Fail> {
    let mut text = Vec::new(rt.alloc());
    for _ in 0..511 {
        text.extend_from_slice(b"*a")?;
    }
    text.push(b'b')?;
    let pattern = Pattern::read(rt.alloc(), &text, true)?;
    assert!(rt; !pattern.matches(&vec![in rt.alloc(); b'a'; 4000]?));
    Ok(())
}

// The laws are contracts: to call them is to cite them.
#[test]
fn laws_are_cited() {
    laws::units_are_the_text();
    laws::matching_is_concatenation();
    laws::test_is_relation();
    laws::plain_pattern_is_its_text();
    laws::star_matches_every_text();
    laws::any_takes_the_rest();
    laws::case_does_not_count();
}
