// What no clause says: that the calls succeed, that texts can be looked up, and that rules of one's own can be decided.
use listing::{
    AccessList, AccessRule, Listing, ReservedList, SharedBytes, Text, laws, shared_parts,
};
use std::collections::HashSet;
use std::test::Fail;

#[test]
fn items_go_into_reserved_places(rt: HostRuntime) -> Result<(), Fail> {
    let mut list = ReservedList::new(rt.alloc());
    assert_eq!(rt; list.spare(), 0);
    list.reserve(rt.alloc(), 3)?;
    assert_eq!(rt; list.spare(), 3);
    list.push_reserved(Text::of(rt.alloc(), b"first")?);
    list.push_reserved(Text::of(rt.alloc(), b"second")?);
    assert_eq!(rt; list.len(), 2);
    assert_eq!(rt; list.spare(), 1);
    assert!(rt; list.at(1).is(b"second"));
    list.clear();
    assert_eq!(rt; list.as_slice().len(), 0);
    assert_eq!(rt; list.spare(), 3);
    Ok(())
}

#[test]
fn texts_are_looked_up(rt: HostRuntime) -> Result<(), Fail> {
    let mut texts = HashSet::new(rt.alloc());
    texts.insert(Text::lowered(rt.alloc(), b"MI.SourceMetadata")?)?;
    assert!(rt; texts.contains(&Text::of(rt.alloc(), b"mi.sourcemetadata")?));
    assert!(rt; !texts.contains(&Text::of(rt.alloc(), b"MI.SourceMetadata")?));
    assert!(rt; Some(Text::of(rt.alloc(), b"a")?) != None);
    Ok(())
}

// texts of 0, 1, 16, 17 and 100 bytes are found however they hold their bytes, and so are their copies
#[test]
fn texts_are_one_however_they_hold_their_bytes(rt: HostRuntime) -> Result<(), Fail> {
    let alloc = rt.alloc();
    let bytes = [b'a'; 100];
    let capitals = [b'A'; 100];
    let whole = SharedBytes::of(alloc, &bytes)?;
    for length in [0, 1, 16, 17, 100] {
        let mut texts = HashSet::new(alloc);
        texts.insert(Text::of(alloc, &bytes[..length])?)?;
        assert!(rt; texts.contains(&whole.front(length)?));
        assert!(rt; texts.contains(&whole.rest(bytes.len() - length)?.clone()?));
        assert!(rt; texts.contains(&Text::shared(alloc, &bytes[..length])?.clone()?));
        assert!(rt; texts.contains(&Text::from_vec(bytes[..length].to_vec(alloc)?)));
        assert!(rt; texts.contains(&Text::lowered(alloc, &capitals[..length])?.clone()?));
        assert!(rt; !texts.contains(&Text::of(alloc, b"aa")?));
    }
    Ok(())
}

#[test]
fn parts_outlive_what_they_are_parts_of(rt: HostRuntime) -> Result<(), Fail> {
    let (path, query) = shared_parts(rt.alloc(), b'?', b"/films?a=1?b=2")?;
    let copy = path.clone()?;
    drop(path);
    assert!(rt; copy.is(b"/films"));
    assert!(rt; query == Some(Text::of(rt.alloc(), b"a=1?b=2")?));
    let (whole, none) = shared_parts(rt.alloc(), b'?', b"/films")?;
    assert!(rt; whole == copy && none.is_none());
    Ok(())
}

// a rule that holds the numbers from this one on, and allows them
#[derive(Drop)]
struct FromOn(u64);

impl AccessRule<u64> for FromOn {
    ghost use Rattle.std.specs.Prelude.{nat_le, true};

    ghost holds = { λ number rule. nat_le rule.0 number };

    ghost allows = { λ _. true };

    fn holds(&self, number: u64) -> bool {
        self.0 <= number
    }

    fn allows(&self) -> bool {
        true
    }
}

#[test]
fn the_first_rule_decides(rt: HostRuntime) -> Result<(), Fail> {
    let mut rules = Listing::new(rt.alloc());
    rules.push(FromOn(20))?;
    rules.push(FromOn(10))?;
    let list = AccessList::new(Some(rules)).expect(&rt, "few rules");
    assert_eq!(rt; list.decide(20), (true, Some(1)));
    assert_eq!(rt; list.decide(10), (true, Some(2)));
    assert_eq!(rt; list.decide(9), (false, None));
    laws::first_rule_that_holds_decides::<FromOn>();
    Ok(())
}
