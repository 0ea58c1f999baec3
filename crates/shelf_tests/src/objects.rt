// What no clause says: that the calls succeed.
use cdni_base::{Body, Ignored, Key, Target, TypeName, url_key};
use object_cache::{Object, ObjectTable};
use std::alloc::Global;
use std::test::Fail;

fn key_of(alloc: Global) -> Result<Key, Fail> {
    match Target::read(alloc, b"http://v.example/a", None, false) {
        Ok(target) => Ok(url_key(alloc, &target, &Ignored::None)?),
        Err(_) => Err(Fail::from("no target")),
    }
}

fn object_of(alloc: Global) -> Result<Object, Fail> {
    match TypeName::of(alloc, b"text/plain")? {
        Some(kind) => Ok(Object {
            key: key_of(alloc)?,
            fetch: 1,
            ccid: None,
            kind,
            body: Body::of(alloc, b"abc")?,
            begun: 0,
        }),
        None => Err(Fail::from("no name")),
    }
}

#[test]
fn a_kept_object_is_found(rt: HostRuntime) -> Result<(), Fail> {
    let mut table = ObjectTable::new(rt.alloc(), 6)?;
    let key = key_of(rt.alloc())?;
    table.reserve_fill(rt.alloc())?;
    assert!(rt; table.fill_reserved(object_of(rt.alloc())?));
    table.touch(&key);
    assert!(rt; table.find(&key).is_some());
    Ok(())
}

#[test]
fn a_reserved_place_is_given_back(rt: HostRuntime) -> Result<(), Fail> {
    let mut table = ObjectTable::new(rt.alloc(), 6)?;
    table.reserve_fill(rt.alloc())?;
    table.give_back();
    Ok(())
}

// takes out the next object of a walk, and answers its fetch
fn take_next(table: &mut ObjectTable) -> Option<u64> {
    table.next()?;
    Some(table.take_next().fetch)
}

// passes the next object of a walk, and answers its fetch
fn pass(table: &mut ObjectTable) -> Option<u64> {
    let fetch = table.next()?.fetch;
    table.pass();
    Some(fetch)
}

#[test]
fn what_is_taken_out_is_not_found(rt: HostRuntime) -> Result<(), Fail> {
    let mut table = ObjectTable::new(rt.alloc(), 6)?;
    let key = key_of(rt.alloc())?;
    table.reserve_fill(rt.alloc())?;
    assert!(rt; table.fill_reserved(object_of(rt.alloc())?));
    assert_eq!(rt; pass(&mut table), Some(1));
    assert!(rt; take_next(&mut table).is_none());
    table.walk_anew();
    assert_eq!(rt; take_next(&mut table), Some(1));
    assert!(rt; table.find(&key).is_none());
    assert_eq!(rt; table.len(), 0);
    assert_eq!(rt; table.held(), 0);
    Ok(())
}
