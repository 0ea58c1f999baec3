// What no clause says: that the calls succeed, that memory stays bounded, and that entries may own memory.
use crate::Journal;
use std::test::Fail;

#[test]
fn entries_go_in_order(rt: HostRuntime) -> Result<(), Fail> {
    let mut journal = Journal::new(rt.alloc())?;
    journal.reserve(rt.alloc(), 3)?;
    journal.push_reserved(String::from_str(rt.alloc(), "first")?);
    assert_eq!(rt; journal.stored(), 1);
    assert_eq!(rt; journal.retired(), 0);
    journal.reserve(rt.alloc(), 2)?;
    journal.push_reserved(String::from_str(rt.alloc(), "second")?);
    assert_eq!(rt; journal.stored(), 2);
    assert_eq!(rt; journal.entry(0).as_str(), "first");
    assert_eq!(rt; journal.entry(1).as_str(), "second");
    journal.retire(1);
    assert_eq!(rt; journal.stored(), 1);
    assert_eq!(rt; journal.entry(0).as_str(), "second");
    assert_eq!(rt; journal.retired(), 1);
    journal.retire(0);
    assert_eq!(rt; journal.retired(), 1);
    Ok(())
}

// A million entries go through, of which a hundred stay: the places that they leave are used again.
#[test]
fn a_million_entries_in_bounded_memory(rt: HostRuntime) -> Result<(), Fail> {
    let mut journal = Journal::new(rt.alloc())?;
    for number in 0..1_000_000u64 {
        journal.reserve(rt.alloc(), 1)?;
        journal.push_reserved(number);
        if journal.stored() > 100 {
            assert_eq!(rt; *journal.entry(0), journal.retired());
            assert_eq!(rt; *journal.entry(100), number);
            journal.retire(1);
        }
    }
    assert_eq!(rt; journal.stored(), 100);
    assert_eq!(rt; journal.retired(), 999_900);
    assert!(rt; journal.entries.capacity() <= 256);
    Ok(())
}

// Entries without a size take no memory.
#[test]
fn entries_without_a_size(rt: HostRuntime) -> Result<(), Fail> {
    let mut journal = Journal::new(rt.alloc())?;
    journal.reserve(rt.alloc(), 2)?;
    journal.push_reserved(());
    assert_eq!(rt; journal.stored(), 1);
    journal.retire(1);
    assert_eq!(rt; journal.retired(), 1);
    Ok(())
}
