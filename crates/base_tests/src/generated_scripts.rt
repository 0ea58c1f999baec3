// What no clause says: that the definition is the script that an independent program writes from the same numbers.

use edge_base::{MemorySink, Status};
use generated_script::{Numbers, generate};
use std::test::Fail;

/// The script of 3 rounds whose draws begin with 7.
const THREE: &[u8] = b"limits 65536 100000 10000 64 60000 4611686018427387904\n\
    0 1000 refresh\n\
    0 1000 meta 1 http://up.example/i {\"hosts\":[{\"host\":\"v.example\",\"host-metadata\":{\"metadata\":[\
    {\"generic-metadata-type\":\"MI.SourceMetadata\",\"generic-metadata-value\":\
    {\"sources\":[{\"endpoints\":[\"o.example\"],\"protocol\":\"http/1.1\"}]}}]}}]}\n\
    0 1001 get GET http/1.1 192.0.2.7 as64496 us http://v.example/o/6\n\
    0 1001 got 1 200 - 61\n\
    0 1001 finish 1 200 1 1\n\
    0 1002 get GET http/1.1 192.0.2.7 as64496 us http://v.example/o/24\n\
    0 1002 got 2 200 - 61\n\
    0 1002 finish 2 200 1 1\n\
    3 1003 get GET http/1.1 192.0.2.7 as64496 us http://v.example/o/15\n\
    3 1003 got 3 200 - 61\n\
    3 1003 finish 3 200 1 1\n";

fn numbers(rounds: &[u8], seed: &[u8]) -> Result<Numbers, Fail> {
    match Numbers::read(rounds, seed) {
        Some(numbers) => Ok(numbers),
        None => Err(Fail::from("two numbers")),
    }
}

// the FNV-1a hash of 64 bits
fn hash_of(bytes: &[u8]) -> u64 {
    let mut hash: u64 = 0xcbf29ce484222325;
    for byte in bytes {
        hash = (hash ^ *byte as u64).wrapping_mul(0x100000001b3);
    }
    hash
}

#[test]
fn three_rounds_are_as_an_independent_program_writes_them(rt: HostRuntime) -> Result<(), Fail> {
    let alloc = rt.alloc();
    let mut sink = MemorySink::new(alloc, &[])?;
    let status = generate(alloc, &mut sink, &numbers(b"3", b"7")?);
    assert_eq!(rt; status, Status::Done);
    assert_eq!(rt; sink.held(), THREE);
    Ok(())
}

#[test]
fn two_thousand_rounds_are_as_an_independent_program_writes_them(
    rt: HostRuntime,
) -> Result<(), Fail> {
    let alloc = rt.alloc();
    let mut sink = MemorySink::new(alloc, &[])?;
    let status = generate(alloc, &mut sink, &numbers(b"2000", b"7")?);
    assert_eq!(rt; status, Status::Done);
    assert_eq!(rt; sink.held().len(), 191_614);
    assert_eq!(rt; hash_of(sink.held()), 2_468_180_553_902_317_739);
    Ok(())
}

#[test]
fn a_failing_sink_ends_it(rt: HostRuntime) -> Result<(), Fail> {
    let alloc = rt.alloc();
    let mut sink = MemorySink::new(alloc, &[100, 0])?;
    let status = generate(alloc, &mut sink, &numbers(b"3", b"7")?);
    assert_eq!(rt; status, Status::WriteFault);
    assert_eq!(rt; sink.held(), &THREE[..100]);
    Ok(())
}

#[test]
fn words_out_of_range_are_none(rt: HostRuntime) -> Result<(), Fail> {
    assert!(rt; Numbers::read(b"1000000", b"2147483647").is_some());
    assert!(rt; Numbers::read(b"1", b"0").is_some());
    assert!(rt; Numbers::read(b"0", b"0").is_none());
    assert!(rt; Numbers::read(b"1000001", b"0").is_none());
    assert!(rt; Numbers::read(b"1", b"2147483648").is_none());
    assert!(rt; Numbers::read(b"01", b"0").is_none());
    assert!(rt; Numbers::read(b"1", b"").is_none());
    Ok(())
}
