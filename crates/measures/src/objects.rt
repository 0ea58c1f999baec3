//! Looks objects of a table up and fills others in, so that the instructions and the memory of both can be counted
//! (bench/instructions/cache.sh), and prints how many look-ups and fills succeeded. Numbers: what is done (0: an object is looked up
//! and touched, 1: one is looked up in vain, 2: one is filled in and another leaves, 3: the same without the table),
//! how many objects are kept, of how many bytes each, and how often. Without numbers each is done 100 times with 1,000
//! objects of one byte.
use anyhow::bail;
use cdni_base::{Body, Ignored, Key, Target, TypeName, url_key};
use object_cache::{Object, ObjectTable};
use std::alloc::Global;

// How many keys are looked up in turn.
const KEYS: u32 = 1_000;

// The key of a URL with this number, which is the same in each run and looks random.
fn key_of(alloc: Global, number: u32) -> anyhow::Result<Key> {
    let name = number.wrapping_mul(2_654_435_761);
    let url = format!(in alloc; "http://v.example/films/{name}.ts")?;
    match Target::read(alloc, url.as_bytes(), None, false) {
        Ok(target) => Ok(url_key(alloc, &target, &Ignored::None)?),
        Err(_) => bail!("no target"),
    }
}

fn object_of(alloc: Global, number: u32, bytes: &[u8]) -> anyhow::Result<Object> {
    let Some(kind) = TypeName::of(alloc, b"video/mp2t")? else {
        bail!("no type");
    };
    Ok(Object {
        key: key_of(alloc, number)?,
        fetch: u64::from(number),
        ccid: None,
        kind,
        body: Body::of(alloc, bytes)?,
        begun: 0,
    })
}

// A table with so many objects, whose bytes are its limit.
fn filled(alloc: Global, objects: u32, bytes: &[u8]) -> anyhow::Result<ObjectTable> {
    let limit = u64::from(objects).saturating_mul(bytes.len() as u64);
    let mut table = ObjectTable::new(alloc, limit)?;
    for number in 0..objects {
        table.reserve_fill(alloc)?;
        table.fill_reserved(object_of(alloc, number, bytes)?);
    }
    Ok(table)
}

// Keys of so many objects, from this number on, spread over all of them.
fn keys_of(alloc: Global, first: u32, objects: u32) -> anyhow::Result<Vec<Key>> {
    let step = (objects / KEYS).max(1);
    let mut keys = Vec::new(alloc);
    for at in 0..KEYS {
        let place = at.wrapping_mul(step) % objects.max(1);
        keys.push(key_of(alloc, first.wrapping_add(place))?)?;
    }
    Ok(keys)
}

// How many of so many rounds over the keys find an object, and touch it.
fn look_up(table: &mut ObjectTable, keys: &[Key], rounds: u32) -> u32 {
    let mut found = 0u32;
    for _ in 0..rounds {
        for key in keys {
            if table.find(key).is_some() {
                table.touch(key);
                found = found.saturating_add(1);
            }
        }
    }
    found
}

// How many of so many new objects the table takes in, or are made where there is none.
fn fill(
    alloc: Global,
    mut table: Option<ObjectTable>,
    first: u32,
    count: u32,
    bytes: &[u8],
) -> anyhow::Result<u32> {
    let mut taken = 0u32;
    for at in 0..count {
        let object = object_of(alloc, first.wrapping_add(at), bytes)?;
        if let Some(table) = &mut table {
            table.reserve_fill(alloc)?;
            if table.fill_reserved(object) {
                taken = taken.saturating_add(1);
            }
        }
    }
    Ok(taken)
}

fn measure(alloc: Global, what: u32, objects: u32, length: u32, count: u32) -> anyhow::Result<u32> {
    let bytes = vec![in alloc; b'a'; length as usize]?;
    let mut table = filled(alloc, objects, &bytes)?;
    match what {
        0 => {
            let keys = keys_of(alloc, 0, objects)?;
            Ok(look_up(&mut table, &keys, count))
        }
        1 => {
            let keys = keys_of(alloc, objects, objects)?;
            Ok(look_up(&mut table, &keys, count))
        }
        2 => fill(alloc, Some(table), objects, count, &bytes),
        3 => fill(alloc, None, objects, count, &bytes),
        _ => bail!("0 and 1 look up, 2 fills in, and 3 makes objects"),
    }
}

/// Runs it as these numbers say, or on its sample where there are none.
pub fn run<R: Print>(rt: &R, alloc: Global, numbers: &[u32]) -> anyhow::Result<()> {
    if let [what, objects, length, count] = numbers {
        let count = measure(alloc, *what, *objects, *length, *count)?;
        println!(rt; "{count}")?;
        return Ok(());
    }
    for what in 0..4 {
        let count = measure(alloc, what, 1_000, 1, 100)?;
        println!(rt; "{what}: {count}")?;
    }
    Ok(())
}
