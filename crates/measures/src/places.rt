//! Looks up the places of addresses, so that the instructions of a look-up can be counted (bench/instructions/places.sh), and prints
//! how many of them have a known place. Numbers: how many lines the place file has, how many addresses are looked
//! up, whether by the table (0), by the plain scan (1), or by both, and then how many have the same place by both is
//! printed (2), and whether they are IPv4 (0) or IPv6 addresses (1). Without numbers the table and the scan are
//! compared on 2,000 lines.
use anyhow::bail;
use location_acl::{Ip, PlaceTable, plain};
use std::alloc::{AllocError, Global};

// A sequence of numbers that looks random, and is the same in each run.
#[derive(Clone, Copy)]
struct Sequence {
    state: u64,
}

impl Sequence {
    fn new(seed: u64) -> Sequence {
        Sequence { state: seed }
    }

    // The next number, of 32 bits.
    fn draw(&mut self) -> u32 {
        self.state = self
            .state
            .wrapping_mul(6364136223846793005)
            .wrapping_add(1442695040888963407);
        (self.state >> 32) as u32
    }
}

// A line of a place file: of even lines an IPv4 block of 8 to 28 bits, of odd ones an IPv6 block of 16 to 48 bits.
fn line_of(
    alloc: Global,
    numbers: &mut Sequence,
    number: u32,
    text: &mut Vec<u8>,
) -> Result<(), AllocError> {
    let first = numbers.draw();
    let second = numbers.draw();
    let asn = numbers.draw();
    let line = if number % 2 == 0 {
        let a = 1 + first % 223;
        let b = (first >> 8) % 256;
        let c = (first >> 16) % 256;
        let length = 8 + second % 21;
        format!(in alloc; "{a}.{b}.{c}.0/{length} as{asn} us\n")?
    } else {
        let a = first % 256;
        let b = (first >> 8) % 65536;
        let c = second % 65536;
        let length = 16 + (second >> 16) % 33;
        format!(in alloc; "2{a:03x}:{b:x}:{c:x}::/{length} as{asn} de\n")?
    };
    text.extend_from_slice(line.as_bytes())
}

// A place file of so many lines.
fn file_of(alloc: Global, lines: u32) -> Result<Vec<u8>, AllocError> {
    let mut numbers = Sequence::new(1);
    let mut text = Vec::new(alloc);
    for number in 0..lines {
        line_of(alloc, &mut numbers, number, &mut text)?;
    }
    Ok(text)
}

// An address of the kind that the blocks have.
fn address_of(numbers: &mut Sequence, six: bool) -> Ip {
    let first = numbers.draw();
    let second = numbers.draw();
    if six {
        let high = 0x20000000 + u128::from(first % 0x1000000);
        Ip::V6((high << 96) + (u128::from(second) << 64) + 1)
    } else {
        let high = 1 + first % 223;
        Ip::V4((high << 24) + (second >> 8))
    }
}

// How many of so many addresses have a known place.
fn known(table: &PlaceTable, count: u32, plainly: bool, six: bool) -> u32 {
    let mut numbers = Sequence::new(7);
    let mut known = 0u32;
    for _ in 0..count {
        let ip = address_of(&mut numbers, six);
        let place = if plainly {
            plain::place_of(table.lines(), ip)
        } else {
            table.place_of(ip)
        };
        if place.asn.is_some() {
            known = known.saturating_add(1);
        }
    }
    known
}

// How many of so many addresses have the same place by the table and by the plain scan.
fn agreeing(table: &PlaceTable, count: u32, six: bool) -> u32 {
    let mut numbers = Sequence::new(7);
    let mut agreeing = 0u32;
    for _ in 0..count {
        let ip = address_of(&mut numbers, six);
        if plain::place_of(table.lines(), ip) == table.place_of(ip) {
            agreeing = agreeing.saturating_add(1);
        }
    }
    agreeing
}

fn table_of(alloc: Global, lines: u32) -> anyhow::Result<PlaceTable> {
    let text = file_of(alloc, lines)?;
    let Ok(table) = PlaceTable::read(alloc, &text) else {
        bail!("no place file, or out of memory");
    };
    Ok(table)
}

/// Runs it as these numbers say, or on its sample where there are none.
pub fn run<R: Print>(rt: &R, alloc: Global, numbers: &[u32]) -> anyhow::Result<()> {
    if let [lines, count, way, six] = numbers {
        let table = table_of(alloc, *lines)?;
        let counted = if *way == 2 {
            agreeing(&table, *count, *six == 1)
        } else {
            known(&table, *count, *way == 1, *six == 1)
        };
        println!(rt; "{counted}")?;
        return Ok(());
    }
    let table = table_of(alloc, 2000)?;
    for six in [false, true] {
        let known = known(&table, 300, false, six);
        let agreeing = agreeing(&table, 300, six);
        println!(rt; "300 addresses: {known} known, {agreeing} with the same place by the scan")?;
    }
    Ok(())
}
