//! The table of places.

ghost use Rattle.std.specs.Prelude.{◌≡◌, ◌<◌, ◌≤◌, ◌∷◌, ◌++◌, [], OnOk, IfSome, IfNone, length, option_map};
ghost use Rattle.std.specs.HashMap.{get};
ghost use Rattle.location_acl.specs.Table.{key_of, same_key, IsIndexed, IsAbsent, FitsKind, first_line, width_of};

use crate::block::front_bits;
use crate::footprint::Place;
use crate::ip::Ip;
use crate::line::{PlaceLine, line_of};
use listing::cut_at;
use std::alloc::{AllocError, Global};
use std::collections::HashMap;
use std::marker::Model;

/// Why a text is no place file: its first line that does not read, from 1, or want of memory.
#[derive(Clone, Copy, Debug, PartialEq, Eq)]
pub enum PlaceFault {
    BadLine { line: u64 },
    Memory,
}

impl From<AllocError> for PlaceFault {
    ghost use Rattle.std.specs.Prelude.{◌≡◌};
    ghost use Rattle.location_acl.specs.declared.table.PlaceFault.TheVariants.{Memory};

    ghost from_gives = { λ _ fault. fault ≡ Memory };

    fn from(_fault: AllocError) -> PlaceFault {
        PlaceFault::Memory
    }
}

// the kind of an address, and its first bits
fn key_of(ip: Ip, length: u8) -> (bool, u8, u128)
    ensures { result ≡ key_of ip length }
{
    match ip {
        Ip::V4(number) => (false, length, front_bits(u128::from(number), 32, length)),
        Ip::V6(number) => (true, length, front_bits(number, 128, length)),
    }
}

// Lines, with the first of each block by its key, and which lengths there are.
#[derive(Drop)]
struct Index {
    lines: Vec<PlaceLine>,
    firsts: HashMap<(bool, u8, u128), usize>,
    lengths: [bool; 129],
}

impl Index {
    // no lines
    fn new(alloc: Global) -> Index
        ensures lines { result.lines.items ≡ [] }
        ensures indexed { IsIndexed result.lines.items (get same_key result.firsts) result.lengths }
    {
        Index {
            lines: Vec::new(alloc),
            firsts: HashMap::new(alloc),
            lengths: [false; 129],
        }
    }

    // one more line at the end
    fn add(&mut self, line: PlaceLine) -> Result<(), AllocError>
        requires fits { FitsKind line.block }
        requires indexed { IsIndexed self.old.lines.items (get same_key self.old.firsts) self.old.lengths }
        ensures lines { OnOk result (self.new.lines.items ≡ self.old.lines.items ++ line ∷ []) }
        ensures indexed { OnOk result (IsIndexed self.new.lines.items (get same_key self.new.firsts) self.new.lengths) }
    {
        let key = key_of(line.block.base, line.block.length);
        if !self.firsts.contains_key(&key) {
            self.firsts.insert(key, self.lines.len())?;
        }
        self.lengths[line.block.length as usize] = true;
        self.lines.push(line)?;
        Ok(())
    }

    // the first line whose block is of this length and holds the address
    fn first_of(&self, ip: Ip, length: u8) -> Option<usize>
        requires small { length ≤ 128 }
        requires indexed { IsIndexed self.now.lines.items (get same_key self.now.firsts) self.now.lengths }
        ensures found { IfSome result (λ i. get same_key self.now.firsts (key_of ip length) ≡ Some i) }
        ensures none { IfNone result (IsAbsent (get same_key self.now.firsts) self.now.lengths ip length) }
    {
        if !self.lengths[length as usize] {
            return None;
        }
        self.firsts.get(&key_of(ip, length)).copied()
    }
}

// how many bits an address of this kind has
fn width_of(ip: Ip) -> u8
    ensures { result ≡ width_of ip }
{
    match ip {
        Ip::V4(_) => 32,
        Ip::V6(_) => 128,
    }
}

// the first line, and what stands behind its line feed
fn first_line(bytes: &[u8]) -> Option<(PlaceLine, &[u8])>
    ensures value { option_map (λ found. (found.0, found.1.now)) result ≡ first_line bytes.now }
    ensures shorter { IfSome result (λ found. length found.1.now < length bytes.now) }
    ensures fits { IfSome result (λ found. FitsKind found.0.block) }
{
    let (text, after) = cut_at(b'\n', bytes)?;
    let line = line_of(text)?;
    Some((line, after))
}

/// The places of addresses: the lines of a place file, and an index of them. It is seen as the list of its lines. It
/// takes memory in proportion to them.
#[derive(Drop)]
pub struct PlaceTable {
    index: Index,
}

impl Model for PlaceTable {
    ghost use Rattle.std.specs.Prelude.{List};
    ghost use Rattle.std.specs.HashMap.{get};
    ghost use Rattle.location_acl.specs.declared.line.PlaceLine.{PlaceLine};
    ghost use Rattle.location_acl.specs.Table.{same_key, IsIndexed};

    ghost Value = { List PlaceLine };

    ghost view = { λ t. t.index.lines.items };

    ghost invariant = { λ t. IsIndexed t.index.lines.items (get same_key t.index.firsts) t.index.lengths };
}

impl PlaceTable {
    ghost use Rattle.location_acl.specs.Table.{GivesPlace, ReadsTable};

    /// Reads a place file. Each line is a block, a space, `as` and the number of an autonomous system or `-`, a space,
    /// a country or `-`, and a line feed. An empty text has no lines.
    ///
    /// # Errors
    /// `BadLine` with the number of the first line that is none, from 1; a last line without its line feed is none.
    /// Want of memory.
    pub fn read(alloc: Global, bytes: &[u8]) -> Result<PlaceTable, PlaceFault>
        ensures { ReadsTable bytes.now result }
    {
        let mut index = Index::new(alloc);
        let mut number: u64 = 0;
        let mut rest = bytes;
        'lines: while !rest.is_empty() {
            number += 1;
            let Some((line, after)) = first_line(rest) else {
                return Err(PlaceFault::BadLine { line: number });
            };
            index.add(line)?;
            rest = after;
        }
        Ok(PlaceTable { index })
    }

    /// The lines, in order.
    pub fn lines(&self) -> &[PlaceLine]
        ensures { result.now ≡ self.now }
    {
        &self.index.lines
    }

    /// The place of an address: the number and country of the longest block that holds it, and of equal ones of the
    /// first line; neither where no block does. It looks at each length of a block once, and at no other line.
    pub fn place_of(&self, ip: Ip) -> Place
        ensures { GivesPlace self.now ip result }
    {
        'lengths: for length in (0..width_of(ip) + 1).rev() {
            if let Some(i) = self.index.first_of(ip, length) {
                let line = self.index.lines[i];
                return Place {
                    ip,
                    asn: line.asn,
                    country: line.country,
                };
            }
        }
        Place {
            ip,
            asn: None,
            country: None,
        }
    }
}
