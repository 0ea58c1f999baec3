//! A small set of origins.

ghost use Rattle.std.specs.Prelude.{◌≡◌, ◌⊎◌, ◌<◌, None, Some, nat_eq};
ghost use Rattle.indexmap.specs.IndexMap.{index_map_len, IsEmpty, IsUnchanged, Updates};
ghost use Rattle.client_desk.specs.declared.origins.TheConstants.{ORIGINS_MAX};
ghost use Rattle.client_desk.specs.Origins.{is_among};

use indexmap::IndexMap;
use std::alloc::Global;

/// How many origins are known at most.
const ORIGINS_MAX: usize = 64;

/// Some origins, each by its number, under that number.
#[derive(Drop)]
pub struct Origins {
    numbers: IndexMap<u64, u64>,
}

impl Origins {
    /// None.
    pub fn new(alloc: Global) -> Origins
        ensures { IsEmpty result.numbers }
    {
        Origins {
            numbers: IndexMap::new(alloc),
        }
    }

    /// Whether this origin is among them.
    pub fn has(&self, origin: u64) -> bool
        ensures { result ≡ is_among origin self.now }
    {
        self.numbers.contains_key(&origin)
    }

    /// Has this origin too, unless there is no memory for it, or as many others are there.
    pub fn add(&mut self, origin: u64)
        ensures { IsUnchanged self.old.numbers self.new.numbers
            ⊎ ((index_map_len self.old.numbers < ORIGINS_MAX) × Updates nat_eq self.old.numbers self.new.numbers origin (Some origin)) }
    {
        if self.numbers.len() < ORIGINS_MAX {
            let _ = self.numbers.insert(origin, origin);
        }
    }

    /// Has this origin no more.
    pub fn remove(&mut self, origin: u64)
        ensures { Updates nat_eq self.old.numbers self.new.numbers origin None }
    {
        self.numbers.swap_remove(&origin);
    }
}
