//! Where the HostMatch objects of each host stand (RFC 8006, section 4.1.2).

ghost use Rattle.std.specs.Prelude.{◌≡◌, ◌∷◌, ◌++◌, [], ℕ, List, bytes_eq, IfOk, OnOk, if◌then◌else◌};
ghost use Rattle.metadata_objects.specs.LevelData.{index_view};
ghost use Rattle.inheritance.specs.HostTable.{places_in, IsTableOf};

use cdni_base::HostName;
use indexmap::IndexMap;
use metadata_objects::HostIndex;
use std::alloc::{AllocError, Global};

/// For each host name of a HostIndex the places of its HostMatch objects, rising and counted from 0.
#[derive(Drop)]
pub struct HostTable {
    places: IndexMap<HostName, Vec<usize>>,
}

impl HostTable {
    /// The table of an index. It takes time and memory in the measure of its HostMatch objects.
    ///
    /// # Errors
    /// Want of memory.
    pub fn of(alloc: Global, index: &HostIndex) -> Result<HostTable, AllocError>
        ensures { IfOk result (λ table. IsTableOf table (index_view index.now)) }
    {
        let mut table = HostTable {
            places: IndexMap::new(alloc),
        };
        let hosts = index.hosts.as_slice();
        'hosts: for place in 0..hosts.len() {
            table.add(alloc, &hosts[place].host.host, place)?;
        }
        Ok(table)
    }

    // adds the place of a HostMatch of this host
    fn add(&mut self, alloc: Global, host: &HostName, place: usize) -> Result<(), AllocError>
        ensures { OnOk result ((name : List ℕ) → places_in self.new name
            ≡ (if bytes_eq host.now name then places_in self.old name ++ place ∷ [] else places_in self.old name)) }
    {
        let mut places = match self.places.swap_remove(host) {
            Some(places) => places,
            None => Vec::new(alloc),
        };
        places.push(place)?;
        self.places.insert(host.clone()?, places)?;
        Ok(())
    }

    /// The places of the HostMatch objects of this host, rising and counted from 0.
    pub fn places(&self, host: &HostName) -> &[usize]
        ensures { result.now ≡ places_in self.now host.now }
    {
        match self.places.get(host) {
            Some(places) => places.as_slice(),
            None => &[],
        }
    }
}
