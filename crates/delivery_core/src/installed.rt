//! The installed metadata.

ghost use Rattle.std.specs.Prelude.{◌≡◌, IfOk, None};
ghost use Rattle.std.specs.List.{list_any};
ghost use Rattle.history.specs.Metadata.{objects_in};
ghost use Rattle.metadata_objects.specs.Tree.{tree_view};
ghost use Rattle.trigger_command.specs.Selection.{hits_metadata};

use cdni_base::{Key, Moment, Target};
use inheritance::{Effective, HostTable, effective, effective_by};
use metadata_objects::Tree;
use std::alloc::{AllocError, Global};
use std::marker::Model;
use trigger_command::Selection;

/// So many hosts are searched one by one, which takes fewer steps than the table does.
const FEW_HOSTS: usize = 8;

/// Installed metadata: its refresh, the moment at which that began, and the first trigger that has made it invalid, where
/// one has; and the table of its hosts, once it was made.
#[derive(Drop)]
pub(crate) struct Installed {
    tree: Tree,
    refresh: u64,
    moment: Moment,
    invalid: Option<u64>,
    hosts: Option<HostTable>,
}

impl Model for Installed {
    ghost use Rattle.metadata_objects.specs.Tree.{tree_view};
    ghost use Rattle.delivery_core.specs.Installed.{HasTable, Seen};

    ghost Value = { Seen };

    ghost use Rattle.std.specs.Coded.{codes, coded_list, coded×, coded_ℕ};
    ghost use Rattle.metadata_objects.specs.Coding.{level_code};
    ghost use Rattle.metadata_objects.specs.contracts.generic.Generic as generic;
    ghost use Rattle.pattern_match.specs.contracts.pattern.Pattern as pattern;

    ghost coded = { Prim.hlevel (
      codes,
      level_code (coded_list (coded× pattern.the_row.coded (coded×
          (coded_list generic.the_row.coded) coded_ℕ))),
    ) };

    ghost view = { λ i. record {
      tree = tree_view i.tree;
      refresh = i.refresh;
      moment = i.moment;
      invalid = i.invalid;
    } };

    ghost invariant = { λ i. HasTable i.hosts (tree_view i.tree).index };
}

impl Installed {
    ghost use Rattle.delivery_core.specs.Installed.{invalidated};

    /// The metadata of a refresh that began at this moment, which no trigger has made invalid.
    pub fn new(tree: Tree, refresh: u64, moment: Moment) -> Installed
        ensures { result ≡ record { tree = tree_view tree; refresh = refresh; moment = moment; invalid = None } }
    {
        Installed {
            tree,
            refresh,
            moment,
            invalid: None,
            hosts: None,
        }
    }

    /// Makes the table of its hosts, unless it was made, or there are few of them. Nothing of what is seen changes.
    ///
    /// # Errors
    /// Want of memory.
    pub fn make_table(&mut self, alloc: Global) -> Result<(), AllocError>
        ensures { self.new ≡ self.old }
    {
        if self.hosts.is_none() && self.tree.index.hosts.len() > FEW_HOSTS {
            self.hosts = Some(HostTable::of(alloc, &self.tree.index)?);
        }
        Ok(())
    }

    /// What is effective of a target, by the table of its hosts where that was made; `None` where no HostMatch matches.
    ///
    /// # Errors
    /// Want of memory.
    pub fn effective<'t>(
        &'t self,
        alloc: Global,
        target: &Target,
    ) -> Result<Option<Effective<'t>>, AllocError>
        ensures { IfOk result (λ found. found ≡ objects_in self.now.tree.index target.now) }
    {
        match &self.hosts {
            Some(hosts) => effective_by(alloc, &self.tree.index, hosts, target),
            None => effective(alloc, &self.tree.index, target),
        }
    }

    /// The refresh that brought it.
    pub fn refresh(&self) -> u64
        ensures { result ≡ self.now.refresh }
    {
        self.refresh
    }

    /// When that refresh began, in milliseconds since 1970 UTC.
    pub fn moment(&self) -> Moment
        ensures { result ≡ self.now.moment }
    {
        self.moment
    }

    /// The first trigger that has made it invalid.
    pub fn invalid(&self) -> Option<u64>
        ensures { result ≡ self.now.invalid }
    {
        self.invalid
    }

    /// A trigger starts: it makes the metadata invalid where its metadata selection hits one of the documents, unless an
    /// earlier trigger has.
    pub fn start(&mut self, trigger: u64, selection: &Selection)
        ensures { self.new ≡ invalidated trigger selection.now self.old }
    {
        if self.invalid.is_none() && is_hit(selection, self.tree.resources.as_slice()) {
            self.invalid = Some(trigger);
        }
    }
}

/// Whether the metadata selection hits one of these documents (RFC 8007, section 5.2.1).
pub(crate) fn is_hit(selection: &Selection, resources: &[Key]) -> bool
    ensures { result ≡ list_any (hits_metadata selection.now) resources.now }
{
    resources
        .iter()
        .any(|resource| selection.hits_metadata(resource))
}
