//! Gathering metadata.

ghost use Rattle.std.specs.Prelude.{◌≡◌, ◌≤◌, List, IfErr, Err};
ghost use Rattle.edge_base.specs.Causes.{Rose};
ghost use Rattle.edge_base.specs.Clock.{Grows};
ghost use Rattle.upstream_gate.specs.Outcome.{Exchange};
ghost use Rattle.metadata_objects.specs.LevelData.{index_view};
ghost use Rattle.metadata_objects.specs.Reading.{Gives};
ghost use Rattle.metadata_links.specs.Answers.{IsNoFetch};
ghost use Rattle.metadata_links.specs.Filled.{seen, all_seen, AreValuesOf, IsValueOf};
ghost use Rattle.metadata_links.specs.Gathering.{Gathers, IsTreeOf, index_of, joined};

use crate::documents::documents;
use crate::fault::LinkFault;
use crate::gathering::Gathering;
use crate::joining::fill_index;
use cdni_base::{Body, Target};
use json_read::{BorrowedValue, JsonScratch, ParseFault, parse_borrowed};
use metadata_objects::{HostIndex, MetaFault, Tree};
use std::alloc::{AllocError, Global};
use upstream_gate::{Gate, Outcome};

/// Gathers the metadata of the root document (RFC 8006, sections 4.3.1 and 6.3): asks for it, then for the document of
/// each Link, depth first in reading order, and reads the whole, where each document stands in the place of the Link that
/// names it. A Link is an object with a property `href` in the place of a HostMatch, HostMetadata, PathMatch,
/// PathMetadata or GenericMetadata. Its `href` is an absolute `http` URL, or a path at the host and port of the document
/// that holds it. The resources of the tree are the keys of all documents, in the order in which they were asked for.
///
/// Documents are kept on a list and never nest on the stack; within one document calls nest as deep as its text, at most
/// 127 levels, and within the whole as deep as 16 PathMatch objects.
///
/// # Errors
/// The first fault, in this order at each Link: `BadHref`, `Loop` where the document stands on the path from the root,
/// `TooMany` at document 4,097, `Fetch` where the gate gives no content of status 200, `TooLong` where all documents
/// together pass 8,388,608 bytes, `Meta(NotJson)`. Every other `Meta` comes after the last document. Or want of memory.
pub fn gather<G: Gate>(alloc: Global, gate: &mut G, root: &Target) -> Result<Tree, LinkFault>
    ensures gathers { (made : List Exchange) × Grows (G.exchanges gate.old) (G.exchanges gate.new) made
        × Gathers root.now made result }
    ensures later { G.faults gate.old ≤ G.faults gate.new }
    ensures failed { result ≡ Err (LinkFault.Fetch Outcome.Failed) → Rose (G.faults gate.old) (G.faults gate.new) }
{
    let gathering = documents(alloc, gate, root)?;
    tree_of(alloc, gathering)
}

// the tree of all documents
fn tree_of(alloc: Global, gathering: Gathering) -> Result<Tree, LinkFault>
    ensures tree { IsTreeOf gathering result }
    ensures no_fetch { IfErr result IsNoFetch }
{
    let (texts, resources) = gathering.into_parts();
    let index = index_of(alloc, &texts)?;
    Ok(Tree { index, resources })
}

// the HostIndex of the whole
fn index_of(alloc: Global, texts: &[Body]) -> Result<HostIndex, MetaFault>
    ensures { Gives (λ index. index_view index) result (index_of texts.now) }
{
    let mut scratches = scratches_of(alloc, texts.len())?;
    let values = values_of(alloc, texts, &mut scratches)?;
    HostIndex::of_value(alloc, &whole_of(values))
}

// the memory that reading so many texts wants
fn scratches_of(alloc: Global, count: usize) -> Result<Vec<JsonScratch>, AllocError> {
    let mut scratches = Vec::new(alloc);
    for _ in 0..count {
        match scratches.push(JsonScratch::new(alloc)) {
            Ok(()) => {}
            Err(_) => return Err(AllocError),
        }
    }
    Ok(scratches)
}

// the root, filled from the other documents
fn whole_of<'a>(values: Vec<BorrowedValue<'a>>) -> BorrowedValue<'a>
    ensures { seen result ≡ joined (all_seen values.entry.items) }
{
    let mut documents = values.into_iter();
    match documents.next() {
        Some(root) => fill_index(root, &mut documents),
        None => BorrowedValue::Null,
    }
}

// the values of the texts
fn values_of<'a>(
    alloc: Global,
    texts: &'a [Body],
    scratches: &'a mut [JsonScratch],
) -> Result<Vec<BorrowedValue<'a>>, MetaFault>
    ensures { AreValuesOf texts.now result }
{
    let mut values = Vec::new(alloc);
    let mut spare = scratches.iter_mut();
    'texts: for i in 0..texts.len() {
        let Some(scratch) = spare.next() else {
            return Err(MetaFault::Memory);
        };
        let value = value_of(alloc, &texts[i], scratch)?;
        match values.push(value) {
            Ok(()) => {}
            Err(_) => return Err(MetaFault::Memory),
        }
    }
    Ok(values)
}

fn value_of<'a>(
    alloc: Global,
    text: &'a Body,
    scratch: &'a mut JsonScratch,
) -> Result<BorrowedValue<'a>, MetaFault>
    ensures { IsValueOf text.now result }
{
    match parse_borrowed(alloc, text.bytes(), scratch) {
        Ok(value) => Ok(value),
        Err(ParseFault::NotJson) => Err(MetaFault::NotJson),
        Err(ParseFault::Memory) => Err(MetaFault::Memory),
    }
}
