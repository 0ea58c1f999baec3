//! How far a gathering came.

ghost use Rattle.std.specs.Prelude.{◌≡◌, ◌≤◌, ◌+◌, ◌<◌, [], ◌∷◌, ◌++◌, length, IfOk, IfErr, OnOk, None, Some, if◌then◌else◌, nat_le};
ghost use Rattle.std.specs.List.{list_any};
ghost use Rattle.cdni_base.specs.Key.{same_key};
ghost use Rattle.metadata_links.specs.Answers.{IsNoFetch, LeadsFrom};
ghost use Rattle.metadata_links.specs.Gathering.{kept_texts};
ghost use Rattle.upstream_gate.specs.declared.got.TheConstants.{BODY_MAX};
ghost use Rattle.metadata_links.specs.declared.gathering.TheConstants.{DOCUMENTS_MAX};

use crate::fault::LinkFault;
use crate::finding::{Stop, list_document};
use crate::href::base_of;
use crate::link::{Link, LinkList};
use cdni_base::{Body, Ignored, Key, url_key};
use json_read::{JsonPath, JsonScratch, ParseFault, parse_borrowed};
use metadata_objects::{KeyList, MetaFault, NESTING_MAX};
use std::alloc::{AllocError, Global};
use std::marker::Model;
use upstream_gate::BODY_MAX;

/// The most documents of a gathering, the root counted.
pub const DOCUMENTS_MAX: usize = 4096;

/// The most bytes of all documents of a gathering together.
pub const TEXTS_MAX: usize = 8388608;

/// A document whose Links are followed. It is seen as an `Opened`.
#[derive(Drop)]
pub(crate) struct Document {
    key: Key,
    links: LinkList,
    followed: usize,
    bad: Option<JsonPath>,
}

impl Model for Document {
    ghost use Rattle.std.specs.Prelude.{◌≤◌, drop, length};
    ghost use Rattle.metadata_links.specs.State.{Opened};

    ghost Value = { Opened };

    ghost view = { λ d. record { key = d.key; links = drop d.followed d.links; bad = d.bad } };

    ghost invariant = { λ d. d.followed ≤ length d.links };
}

/// How far a gathering came. The document at the end of the list is the innermost. It is seen as a `State`.
#[derive(Drop)]
pub(crate) struct Gathering {
    opened: Vec<Document>,
    texts: Vec<Body>,
    resources: KeyList,
    size: usize,
}

impl Model for Gathering {
    ghost use Rattle.std.specs.Prelude.{◌≤◌};
    ghost use Rattle.std.specs.Prelude.{reverse};
    ghost use Rattle.metadata_links.specs.State.{State};
    ghost use Rattle.metadata_links.specs.declared.gathering.TheConstants.{TEXTS_MAX};

    ghost Value = { State };

    ghost view = { λ g. record {
      opened = reverse g.opened.items;
      texts = g.texts.items;
      resources = g.resources;
      size = g.size;
    } };

    ghost invariant = { λ g. g.size ≤ TEXTS_MAX };
}

impl Document {
    ghost use Rattle.metadata_links.specs.Answers.{HasLink};

    // the next Link, if there is one
    fn next(&mut self) -> Result<Option<Link>, AllocError>
        ensures { IfOk result (λ found. HasLink self.old self.new found) }
    {
        if self.followed < self.links.len() {
            let link = copy_of(self.links.at(self.followed))?;
            self.followed += 1;
            Ok(Some(link))
        } else {
            Ok(None)
        }
    }

    // the pointer of its first Link that names nothing
    fn into_bad(self) -> Option<JsonPath>
        ensures { result ≡ self.bad }
    {
        self.bad
    }
}

impl Gathering {
    ghost use Rattle.metadata_links.specs.Answers.{Leads, Refuses, Comes};
    ghost use Rattle.metadata_links.specs.Gathering.{nothing, step_of, refused, received, with_document};
    ghost use Rattle.metadata_links.specs.declared.gathering.TheConstants.{TEXTS_MAX};

    /// A gathering of nothing. It takes no memory.
    pub(crate) fn new(alloc: Global) -> Gathering
        ensures { result ≡ nothing }
    {
        Gathering {
            opened: Vec::new(alloc),
            texts: Vec::new(alloc),
            resources: KeyList::new(alloc),
            size: 0,
        }
    }

    /// The next Link of the innermost document that has one; documents without one are done, and `None` comes where all
    /// are.
    ///
    /// # Errors
    /// `BadHref` where a Link names nothing, or want of memory.
    pub(crate) fn next_link(&mut self) -> Result<Option<Link>, LinkFault>
        ensures next { Leads (step_of self.old) self.new result }
        ensures no_fetch { IfErr result IsNoFetch }
        ensures resources { self.new.resources ≡ self.old.resources }
    {
        next_of(&mut self.opened)
    }

    /// # Errors
    /// Why the document of this Link is not asked for: `Loop` where it stands on the path from the root, `TooMany`
    /// where it is one too many; or want of memory.
    pub(crate) fn refuse(&self, alloc: Global, link: &Link) -> Result<(), LinkFault>
        ensures refused { Refuses (refused self.now link.now) result }
        ensures no_fetch { IfErr result IsNoFetch }
        ensures few { OnOk result (length self.now.resources < DOCUMENTS_MAX) }
    {
        let key = url_key(alloc, &link.target, &Ignored::None)?;
        if stands_in(&self.opened, &key) {
            return Err(LinkFault::Loop {
                href: link.target.url_text(alloc, false)?,
            });
        }
        if self.resources.len() >= DOCUMENTS_MAX {
            return Err(LinkFault::TooMany {
                count: DOCUMENTS_MAX + 1,
            });
        }
        Ok(())
    }

    /// Takes the text of the document of this Link, whose own Links are followed next.
    ///
    /// # Errors
    /// `TooLong` where all documents together pass 8,388,608 bytes, `Meta(NotJson)`, or want of memory.
    pub(crate) fn receive(
        &mut self,
        alloc: Global,
        link: &Link,
        text: Body,
    ) -> Result<(), LinkFault>
        requires { length text ≤ BODY_MAX }
        ensures received { Comes (received self.old link.now text) self.new result }
        ensures no_fetch { IfErr result IsNoFetch }
        ensures one_more { OnOk result (length self.new.resources ≡ length self.old.resources + 1) }
    {
        let size = self.size + text.bytes().len();
        if size > TEXTS_MAX {
            return Err(LinkFault::TooLong { len: size });
        }
        let document = Document::open(alloc, link, &text)?;
        self.add(document, link.depth, text, size)?;
        Ok(())
    }

    // adds an opened document, in so many PathMatch objects; with it all have so many bytes
    fn add(
        &mut self,
        document: Document,
        depth: u32,
        text: Body,
        size: usize,
    ) -> Result<(), AllocError>
        requires { size ≤ TEXTS_MAX }
        ensures { OnOk result (self.new ≡ with_document self.old depth text size document) }
    {
        self.resources.push(copy_of_key(&document.key)?)?;
        keep(&mut self.texts, depth, text)?;
        match self.opened.push(document) {
            Ok(()) => {}
            Err(_) => return Err(AllocError),
        }
        self.size = size;
        Ok(())
    }

    /// The texts of the documents that the whole is made of, and the keys of all documents.
    pub(crate) fn into_parts(self) -> (Vec<Body>, KeyList)
        ensures texts { result.0.items ≡ self.texts }
        ensures resources { result.1 ≡ self.resources }
    {
        (self.texts, self.resources)
    }
}

impl Document {
    ghost use Rattle.metadata_links.specs.Answers.{Answers};
    ghost use Rattle.metadata_links.specs.Gathering.{opening};

    // the document of a Link with this text
    fn open(alloc: Global, link: &Link, text: &Body) -> Result<Document, LinkFault>
        ensures opened { Answers (opening link.now text.now) result }
        ensures no_fetch { IfErr result IsNoFetch }
    {
        let mut scratch = JsonScratch::new(alloc);
        let base = base_of(alloc, &link.target)?;
        let value = match parse_borrowed(alloc, text.bytes(), &mut scratch) {
            Ok(value) => value,
            Err(ParseFault::NotJson) => return Err(LinkFault::Meta(MetaFault::NotJson)),
            Err(ParseFault::Memory) => return Err(LinkFault::Memory),
        };
        let key = url_key(alloc, &link.target, &Ignored::None)?;
        match list_document(alloc, &value, &base, link.place, link.depth) {
            Ok(links) => Ok(Document {
                key,
                links,
                followed: 0,
                bad: None,
            }),
            Err(Stop::Bad(bad)) => Ok(Document {
                key,
                links: bad.links,
                followed: 0,
                bad: Some(bad.path),
            }),
            Err(Stop::Memory) => Err(LinkFault::Memory),
        }
    }
}

// the next Link of the innermost document that has one, where those without one are left
fn next_of(opened: &mut Vec<Document>) -> Result<Option<Link>, LinkFault>
    ensures leads { LeadsFrom opened.old.items opened.new.items result }
    ensures no_fetch { IfErr result IsNoFetch }
{
    'documents: while let Some(mut document) = opened.pop() {
        match document.next()? {
            Some(link) => {
                return match opened.push(document) {
                    Ok(()) => Ok(Some(link)),
                    Err(_) => Err(LinkFault::Memory),
                };
            }
            None => match document.into_bad() {
                Some(path) => return Err(LinkFault::BadHref { path }),
                None => {}
            },
        }
    }
    Ok(None)
}

fn copy_of(link: &Link) -> Result<Link, AllocError>
    ensures { IfOk result (λ copy. copy ≡ link.now) }
{
    link.clone()
}

fn copy_of_key(key: &Key) -> Result<Key, AllocError>
    ensures { IfOk result (λ copy. copy ≡ key.now) }
{
    key.clone()
}

// keeps the text of a document in so many PathMatch objects, if one so deep is read
fn keep(texts: &mut Vec<Body>, depth: u32, text: Body) -> Result<(), AllocError>
    ensures { OnOk result (texts.new.items ≡ kept_texts texts.old.items depth text) }
{
    if depth > NESTING_MAX {
        return Ok(());
    }
    match texts.push(text) {
        Ok(()) => Ok(()),
        Err(_) => Err(AllocError),
    }
}

// whether a document of this key is opened
fn stands_in(opened: &[Document], key: &Key) -> bool
    ensures { result ≡ list_any (λ document. same_key document.key key.now) opened.now }
{
    opened.iter().any(|document| document.key == *key)
}
