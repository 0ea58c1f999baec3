//! The command that serves connections.

ghost use Rattle.std.specs.Prelude.{◌≡◌, ◌≤◌, ◌⊎◌, ℕ, List, [], None, Some, IfErr, IfOk};
ghost use Rattle.std.specs.Option.{option_map};
ghost use Rattle.std.specs.declared.option.Option.{Option};
ghost use Rattle.doors.specs.Outside.{Asked, DiaryGrows};
ghost use Rattle.history.specs.World.{node_made};
ghost use Rattle.http_node.specs.Note.{IsNoted, note_of, serve_note};
ghost use Rattle.http_node.specs.Serve.{IsCommand, IsTable, IsUnread, Listens, Places, Stops, line_of, status_at};
ghost use Rattle.location_acl.specs.Line.{AreLines};
ghost use Rattle.node_core.specs.Node.{Stands};
ghost use Rattle.serve_words.specs.Options.{options_of};

use crate::note::{NOTE_ROOM, note_status, put_serve_note, write_note};
use cdni_base::{Limits, Scratch, Text};
use cdni_log::FieldList;
use doors::Outside;
use edge_base::{Sink, Status};
use location_acl::{PlaceFault, PlaceTable};
use node_core::Node;
use serve_words::{Options, OptionsRead, read_options};
use session_base::Settings;
use std::alloc::{AllocError, Global};
use std::sync::Wait;
use std::thread::Threads;
use workers::{Crew, fault_status, serve_workers};

/// How serving ended.
#[derive(Clone, Copy, PartialEq, Eq)]
pub(crate) enum ServeEnd {
    /// With this status.
    Ended(Status),
    /// This line of the file of places, counted from 1, does not read.
    BadPlace(u64),
}

/// Serves as the words say, those after the program's name: `serve` and its options. It reads the file of places, where one
/// is named, listens at the address, takes as many workers from `outside` as are asked for, serves the connections of each
/// worker's door in a thread of its own over one node, and gives the workers back in order; the first fault ends it. It may
/// wait, and need not return. One line on how it ended, but for `Done`, goes to `notes`; where that fails nothing else
/// changes.
///
/// The status is `Usage` only where the words are no command; `Outside` only where the address does not read, a line of the
/// file of places does not read, or the outside's count of faults rose; `Memory` for want of memory; and else `Done`, when
/// each door has no connection left or gave as many as asked for.
pub fn serve_main<R: Threads + Wait + Sync, O: Outside, E: Sink>(
    rt: &R,
    alloc: Global,
    words: &[String],
    outside: &mut O,
    notes: &mut E,
) -> Status
    ensures usage { result ≡ Status.Usage → options_of words.now ≡ None }
    ensures no_command { options_of words.now ≡ None → (result ≡ Status.Usage) ⊎ (result ≡ Status.Memory) }
    ensures untouched { options_of words.now ≡ None → outside.new ≡ outside.old }
    ensures usage_noted { options_of words.now ≡ None
        → IsNoted (E.held notes.old) (E.held notes.new) (E.faults notes.old) (E.faults notes.new) (note_of result None) }
    ensures command { (options : _) → options_of words.now ≡ Some options → (line : Option ℕ)
        × IsCommand options (O.diary outside.old) (O.diary outside.new) (O.returned outside.old) (O.returned outside.new)
        (O.faults outside.old) (O.faults outside.new) line result
        × IsNoted (E.held notes.old) (E.held notes.new) (E.faults notes.old) (E.faults notes.new) (serve_note result line) }
    ensures later { O.faults outside.old ≤ O.faults outside.new }
{
    match read_options(alloc, words) {
        OptionsRead::Options(options) => serve_noted(rt, alloc, options, outside, notes),
        OptionsRead::NotOne => {
            note_status(notes, Status::Usage);
            Status::Usage
        }
        OptionsRead::Memory => {
            note_status(notes, Status::Memory);
            Status::Memory
        }
    }
}

// serves under these options, and notes how that ended
fn serve_noted<R: Threads + Wait + Sync, O: Outside, E: Sink>(
    rt: &R,
    alloc: Global,
    options: Options,
    outside: &mut O,
    notes: &mut E,
) -> Status
    ensures command { (line : Option ℕ)
        × IsCommand options (O.diary outside.old) (O.diary outside.new) (O.returned outside.old) (O.returned outside.new)
        (O.faults outside.old) (O.faults outside.new) line result
        × IsNoted (E.held notes.old) (E.held notes.new) (E.faults notes.old) (E.faults notes.new) (serve_note result line) }
    ensures later { O.faults outside.old ≤ O.faults outside.new }
{
    let Ok(mut note) = Scratch::new(alloc, NOTE_ROOM) else {
        note_status(notes, Status::Memory);
        return Status::Memory;
    };
    let end = serve_options(rt, alloc, options, outside);
    put_serve_note(&mut note, end);
    write_note(notes, note.bytes());
    status_at(end)
}

fn status_at(end: ServeEnd) -> Status
    ensures { result ≡ status_at end }
{
    match end {
        ServeEnd::Ended(status) => status,
        ServeEnd::BadPlace(_) => Status::Outside,
    }
}

// serves under these options
fn serve_options<R: Threads + Wait + Sync, O: Outside>(
    rt: &R,
    alloc: Global,
    options: Options,
    outside: &mut O,
) -> ServeEnd
    ensures command { IsCommand options (O.diary outside.old) (O.diary outside.new) (O.returned outside.old)
        (O.returned outside.new) (O.faults outside.old) (O.faults outside.new) (line_of result) (status_at result) }
    ensures later { O.faults outside.old ≤ O.faults outside.new }
{
    match find_places(rt, alloc, options.places.as_ref(), outside) {
        Ok(places) => ServeEnd::Ended(serve_placed(rt, alloc, options, places, outside)),
        Err(end) => end,
    }
}

// the table of places of the file at this path, or of an empty text
fn find_places<R: Threads + Wait + Sync, O: Outside>(
    rt: &R,
    alloc: Global,
    path: Option<&Text>,
    outside: &mut O,
) -> Result<PlaceTable, ServeEnd>
    ensures found { IfOk result (λ places. (asked : List Asked)
        × IsTable (option_map (λ path. path.now) path.entry) asked places
        × DiaryGrows (O.diary outside.old) (O.diary outside.new) asked []) }
    ensures none { IfErr result (λ end. Stops (option_map (λ path. path.now) path.entry) (O.diary outside.old)
        (O.diary outside.new) (O.faults outside.old) (O.faults outside.new) end) }
    ensures returned { O.returned outside.new ≡ O.returned outside.old }
    ensures later { O.faults outside.old ≤ O.faults outside.new }
{
    match path {
        Some(path) => ask_places(rt, alloc, path, outside),
        None => no_places(alloc),
    }
}

// the table of places of the file at this path
fn ask_places<R: Threads + Wait + Sync, O: Outside>(
    rt: &R,
    alloc: Global,
    path: &Text,
    outside: &mut O,
) -> Result<PlaceTable, ServeEnd>
    ensures found { IfOk result (λ places. (asked : List Asked) × IsTable (Some path.now) asked places
        × DiaryGrows (O.diary outside.old) (O.diary outside.new) asked []) }
    ensures none { IfErr result (λ end. Stops (Some path.now) (O.diary outside.old) (O.diary outside.new)
        (O.faults outside.old) (O.faults outside.new) end) }
    ensures returned { O.returned outside.new ≡ O.returned outside.old }
    ensures later { O.faults outside.old ≤ O.faults outside.new }
{
    match outside.places(rt, alloc, path.bytes()) {
        Ok(text) => read_places(alloc, text.bytes()),
        Err(fault) => Err(ServeEnd::Ended(fault_status(fault))),
    }
}

// the table of places of this text
fn read_places(alloc: Global, text: &[u8]) -> Result<PlaceTable, ServeEnd>
    ensures found { IfOk result (λ places. AreLines text.now places) }
    ensures none { IfErr result (λ end. IsUnread text.now end) }
{
    match PlaceTable::read(alloc, text) {
        Ok(table) => Ok(table),
        Err(PlaceFault::BadLine { line }) => Err(ServeEnd::BadPlace(line)),
        Err(PlaceFault::Memory) => Err(ServeEnd::Ended(Status::Memory)),
    }
}

// the table of places of an empty text
fn no_places(alloc: Global) -> Result<PlaceTable, ServeEnd>
    ensures found { IfOk result (λ places. AreLines [] places) }
    ensures none { IfErr result (λ end. end ≡ ServeEnd.Ended Status.Memory) }
{
    read_places(alloc, b"")
}

// serves under these options, with these places
fn serve_placed<R: Threads + Wait + Sync, O: Outside>(
    rt: &R,
    alloc: Global,
    options: Options,
    places: PlaceTable,
    outside: &mut O,
) -> Status
    ensures placed { Places options places (O.diary outside.old) (O.diary outside.new) (O.returned outside.old)
        (O.returned outside.new) (O.faults outside.old) (O.faults outside.new) result }
    ensures later { O.faults outside.old ≤ O.faults outside.new }
{
    let Options {
        address,
        root,
        control,
        advert,
        workers,
        connections,
        places: _,
        own,
        origin,
        fields,
        limits,
    } = options;
    let Ok(node) = node_of(alloc, &limits, origin.0, &fields) else {
        return Status::Memory;
    };
    let settings = Settings {
        protocol: advert.protocol,
        control,
        root,
        own,
        advert,
        fields,
    };
    let crew = Crew {
        workers,
        connections,
        places,
        settings,
    };
    serve_listening(rt, alloc, address.bytes(), node, &crew, outside)
}

// the node of these limits, whose log files claim this host and have these fields
fn node_of(
    alloc: Global,
    limits: &Limits,
    origin: Text,
    fields: &FieldList,
) -> Result<Node, AllocError>
    ensures stands { IfOk result (λ node. Stands node (node_made limits.now origin fields.now) []) }
    ensures made { IfOk result (λ node. node.made ≡ node_made limits.now origin fields.now) }
{
    let logged = copy_of(fields)?;
    Node::new(alloc, limits, origin, logged)
}

// the fields once more: the node has them for its files, and the settings for the requests
fn copy_of(fields: &FieldList) -> Result<FieldList, AllocError>
    ensures { IfOk result (λ copy. copy ≡ fields.now) }
{
    fields.clone()
}

// listens, and serves
fn serve_listening<R: Threads + Wait + Sync, O: Outside>(
    rt: &R,
    alloc: Global,
    address: &[u8],
    node: Node,
    crew: &Crew,
    outside: &mut O,
) -> Status
    requires fresh { Stands node node.made [] }
    ensures listens { Listens address.now node.made crew.now (O.diary outside.old) (O.diary outside.new)
        (O.returned outside.old) (O.returned outside.new) (O.faults outside.old) (O.faults outside.new) result }
    ensures later { O.faults outside.old ≤ O.faults outside.new }
{
    match outside.listen(rt, alloc, address) {
        Ok(()) => serve_workers(rt, alloc, node, crew, outside),
        Err(fault) => fault_status(fault),
    }
}
