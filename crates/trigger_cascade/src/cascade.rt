//! The command that passes a trigger command on.

ghost use Rattle.std.specs.Prelude.{◌≡◌, ◌≢◌, ◌⊎◌, ◌≤◌, ◌+◌, ◌∷◌, ◌++◌, [], ℕ, List, None, Some, Ok};
ghost use Rattle.std.specs.Prelude.{All, Contains, IfOk, IfSome, OnErr};
ghost use Rattle.std.specs.Io.KnownBytes.{Keeps};
ghost use Rattle.std.specs.declared.option.Option.{Option};
ghost use Rattle.edge_base.specs.Causes.{Rose};
ghost use Rattle.edge_base.specs.Clock.{Grows};
ghost use Rattle.trigger_cascade.specs.Cascade.{note_of, status_of, CascadesBy, EndsAt, HasCauseOf, IsCut, IsJoined};
ghost use Rattle.trigger_cascade.specs.Cascade.{Notes, PassesOn, Ran};
ghost use Rattle.trigger_cascade.specs.Cascade.{passed_text, Answers, Refuses, Runs, Serves};
ghost use Rattle.trigger_cascade.specs.Cdn.{AreWaiting};
ghost use Rattle.trigger_cascade.specs.Law.{posts_due, posts_of, ArePolledOut};
ghost use Rattle.trigger_cascade.specs.Order.{order_of};
ghost use Rattle.trigger_cascade.specs.OrderParts.{OrderParts};
ghost use Rattle.trigger_cascade.specs.Passing.{Passes};
ghost use Rattle.trigger_cascade.specs.Report.{report};
ghost use Rattle.trigger_cascade.specs.Task.{task_in};
ghost use Rattle.trigger_cascade.specs.declared.cdn.Cdn.{Cdn};
ghost use Rattle.trigger_cascade.specs.declared.link.LinkCall.{LinkCall};
ghost use Rattle.cdni_base.specs.Provider.{IsProvider};
ghost use Rattle.cdni_base.specs.declared.provider.ProviderId.{ProviderId};
ghost use Rattle.trigger_command.specs.Reading.{command_of};
ghost use Rattle.trigger_command.specs.Spec.{SpecParts};
ghost use Rattle.trigger_command.specs.declared.command.Act.TheVariants as act;
ghost use Rattle.trigger_command.specs.declared.command.Command.{Command};
ghost use Rattle.trigger_status.specs.Command.{command_text};

use crate::cdn::Cdn;
use crate::laws::{an_open_cdn_was_polled_in_each_round, each_other_cdn_is_posted_to_once};
use crate::link::Link;
use crate::order::{Order, order_of};
use crate::passing::{pass_on, skip_named};
use crate::report::report;
use crate::task::{Task, TaskRead, read_task};
use cdni_base::ProviderId;
use command_law::status::what_a_status_resource_shows_reads_as_the_same_trigger;
use edge_base::{Sink, Source, Status, write_counted};
use listing::Text;
use std::alloc::{AllocError, Global};
use trigger_command::{ProviderIdList, Spec};
use trigger_status::command_json;

/// How the command ended.
#[derive(Drop)]
pub enum CascadeEnd {
    /// The trigger command was passed on, and the joined status was written.
    Done,
    /// The input is not passed on, with the note that says so.
    Stopped { note: Text },
    /// The words are not this command.
    Usage,
    /// The input failed.
    ReadFault,
    /// The output failed.
    WriteFault,
    /// Want of memory.
    Memory,
}

/// Passes a trigger command on (RFC 8007, section 4.6). `words` are those after the program's name: `cascade`, the id of this
/// CDN, a number of rounds from 1 to 1,000, and 1 to 16 CDNs, each its id, `=` and the absolute `http` URL where it takes
/// commands; no id is twice, that of this CDN included. `input` has the command, of at most 1,048,576 bytes.
///
/// The command is posted once to each CDN that it did not come through, in order, with the id of this CDN at the end of its
/// path. In each round the CDNs that took it are polled, in order, but for those whose last status is final. Then the joined
/// status is written to `output`: a line for each CDN, and one for all. One line on how the command ended, but for `Done`,
/// goes to `notes`; where that fails nothing else changes. It always returns.
///
/// The status is `Done` where the input was read to its end and the joined status was written; `Script` exactly where the
/// input is too long, is refused or is a cancel; `Usage` only where the words are not this command; `ReadFault` and
/// `WriteFault` exactly where the input's, the output's count of faults rose in this call, as far as a count that stands at
/// 2^64 - 1 can tell; and `Memory` for want of memory.
pub fn cascade_main<S: Source, K: Sink, E: Sink, L: Link>(
    alloc: Global,
    words: &[String],
    input: &mut S,
    output: &mut K,
    notes: &mut E,
    link: &mut L,
) -> Status
    // What was read, written, called and noted, by the words and the status.
    ensures usage { result ≡ Status.Usage → order_of words.now ≡ None }
    ensures refused { order_of words.now ≡ None → Refuses (record {
      left = S.left input.old;
      held = K.held output.old;
      link = record { calls = L.calls link.old; faults = L.faults link.old };
    }) (record {
      left = S.left input.new;
      held = K.held output.new;
      link = record { calls = L.calls link.new; faults = L.faults link.new };
    })
        (Notes (E.held notes.old) (E.held notes.new) (E.faults notes.old) (E.faults notes.new)) result }
    ensures served { (order : OrderParts) → order_of words.now ≡ Some order → Serves order (record {
      left = S.left input.old;
      held = K.held output.old;
      link = record { calls = L.calls link.old; faults = L.faults link.old };
    }) (record {
      left = S.left input.new;
      held = K.held output.new;
      link = record { calls = L.calls link.new; faults = L.faults link.new };
    })
        (Notes (E.held notes.old) (E.held notes.new) (E.faults notes.old) (E.faults notes.new)) result }
    ensures complete { (order : OrderParts) → order_of words.now ≡ Some order
        → (Rose (S.faults input.old) (S.faults input.new) → ⊥) → (Rose (K.faults output.old) (K.faults output.new) → ⊥)
        → IfSome (S.left input.old) (λ text. Answers (task_in order.own text) result) }

    // The rounds: each CDN outside the path is posted to once and no other, a CDN is open at the end only where it was
    // polled in each round, and what is posted is read as the same command again.
    ensures posted_once { (order : OrderParts) (path : List ProviderId) (spec : SpecParts) (made : List LinkCall)
        (last : List Cdn) → order_of words.now ≡ Some order → Runs order path spec made (Some last)
        → posts_of made ≡ posts_due path (passed_text order path spec) order.cdns }
    ensures polled_out { (order : OrderParts) (path : List ProviderId) (spec : SpecParts) (made : List LinkCall)
        (last : List Cdn) → order_of words.now ≡ Some order → Runs order path spec made (Some last)
        → ArePolledOut order.rounds made last }
    ensures read_again { (own other : ProviderId) (control elsewhere text : List ℕ) (command : Command)
        (spec : SpecParts) (path : List ProviderId) → command_of own control text ≡ Ok command
        → command.act ≡ act.Trigger spec → All (λ id. IsProvider id.0) path → (Contains path other → ⊥)
        → command_of other elsewhere (command_text path spec)
        ≡ Ok (record { path = path; act = act.Trigger spec }) }

    // The causes of the faults.
    ensures read { result ≡ Status.ReadFault → Rose (S.faults input.old) (S.faults input.new) }
    ensures read_well { result ≢ Status.ReadFault → S.faults input.new ≡ S.faults input.old }
    ensures read_later { S.faults input.old ≤ S.faults input.new }
    ensures write { result ≡ Status.WriteFault → Rose (K.faults output.old) (K.faults output.new) }
    ensures write_well { result ≢ Status.WriteFault → K.faults output.new ≡ K.faults output.old }
    ensures write_later { K.faults output.old ≤ K.faults output.new }
    ensures outside { result ≢ Status.Outside }
{
    each_other_cdn_is_posted_to_once();
    an_open_cdn_was_polled_in_each_round();
    what_a_status_resource_shows_reads_as_the_same_trigger();
    let end = cascade(alloc, words, input, output, link);
    write_note(notes, note_of(&end));
    status_of(&end)
}

// writes a note; a fault of the sink is passed over
fn write_note<E: Sink>(notes: &mut E, note: &[u8])
    ensures { Notes (E.held notes.old) (E.held notes.new) (E.faults notes.old) (E.faults notes.new) note.now }
{
    write_counted(notes, note);
}

// passes a trigger command on, where the words say so
fn cascade<S: Source, K: Sink, L: Link>(
    alloc: Global,
    words: &[String],
    input: &mut S,
    output: &mut K,
    link: &mut L,
) -> CascadeEnd
    ensures ends { CascadesBy (order_of words.now) (record {
      left = S.left input.old;
      held = K.held output.old;
      link = record { calls = L.calls link.old; faults = L.faults link.old };
    }) (record {
      left = S.left input.new;
      held = K.held output.new;
      link = record { calls = L.calls link.new; faults = L.faults link.new };
    }) result }
    ensures read { HasCauseOf CascadeEnd.ReadFault (S.faults input.old) (S.faults input.new) result }
    ensures write { HasCauseOf CascadeEnd.WriteFault (K.faults output.old) (K.faults output.new) result }
{
    match order_of(alloc, words) {
        Ok(Some(order)) => carry_out(alloc, order, input, output, link),
        Ok(None) => CascadeEnd::Usage,
        Err(_) => CascadeEnd::Memory,
    }
}

// carries out what the words say
fn carry_out<S: Source, K: Sink, L: Link>(
    alloc: Global,
    order: Order,
    input: &mut S,
    output: &mut K,
    link: &mut L,
) -> CascadeEnd
    requires { AreWaiting order.cdns }
    ensures ends { EndsAt order (record {
      left = S.left input.old;
      held = K.held output.old;
      link = record { calls = L.calls link.old; faults = L.faults link.old };
    }) (record {
      left = S.left input.new;
      held = K.held output.new;
      link = record { calls = L.calls link.new; faults = L.faults link.new };
    }) result }
    ensures read { HasCauseOf CascadeEnd.ReadFault (S.faults input.old) (S.faults input.new) result }
    ensures write { HasCauseOf CascadeEnd.WriteFault (K.faults output.old) (K.faults output.new) result }
{
    match read_task(alloc, &order.own, input) {
        TaskRead::Task(Task::PassOn { path, spec }) => {
            pass_and_report(alloc, order, path, &spec, output, link)
        }
        TaskRead::Task(Task::Stop { note }) => CascadeEnd::Stopped { note },
        TaskRead::ReadFault => CascadeEnd::ReadFault,
        TaskRead::Memory => CascadeEnd::Memory,
    }
}

// passes the trigger on, and writes the joined status
fn pass_and_report<K: Sink, L: Link>(
    alloc: Global,
    order: Order,
    path: ProviderIdList,
    spec: &Spec,
    output: &mut K,
    link: &mut L,
) -> CascadeEnd
    requires { AreWaiting order.cdns }
    ensures passes { (before after : Option (List ℕ)) → PassesOn order path spec.now (record {
      left = before;
      held = K.held output.old;
      link = record { calls = L.calls link.old; faults = L.faults link.old };
    }) (record {
      left = after;
      held = K.held output.new;
      link = record { calls = L.calls link.new; faults = L.faults link.new };
    }) result }
    ensures write { HasCauseOf CascadeEnd.WriteFault (K.faults output.old) (K.faults output.new) result }
{
    match joined(alloc, order, path, spec, link) {
        Ok(text) => {
            if write_counted(output, &text).fault {
                CascadeEnd::WriteFault
            } else {
                CascadeEnd::Done
            }
        }
        Err(_) => CascadeEnd::Memory,
    }
}

// passes the trigger on, and gives the joined status
fn joined<L: Link>(
    alloc: Global,
    order: Order,
    path: ProviderIdList,
    spec: &Spec,
    link: &mut L,
) -> Result<Vec<u8>, AllocError>
    requires { AreWaiting order.cdns }
    ensures joined { IfOk result (λ text. (cdns : List Cdn) × IsJoined order path spec.now
        (record { calls = L.calls link.old; faults = L.faults link.old })
        (record { calls = L.calls link.new; faults = L.faults link.new }) cdns
        × (text.items ≡ report cdns)) }
    ensures cut { OnErr result (IsCut order path spec.now
        (record { calls = L.calls link.old; faults = L.faults link.old })
        (record { calls = L.calls link.new; faults = L.faults link.new })) }
{
    let Order {
        own,
        rounds,
        mut cdns,
    } = order;
    skip_named(path.as_slice(), &mut cdns);
    let body = passed_text(alloc, own, path, spec)?;
    run(alloc, link, body.bytes(), rounds, &mut cdns)
}

// makes the rounds of this command, and gives the joined status
fn run<L: Link>(
    alloc: Global,
    link: &mut L,
    body: &[u8],
    rounds: u64,
    cdns: &mut [Cdn],
) -> Result<Vec<u8>, AllocError>
    ensures ran { IfOk result (λ text. (last : List Cdn) × Ran body.now rounds cdns.old
        (record { calls = L.calls link.old; faults = L.faults link.old })
        (record { calls = L.calls link.new; faults = L.faults link.new }) last × (text.items ≡ report last)) }
    ensures cut { OnErr result ((last : Option (List Cdn)) × (made : List LinkCall)
        × Grows (L.calls link.old) (L.calls link.new) made × Passes body.now (rounds + 1) cdns.old made last) }
{
    pass_on(alloc, link, body, rounds, cdns)?;
    report(alloc, cdns)
}

// the command that is posted: this CDN is added to the end of its path
fn passed_text(
    alloc: Global,
    own: ProviderId,
    mut path: ProviderIdList,
    spec: &Spec,
) -> Result<Text, AllocError>
    ensures { IfOk result (λ text. text ≡ command_text (path ++ own ∷ []) spec.now) }
{
    path.push(own)?;
    command_json(alloc, &path, spec)
}

// the note of an end
fn note_of(end: &CascadeEnd) -> &[u8]
    ensures { result.now ≡ note_of end.now }
{
    match end {
        CascadeEnd::Done => b"",
        CascadeEnd::Stopped { note } => note.bytes(),
        CascadeEnd::Usage => b"usage: cdnid replay | generate N SEED | audit | serve OPTIONS\n",
        CascadeEnd::ReadFault => b"read fault\n",
        CascadeEnd::WriteFault => b"write fault\n",
        CascadeEnd::Memory => b"want of memory\n",
    }
}

// the status of an end
fn status_of(end: &CascadeEnd) -> Status
    ensures { result ≡ status_of end.now }
{
    match end {
        CascadeEnd::Done => Status::Done,
        CascadeEnd::Stopped { note: _ } => Status::Script,
        CascadeEnd::Usage => Status::Usage,
        CascadeEnd::ReadFault => Status::ReadFault,
        CascadeEnd::WriteFault => Status::WriteFault,
        CascadeEnd::Memory => Status::Memory,
    }
}
