//! What a trigger does, and to what.

ghost use Rattle.std.specs.Prelude.{◌≡◌, ◌↔◌, ◌≤◌, IfSome, IsSome};
ghost use Rattle.trigger_command.specs.declared.spec.TheConstants.{SELECTION_MAX};
ghost use Rattle.trigger_command.specs.Selection.{item_count};

use crate::selection::Selection;
use std::alloc::AllocError;
use std::marker::Model;

/// The most items of one selection, in its five lists together.
pub const SELECTION_MAX: usize = 1000;

/// What a trigger does (RFC 8007, section 5.2.2).
#[derive(Clone, Copy, Debug, PartialEq, Eq)]
pub enum TriggerKind {
    /// What is selected is fetched before it is asked for.
    Preposition,
    /// What is selected is checked again before it is used.
    Invalidate,
    /// What is selected is deleted.
    Purge,
}

/// A trigger specification (RFC 8007, section 5.2.1): its kind and a selection of at most 1,000 items, in its five
/// lists together. It is seen as the two.
#[derive(Drop)]
pub struct Spec {
    pub kind: TriggerKind,
    pub selection: Selection,
}

impl Model for Spec {
    ghost use Rattle.std.specs.Prelude.{◌≤◌};
    ghost use Rattle.trigger_command.specs.declared.spec.TheConstants.{SELECTION_MAX};
    ghost use Rattle.trigger_command.specs.Selection.{item_count};
    ghost use Rattle.trigger_command.specs.Spec.{SpecParts};

    ghost Value = { SpecParts };

    ghost view = { λ s. record { kind = s.kind; selection = s.selection } };

    ghost invariant = { λ s. item_count s.selection ≤ SELECTION_MAX };

    ghost inverse = { λ parts. record { kind = parts.kind; selection = parts.selection } };
}

impl Clone for Spec {
    ghost is_clone = { λ spec copy. copy ≡ spec };

    fn clone(&self) -> Result<Spec, AllocError> {
        Ok(Spec {
            kind: self.kind,
            selection: self.selection.clone()?,
        })
    }
}

impl Spec {
    /// The specification, or `None` exactly where the selection has more than 1,000 items.
    pub fn new(kind: TriggerKind, selection: Selection) -> Option<Spec>
        ensures parts { IfSome result (λ spec. spec ≡ record { kind = kind; selection = selection }) }
        ensures fits { IsSome result ↔ (item_count selection ≤ SELECTION_MAX) }
    {
        if selection.item_count() > SELECTION_MAX {
            return None;
        }
        Some(Spec { kind, selection })
    }
}
