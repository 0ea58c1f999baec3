ghost use Rattle.std.specs.Prelude.{◌≡◌, ℕ, ◌<◌, List, [], ◌∷◌, ◌++◌, length, OnOk, OnErr, MatchOption, slice_get, Some};

use crate::pass::Pass;
use std::alloc::{AllocError, Global};
use std::marker::Model;

/// Passes, in order. It is seen as the list of them.
#[derive(Drop)]
pub struct PassList<E> {
    items: Vec<Pass<E>>,
}

impl<E> Model for PassList<E> {
    ghost use Rattle.std.specs.Prelude.{List};
    ghost use Rattle.turn_cell.specs.declared.pass.Pass.{Pass};

    ghost Value = { List (Pass E) };

    ghost view = { λ l. l.items.items };
}

impl<E> PassList<E> {
    /// The empty list. It takes no memory.
    pub fn new(alloc: Global) -> PassList<E>
        ensures { result ≡ [] }
    {
        PassList {
            items: Vec::new(alloc),
        }
    }

    /// How many passes there are.
    pub fn len(&self) -> usize
        ensures { result ≡ length self.now }
    {
        self.items.len()
    }

    /// Pass `i`, counted from 0.
    pub fn at(&self, i: usize) -> &Pass<E>
        requires { i < length self.now }
        ensures { slice_get self.now i ≡ Some result.now }
    {
        &self.items[i]
    }

    /// Adds a pass at the end.
    ///
    /// # Errors
    /// Want of memory. The list is then as before, and the pass is dropped.
    pub fn push(&mut self, pass: Pass<E>) -> Result<(), AllocError>
        ensures ok { OnOk result (self.new ≡ self.old ++ pass ∷ []) }
        ensures err { OnErr result (self.new ≡ self.old) }
    {
        match self.items.push(pass) {
            Ok(()) => Ok(()),
            Err(refused) => Err(AllocError::from(refused)),
        }
    }

    /// Takes the last pass out, if there is one.
    pub fn pop(&mut self) -> Option<Pass<E>>
        ensures { MatchOption result ((self.old ≡ []) × (self.new ≡ [])) (λ pass. self.old ≡ self.new ++ pass ∷ []) }
    {
        self.items.pop()
    }

    /// The passes as a `Vec`, as threads take them. It takes no memory.
    pub fn into_vec(self) -> Vec<Pass<E>>
        ensures { result.items ≡ self }
    {
        self.items
    }
}
