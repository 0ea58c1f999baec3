//! The source of a connection to an origin.

ghost use Rattle.std.specs.Prelude.{◌≡◌};

use crate::link::Link;
use crate::pace::Pace;
use crate::patience::Patience;
use crate::ready::{Moved, read_patiently};
use edge_base::{Source, Took};
use std::alloc::Global;
use std::sync::Arc;
use std::time::Clock;

/// Reads from a TCP connection to an origin, or to another server that is asked like one. It does not tell what is left. A
/// read past the pace fails, and so does one that is given up; a failed read counts a fault.
#[derive(Drop)]
pub struct OriginSource<C: Clock + Drop, P: Patience + Drop> {
    link: Arc<Link, Global>,
    clock: C,
    pace: Pace,
    patience: P,
    faults: u64,
}

impl<C: Clock + Drop, P: Patience + Drop> OriginSource<C, P> {
    // a source that gave nothing yet
    pub(crate) fn new(
        link: Arc<Link, Global>,
        clock: C,
        pace: Pace,
        patience: P,
    ) -> OriginSource<C, P>
        ensures faults { result.faults ≡ 0 }
        ensures link { result.link ≡ link }
    {
        OriginSource {
            link,
            clock,
            pace,
            patience,
            faults: 0,
        }
    }
}

impl<C: Clock + Drop, P: Patience + Drop> Source for OriginSource<C, P> {
    ghost use Rattle.std.specs.Prelude.{◌<◌, length, None};
    ghost use Rattle.edge_base.specs.Source.{IsCount, Reads, HasReadCause};

    ghost left = { λ _. None };

    ghost faults = { λ s. s.faults };

    fn read(&mut self, buf: &mut [u8]) -> Took {
        match read_patiently(
            &self.clock,
            &self.link.stream,
            buf,
            &mut self.pace,
            &self.patience,
        ) {
            Moved::Some(count) => Took::Some(count),
            Moved::End => Took::End,
            _ => {
                self.faults = self.faults.saturating_add(1);
                Took::Failed
            }
        }
    }
}
