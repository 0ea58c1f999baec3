//! The limits of a node.

ghost use Rattle.std.specs.Prelude.{◌≡◌};
ghost use Rattle.cdni_base.specs.Limits.{default_limits};

use std::marker::Model;

/// What a node keeps at most, each within its range.
#[derive(Clone, Copy, Debug, PartialEq, Eq)]
pub struct Limits {
    /// Bytes of kept objects together, at most 1,073,741,824.
    pub cache: u64,
    /// Open deliveries and unfiled rows together, 1 to 100,000.
    pub rows: u64,
    /// Triggers that are not deleted, 1 to 10,000.
    pub triggers: u64,
    /// Kept log files, 1 to 64.
    pub files: u64,
    /// Milliseconds from the begin of an installed refresh until the next one is due, at most 86,400,000.
    pub period: u64,
    /// Answers that open something, over the node's life, 1 to 2^62.
    pub opened: u64,
}

impl Model for Limits {
    ghost use Rattle.cdni_base.specs.Limits.{Bounds, AreInRange};

    ghost Value = { Bounds };

    ghost view = { λ l. record {
      cache = l.cache;
      rows = l.rows;
      triggers = l.triggers;
      files = l.files;
      period = l.period;
      opened = l.opened;
    } };

    ghost invariant = { λ l. AreInRange (record {
      cache = l.cache;
      rows = l.rows;
      triggers = l.triggers;
      files = l.files;
      period = l.period;
      opened = l.opened;
    }) };

    ghost inverse = { λ b. record {
      cache = b.cache;
      rows = b.rows;
      triggers = b.triggers;
      files = b.files;
      period = b.period;
      opened = b.opened;
    } };
}

impl Limits {
    /// The limits where none are given.
    pub fn standard() -> Limits
        ensures { result ≡ default_limits }
    {
        Limits {
            cache: 268435456,
            rows: 20000,
            triggers: 1000,
            files: 16,
            period: 60000,
            opened: 4611686018427387904,
        }
    }
}
