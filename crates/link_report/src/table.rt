//! The text of a table, row by row.

ghost use Rattle.std.specs.Prelude.{◌≡◌, [], ℕ, List, IfOk, OnOk, map};
ghost use Rattle.link_report.specs.Tables as Tables;

use journal_core::Memory;
use std::alloc::Global;
use text_core::Rows;

/// The queue that a row is of.
#[derive(Clone, Copy, Debug, PartialEq, Eq)]
pub enum Queue {
    /// The scheduler (RFC 8290).
    FqCodel,
    /// A queue that drops what arrives while it is full.
    Fifo,
}

impl Queue {
    ghost use Rattle.link_report.specs.QueueNames.{queue_name};

    /// Its name.
    pub(crate) fn name(self) -> &'static [u8]
        ensures { result.now ≡ queue_name self }
    {
        match self {
            Queue::FqCodel => b"fq_codel",
            Queue::Fifo => b"fifo",
        }
    }
}

/// A table, as it is written.
#[derive(Drop)]
pub(crate) struct Table {
    alloc: Global,
    rows: Rows,
}

impl Table {
    /// No row yet.
    pub(crate) fn new(alloc: Global) -> Table
        ensures { Tables.HasTableText result [] }
    {
        Table {
            alloc,
            rows: Rows::new(alloc),
        }
    }

    /// Where its memory comes from.
    pub(crate) fn allocator(&self) -> Global {
        self.alloc
    }

    /// The text of all rows.
    pub(crate) fn into_text(self) -> Result<Vec<u8>, Memory>
        ensures { IfOk result (λ text. (written : List ℕ)
            → Tables.HasTableText self written → text.items ≡ written) }
    {
        let Table { alloc: _, rows } = self;
        rows.into_text()
    }

    /// One row. It fails for want of memory alone.
    pub(crate) fn row(&mut self, fields: &[&[u8]]) -> Result<(), Memory>
        requires { Tables.IsFilled (map (λ f. f.now) fields.now) }
        ensures { OnOk result (Tables.AddsToTable self.old self.new (Tables.line_of (map (λ f. f.now) fields.now))) }
    {
        self.rows.row(fields)
    }
}
