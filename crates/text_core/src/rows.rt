//! Rows of fields as text, with a comma between each two.

ghost use Rattle.std.specs.Prelude.{◌≡◌, [], ℕ, List, IfOk, OnOk, map};
ghost use Rattle.text_core.specs.Texts.{Adds, HasText, IsFilled, line_of};

use csv::{QuoteStyle, Writer, WriterBuilder};
use std::alloc::{AllocError, Global};

/// Rows, as they are written.
#[derive(Drop)]
pub struct Rows {
    writer: Writer<Vec<u8>>,
}

impl Rows {
    /// No row yet.
    // Kept out of its callers: the builder's copies of the writer, of some 3 KiB each, would stay in their frames.
    #[inline(never)]
    pub fn new(alloc: Global) -> Rows
        ensures { HasText result [] }
    {
        Rows {
            // Rows may have different numbers of fields. These are words, numbers and addresses, which need no quotes.
            writer: WriterBuilder::new()
                .flexible(true)
                .quote_style(QuoteStyle::Never)
                .from_writer(Vec::new(alloc)),
        }
    }

    /// The text of all rows.
    // Kept out of its callers for the copies of the writer, too.
    #[inline(never)]
    pub fn into_text(self) -> Result<Vec<u8>, AllocError>
        ensures { IfOk result (λ text. (written : List ℕ) → HasText self written → text.items ≡ written) }
    {
        let Rows { writer } = self;
        writer.into_inner().map_err(|_| AllocError)
    }

    /// One row, whose first field isn't empty. A write to a `Vec` fails for want of memory alone.
    pub fn row(&mut self, fields: &[&[u8]]) -> Result<(), AllocError>
        requires { IsFilled (map (λ f. f.now) fields.now) }
        ensures { OnOk result (Adds self.old self.new (line_of (map (λ f. f.now) fields.now))) }
    {
        match self.writer.write_fields(fields) {
            Ok(()) => Ok(()),
            Err(_) => Err(AllocError),
        }
    }
}
