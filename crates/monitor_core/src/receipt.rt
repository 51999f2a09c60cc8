//! The receipt of a publish.

ghost use Rattle.std.specs.Prelude.{◌≡◌, length};

use crate::book::BookName;
use crate::shown::Shown;
use std::marker::Model;

/// What a publish gives: it stands for the journal when that publish ended. A monitor that learns it shows no less from
/// then on. Contracts see those events.
#[derive(Drop)]
pub struct Receipt<J: BookName> {
    shown: Shown<J>,
}

impl<J: BookName> Model for Receipt<J> {
    ghost use Rattle.std.specs.Prelude.{List};
    ghost use Rattle.journal_core.specs.declared.event.Event.{Event};

    ghost Value = { List Event };

    ghost view = { λ r. r.shown };
}

impl<J: BookName> Receipt<J> {
    /// The receipt of what is shown.
    pub(crate) fn new(shown: Shown<J>) -> Receipt<J>
        ensures { result ≡ shown }
    {
        Receipt { shown }
    }

    /// What was shown.
    pub(crate) fn shown(&self) -> &Shown<J>
        ensures { result.now ≡ self.now }
    {
        &self.shown
    }

    /// How many events it stands for.
    pub fn events(&self) -> u64
        ensures { result ≡ length self.now }
    {
        self.shown.events()
    }
}
