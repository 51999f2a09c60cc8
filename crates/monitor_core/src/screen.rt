//! What shows values to readers.

ghost use Rattle.std.specs.Prelude.{◌≡◌, ◌<◌, IfOk, MatchBool, None, Some, option_map};

use crate::book::BookName;
use crate::shown::Shown;
use left_right::{Absorb, ReadHandle, WriteHandle};
use std::alloc::{AllocError, Global};
use std::marker::Model;
use std::sync::Wait;

/// What a screen shows. There is one for each screen, from its start on, and nothing but its screen changes it. So what
/// has a screen can't say of it what readers don't take. Contracts see the value.
#[derive(Drop)]
pub struct OnScreen<T: Drop> {
    value: T,
}

impl<T: Drop> Model for OnScreen<T> {
    ghost Value = { T };

    ghost view = { λ s. s.value };
}

impl<T: Drop> OnScreen<T> {
    ghost use Rattle.std.specs.Prelude.{◌≡◌};

    /// The value that is shown.
    pub(crate) fn value(&self) -> &T
        ensures { result.now ≡ self.now }
    {
        &self.value
    }
}

/// What shows a value to readers until the next one. Only `show` waits, for readers that are just reading: so what owns
/// a screen waits nowhere else, and its type needs no `Wait`.
pub trait Screen<T: Drop> {
    /// Shows a value from here on, and says whether it does. Where it doesn't, what was shown still is.
    fn show(&mut self, shown: &mut OnScreen<T>, next: T) -> bool
        ensures shown { MatchBool result (shown.new ≡ next) (shown.new ≡ shown.old) };
}

/// Why a reader isn't given: `left_right` has no place for it. Only a screen that was asked for a reader makes one.
#[derive(Clone, Copy, Debug, PartialEq, Eq)]
pub struct NoReader {
    by_left_right: (),
}

/// Shows values by two copies: readers read one with no lock while the other is written. Where nobody reads it has no
/// copy. Contracts see what readers take.
#[derive(Drop)]
pub struct LeftRight<T: Absorb<T> + Drop, R: Wait + Drop> {
    writer: Option<WriteHandle<T, T, R>>,
}

impl<T: Absorb<T> + Drop, R: Wait + Drop> Model for LeftRight<T, R> {
    ghost use Rattle.std.specs.Prelude.{◌≡◌, [], IfSome, Option, option_map};
    ghost use Rattle.left_right.specs.Handles.{pending, published};

    ghost Value = { Option T };

    ghost view = { λ s. option_map published s.writer };

    // Readers see each value that it took in.
    ghost invariant = { λ s. IfSome s.writer (λ w. pending w ≡ []) };
}

impl<J: BookName, R: Wait + Drop> Screen<Shown<J>> for LeftRight<Shown<J>, R> {
    fn show(&mut self, shown: &mut OnScreen<Shown<J>>, next: Shown<J>) -> bool
        ensures shown { MatchBool result (shown.new ≡ next) (shown.new ≡ shown.old) }
        ensures readers { MatchBool result (self.new ≡ option_map (λ _. next) self.old) (self.new ≡ self.old) }
    {
        if let Some(writer) = &mut self.writer {
            if !(writer.append(next.again()).is_ok() && writer.publish().is_ok()) {
                return false;
            }
        }
        shown.value = next;
        true
    }
}

impl<J: BookName, R: Wait + Drop> LeftRight<Shown<J>, R> {
    /// One that nobody reads, and what it shows.
    pub(crate) fn unread(first: Shown<J>) -> (LeftRight<Shown<J>, R>, OnScreen<Shown<J>>)
        ensures { (result.0 ≡ None) × (result.1 ≡ first) }
    {
        (LeftRight { writer: None }, OnScreen { value: first })
    }

    /// One for so many readers, and what it shows at first.
    pub(crate) fn new(
        alloc: Global,
        rt: R,
        first: Shown<J>,
        readers: u32,
    ) -> Result<(LeftRight<Shown<J>, R>, OnScreen<Shown<J>>), AllocError>
        requires { 0 < readers }
        ensures { IfOk result (λ r. (r.0 ≡ Some first) × (r.1 ≡ first)) }
    {
        let writer = WriteHandle::new(alloc, rt, first.again(), first.again(), readers as usize)?;
        let screen = LeftRight {
            writer: Some(writer),
        };
        Ok((screen, OnScreen { value: first }))
    }

    /// A reader of it, where there is a place.
    pub(crate) fn reader(&self) -> Result<ReadHandle<Shown<J>>, NoReader> {
        let no_reader = NoReader { by_left_right: () };
        let Some(writer) = &self.writer else {
            return Err(no_reader);
        };
        writer.handle().map_err(|_| no_reader)
    }
}
