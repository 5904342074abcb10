//! The terms of a form, one after another.

ghost use Rattle.std.specs.Prelude.{◌≡◌};
ghost use Rattle.std.specs.Iterator.{YieldsFirst, item_count};

use crate::entry::Entry;
use crate::terms::Terms;
use crate::terms::reading::Reading;
use std::marker::Model;

/// The terms of a form by value, seen as the list of those that are left.
#[derive(Drop)]
pub struct Entries<'a> {
    terms: Reading<'a>,
    next: usize,
}

impl<'a> Model for Entries<'a> {
    ghost use Rattle.std.specs.Prelude.{List, ◌≤◌, drop, length};
    ghost use Rattle.pb_normal.specs.declared.entry.Entry.{Entry};
    ghost use Rattle.pb_normal.specs.engine.Reading.{read_entries};

    ghost Value = { List Entry };

    ghost view = { λ e. drop e.next (read_entries e.terms) };

    ghost invariant = { λ e. e.next ≤ length (read_entries e.terms) };
}

impl<'a> Entries<'a> {
    /// All terms.
    #[inline]
    pub(crate) fn of(terms: &'a Terms) -> Entries<'a>
        ensures all { result ≡ terms.now }
    {
        Entries {
            terms: terms.reading(),
            next: 0,
        }
    }
}

impl<'a> Iterator for Entries<'a> {
    type Item = Entry;

    ghost next_gives = { YieldsFirst (λ rest. rest) };

    ghost remaining = { item_count (λ rest. rest) };

    #[inline]
    fn next(&mut self) -> Option<Entry> {
        let index = self.next;
        if index == self.terms.len() {
            return None;
        }
        let entry = self.terms.get(index);
        self.next = index + 1;
        Some(entry)
    }
}
