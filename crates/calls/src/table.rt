// The table of definitions.
ghost use Rattle.std.specs.Prelude.{◌≡◌, ℕ, ◌<◌, [], length, IfSome, IfOk, vec_len, nat_le, slice_index_or, slice_set};
ghost use Rattle.std.specs.Borrow.{sem, follows};
ghost use Rattle.std.specs.Vec.{with_item};
ghost use Rattle.run.specs.Performing.{find as found};
ghost use Rattle.run.specs.Runs.{is_absent, is_full};
ghost use Rattle.calls.specs.contracts.types.Definition.{the_row as definition_row};
ghost use Rattle.calls.specs.contracts.types.Table.{the_row};
ghost use Rattle.calls.specs.Tables.{letters_of, entry_of, entries_of, place_from, stored_in};

use crate::limits::MOST_ENTRIES;
use crate::types::{Definition, Table};
use std::alloc::{AllocError, Global};

impl Table {
    // A table with no entry, and memory for 32.
    pub fn new(heap: Global) -> Result<Table, AllocError>
        ensures { IfOk result (λ t. entries_of t ≡ []) }
    {
        Ok(Table {
            entries: Vec::with_capacity(heap, MOST_ENTRIES)?,
        })
    }

    // The place of a name's entry, if there is one.
    pub(crate) fn find(&self, label: &[u8]) -> Option<usize>
        ensures value { result ≡ place_from (entries_of self.now) 0 label.now }
        ensures within { IfSome result (λ i. i < vec_len self.now.entries) }
    {
        self.entries.iter().position(|entry| entry.is_named(label))
    }

    // Whether there is no room for the definition of a name.
    pub fn is_full(&self, label: &[u8]) -> bool
        ensures { result ≡ is_full (entries_of self.now) label.now }
    {
        self.entries.len() >= MOST_ENTRIES && self.find(label).is_none()
    }

    // Gives a name its definition, in the place of an older one; nothing changes where there is no room.
    pub fn store(&mut self, definition: &Definition)
        ensures { entries_of self.new ≡ stored_in (entries_of self.old) (entry_of definition.now) }
    {
        let place = self.find(definition.name.letters());
        self.put(place, definition);
    }

    // Puts a definition in the place of its name, or at the end if it has none.
    fn put(&mut self, place: Option<usize>, definition: &Definition)
        requires { IfSome place (λ i. i < vec_len self.old.entries) }
        ensures { place ≡ place_from (entries_of self.old) 0 (letters_of definition.now.name) → entries_of self.new ≡ stored_in (entries_of self.old) (entry_of definition.now) }
    {
        match place {
            Some(at) => self.replace(at, definition),
            None => {
                if self.entries.len() < MOST_ENTRIES {
                    self.entries.push_reserved(*definition);
                }
            }
        }
    }

    // One entry.
    pub(crate) fn entry(&self, at: usize) -> &Definition
        requires { at < vec_len self.now.entries }
        ensures { result.now ≡ slice_index_or self.now.entries.items at result.now }
    {
        &self.entries[at]
    }

    // Puts a definition in the place of an entry.
    fn replace(&mut self, at: usize, definition: &Definition)
        requires { at < vec_len self.old.entries }
        ensures { self.new.entries.items ≡ slice_set self.old.entries.items at definition.now }
    {
        *self.slot(at) = *definition;
    }

    // One entry, to be written; that it is lent is a form that the project fixes.
    fn slot(&mut self, at: usize) -> &mut Definition
        requires { at < vec_len self.old.entries }
        ensures* { sem 𝓛 (follows the_row definition_row self.entry.ghost_name result.ghost_name (λ w. record { entries = with_item self.old.entries at w; room = self.old.room; few = self.old.few })) }
    {
        &mut self.entries[at]
    }
}
