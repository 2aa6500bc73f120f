ghost use Rattle.std.specs.Prelude.{◌≡◌, Bool, [], ◌∷◌, ◌++◌, ◌<◌, ◌≤◌, map, length, IfOk, IfSome, if◌then◌else◌, Ok, Err, nat_lt};
ghost use Rattle.std.specs.Option.{option_map};
ghost use Rattle.ei.specs.declared.error.EventError.TheVariants as refusals;
ghost use Rattle.records.specs.Rows.{Finds, at_key, by_handle, first, any, lacks_row, without, changed, changed_at};

use super::Table;
use crate::search::{search, search_handle};
use crate::standing::{Handled, Key, Record, Row};
use ei::error::EventError;
use std::alloc::{AllocError, Global};

impl<R: Copy, const N: usize> Table<R, N> {
    // The row at a place that was found.
    #[tactic(auto, using(crate::proofs::Rows::first_none, crate::proofs::Rows::first_read))]
    pub(crate) fn found(&self, place: Option<usize>) -> Option<&R>
        ensures { (p : R → Bool) → Finds p self.now 0 place → option_map (λ x. x.now) result ≡ first p self.now }
    {
        self.rows.get(place?)
    }

    // Frees the row at a place that was found.
    #[tactic(auto, using(crate::proofs::Rows::without_found, crate::proofs::Rows::without_none))]
    fn remove_found(&mut self, place: Option<usize>)
        requires { IfSome place (λ i. i < length self.old) }
        ensures { (p : R → Bool) → Finds p self.old 0 place → self.new ≡ without p self.old }
    {
        if let Some(i) = place {
            let _ = self.rows.remove(i);
        }
    }
}

impl<R: Row + Copy, const N: usize> Table<R, N> {
    // An empty table, with room for all its rows.
    pub fn new(heap: Global) -> Result<Table<R, N>, AllocError>
        ensures { IfOk result (λ t. t ≡ []) }
    {
        Ok(Table {
            rows: Vec::with_capacity(heap, N)?,
        })
    }

    pub fn rows(&self) -> &[R]
        ensures rows { result.now ≡ self.now }
        ensures few { length self.now ≤ N }
    {
        self.rows.as_slice()
    }

    pub fn has_room(&self) -> bool
        ensures { result ≡ nat_lt (length self.now) N }
    {
        self.rows.len() < N
    }

    // The place of the first row of a key.
    fn find(&self, key: Key) -> Option<usize>
        ensures place { Finds (at_key R.Row.numbered R.Row.stands key) self.now 0 result }
        ensures few { length self.now ≤ N }
    {
        search(self.rows.as_slice(), 0, key)
    }

    // The first row of a key.
    pub fn first(&self, key: Key) -> Option<&R>
        ensures { option_map (λ x. x.now) result ≡ first (at_key R.Row.numbered R.Row.stands key) self.now }
    {
        self.found(self.find(key))
    }

    // A new row at the end.
    pub fn push(&mut self, row: R) -> Result<(), EventError>
        ensures answer { result ≡ (if nat_lt (length self.old) N then Ok tt else Err refusals.TableFull) }
        ensures after { self.new ≡ (if nat_lt (length self.old) N then self.old ++ row ∷ [] else self.old) }
    {
        if !self.has_room() {
            return Err(EventError::TableFull);
        }
        self.rows.push_reserved(row);
        Ok(())
    }

    // A new row at the end, in place of the first of a key if there is one.
    #[tactic(auto, using(crate::proofs::Rows::room_without))]
    pub fn renew(&mut self, key: Key, row: R) -> Result<(), EventError>
        ensures answer { let p = at_key R.Row.numbered R.Row.stands key in result ≡ (if lacks_row p self.old N then Err refusals.TableFull else Ok tt) }
        ensures after { let p = at_key R.Row.numbered R.Row.stands key in self.new ≡ (if lacks_row p self.old N then self.old else without p self.old ++ row ∷ []) }
    {
        if self.lacks_room(key) {
            return Err(EventError::TableFull);
        }
        self.remove(key);
        self.push(row)
    }

    // Whether a new row in place of one of a key finds no room.
    fn lacks_room(&self, key: Key) -> bool
        ensures { result ≡ lacks_row (at_key R.Row.numbered R.Row.stands key) self.now N }
    {
        !self.has(key) && !self.has_room()
    }

    // Whether there is a row of a key.
    pub fn has(&self, key: Key) -> bool
        ensures { result ≡ any (at_key R.Row.numbered R.Row.stands key) self.now }
    {
        self.first(key).is_some()
    }

    // Frees the first row of a key.
    pub fn remove(&mut self, key: Key)
        ensures gone { self.new ≡ without (at_key R.Row.numbered R.Row.stands key) self.old }
        ensures few { length self.old ≤ N }
    {
        let place = self.find(key);
        self.remove_found(place);
    }
}

impl<R: Record + Copy, const N: usize> Table<R, N> {
    // The first row of a key takes a step.
    pub fn step(&mut self, key: Key, step: R::Step)
        ensures { self.new ≡ changed (at_key R.Row.numbered R.Row.stands key) (λ row. R.Record.stepped row step) self.old }
    {
        let place = self.find(key);
        let _ = self.step_found(place, step);
    }

    // The row at a place that was found takes a step; false where none was found, which is an answer and no refusal.
    pub(crate) fn step_found(&mut self, place: Option<usize>, step: R::Step) -> bool
        ensures answer { (p : R → Bool) → Finds p self.old 0 place → result ≡ any p self.old }
        ensures after { (p : R → Bool) → Finds p self.old 0 place → self.new ≡ changed p (λ row. R.Record.stepped row step) self.old }
    {
        let Some(i) = place else {
            return false;
        };
        self.step_at(i, step);
        true
    }

    // The row at a place takes a step.
    #[tactic(auto, using(crate::proofs::Rows::changed_at_read, crate::proofs::Rows::changed_at_past))]
    pub fn step_at(&mut self, i: usize, step: R::Step)
        ensures { self.new ≡ changed_at i (λ row. R.Record.stepped row step) self.old }
    {
        if let Some(row) = self.rows.get_mut(i) {
            row.step(step);
        }
    }

    // Every row takes a step.
    pub fn step_all(&mut self, step: R::Step)
        ensures { self.new ≡ map (λ row. R.Record.stepped row step) self.old }
    {
        for row in self.rows.iter_mut() {
            row.step(step);
        }
    }
}

impl<R: Handled + Copy, const N: usize> Table<R, N> {
    // The record of a handle.
    pub fn by_handle(&self, handle: u32) -> Option<&R>
        ensures { option_map (λ x. x.now) result ≡ first (by_handle R.Handled.handled R.Row.stands handle) self.now }
    {
        self.found(search_handle(self.rows.as_slice(), handle))
    }

    // Frees the record of a handle.
    pub fn remove_handle(&mut self, handle: u32)
        ensures { self.new ≡ without (by_handle R.Handled.handled R.Row.stands handle) self.old }
    {
        let place = search_handle(self.rows.as_slice(), handle);
        self.remove_found(place);
    }
}
