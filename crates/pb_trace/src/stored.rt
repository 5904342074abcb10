//! The constraints of a replay, stored for the reasons of a rejection.

ghost use Rattle.std.specs.Prelude.{◌≡◌, ◌<◌, ◌+◌, ◌-◌, [], ◌∷◌, ◌++◌, Some, None, IfErr, OnOk, MatchOption, get_or, if◌then◌else◌, length, set, slice_get, take};
ghost use Rattle.std.specs.Option.{option_copied};
ghost use Rattle.pb_replay.specs.meaning.Replay.{place};
ghost use Rattle.pb_trace.specs.Live.{stored_in};
ghost use Rattle.pb_trace.specs.Traced.{extended, without, without_all};

use crate::broken::Broken;
use pb_normal::Normal;
use pb_replay::Replay;
use std::alloc::Global;

/// A constraint, and whether it is live. Lines are those of the proof.
#[derive(Drop)]
pub(crate) struct Stored {
    pub(crate) form: Normal,
    pub(crate) is_live: bool,
    /// The line of the statement that added it.
    pub(crate) added: u64,
    /// The line of the statement that deleted it, or 0.
    pub(crate) deleted: u64,
}

/// Copies of all constraints by their ids, and how many constraints and names the instance has.
#[derive(Drop)]
pub(crate) struct Constraints {
    forms: Vec<Stored>,
    loaded: usize,
    own: usize,
}

impl Constraints {
    /// No constraints.
    pub(crate) fn new(alloc: Global) -> Constraints
        ensures { result.forms.items ≡ [] }
    {
        Constraints {
            forms: Vec::new(alloc),
            loaded: 0,
            own: 0,
        }
    }

    /// Stores the constraints that a replay has gained by the statement in a line.
    pub(crate) fn extend(&mut self, replay: &Replay, line: u64) -> Result<(), Broken>
        ensures ok { OnOk result
            (stored_in self.new ≡ extended (stored_in self.old) replay.now.live) }
        ensures memory { IfErr result (λ e. e ≡ Broken.Memory) }
    {
        for index in self.newest()..replay.newest() {
            self.store(replay.constraint(index + 1), line)?;
        }
        Ok(())
    }

    /// Stores a copy of a constraint. Without one, it stores one that always holds, as a deleted
    /// one.
    fn store(&mut self, form: Option<&Normal>, line: u64) -> Result<(), Broken>
        ensures ok { OnOk result
            (stored_in self.new ≡ stored_in self.old ++ option_copied form.entry ∷ []) }
        ensures memory { IfErr result (λ e. e ≡ Broken.Memory) }
    {
        match form {
            Some(form) => self.push(form.copy()?, true, line),
            None => {
                let alloc = *self.forms.allocator();
                self.push(Normal::from_literals(alloc, &[], 0)?, false, line)
            }
        }
    }

    fn push(&mut self, form: Normal, is_live: bool, added: u64) -> Result<(), Broken>
        ensures ok { OnOk result
            (stored_in self.new ≡ stored_in self.old ++ (if is_live then Some
            form else None) ∷ []) }
        ensures memory { IfErr result (λ e. e ≡ Broken.Memory) }
    {
        self.forms.push(Stored {
            form,
            is_live,
            added,
            deleted: 0,
        })?;
        Ok(())
    }

    /// The constraints so far are those of the instance, and it has this many names.
    pub(crate) fn end_instance(&mut self, own: usize)
        ensures forms { self.new.forms ≡ self.old.forms }
        ensures loaded { self.new.loaded ≡ length self.old.forms.items }
    {
        self.loaded = self.forms.len();
        self.own = own;
    }

    /// How many names the instance has.
    pub(crate) fn own(&self) -> usize {
        self.own
    }

    /// The newest id, or 0.
    pub(crate) fn newest(&self) -> u64
        ensures { result ≡ length self.now.forms.items }
    {
        self.forms.len() as u64
    }

    /// The constraint with an id, live or deleted.
    pub(crate) fn find(&self, id: u64) -> Option<&Stored>
        ensures none { id ≡ 0 → result ≡ None }
        ensures found { 0 < id → option_copied result ≡ slice_get self.now.forms.items (id - 1) }
    {
        if id == 0 {
            return None;
        }
        self.forms.get(id.saturating_sub(1) as usize)
    }

    /// The live constraint with an id as it is written. A negative id counts back from the newest.
    pub(crate) fn find_written(&self, id: i64) -> Option<(u64, &Normal)>
        ensures { let index = place (length self.now.forms.items) id in let form = get_or
            (stored_in self.now) index None in
            MatchOption result (form ≡ None) (λ r. (r.0 ≡ index + 1) × (form ≡ Some r.1.now)) }
    {
        let index = self.index_of(id);
        let stored = self.forms.get(index as usize)?;
        if stored.is_live {
            Some((index + 1, &stored.form))
        } else {
            None
        }
    }

    /// The id of the constraint, live or deleted, that an id as it is written means, or 0 if there
    /// is none.
    pub(crate) fn number_of(&self, id: i64) -> u64 {
        let index = self.index_of(id);
        if index < self.newest() { index + 1 } else { 0 }
    }

    /// Whether the constraint at an index is live.
    pub(crate) fn is_live_at(&self, index: usize) -> bool {
        match self.forms.get(index) {
            Some(stored) => stored.is_live,
            None => false,
        }
    }

    /// The index of the constraint with an id as it is written, or the number of constraints if
    /// there is none.
    fn index_of(&self, id: i64) -> u64
        ensures { result ≡ place (length self.now.forms.items) id }
    {
        let newest = self.newest();
        let count = id.unsigned_abs();
        if id == 0 {
            return newest;
        }
        if id > 0 {
            return count - 1;
        }
        if count <= newest {
            newest - count
        } else {
            newest
        }
    }

    /// Deletes a constraint in a line, and it then stays as a deleted one.
    #[tactic(auto, using(crate::proofs::Storing::stored))]
    pub(crate) fn delete(&mut self, id: u64, line: u64)
        ensures { 0 < id → stored_in self.new ≡ set (stored_in self.old) (id - 1) None }
    {
        if id == 0 {
            return;
        }
        if let Some(stored) = self.forms.get_mut((id - 1) as usize) {
            stored.is_live = false;
            stored.deleted = line;
        }
    }

    /// Deletes constraints by their ids as they are written, in a line.
    #[tactic(auto, using(crate::proofs::Storing::stored))]
    pub(crate) fn delete_all(&mut self, ids: &[i64], line: u64)
        ensures { stored_in self.new ≡ without_all (stored_in self.old) ids.now }
    {
        for id in ids {
            self.delete_written(*id, line);
        }
    }

    /// Deletes a constraint by its id as it is written, in a line. If there is no such constraint,
    /// it does nothing.
    #[tactic(auto, using(crate::proofs::Storing::stored))]
    fn delete_written(&mut self, id: i64, line: u64)
        ensures { stored_in self.new ≡ without (stored_in self.old) id }
    {
        let index = self.index_of(id);
        if let Some(stored) = self.forms.get_mut(index as usize) {
            stored.is_live = false;
            stored.deleted = line;
        }
    }

    /// All constraints, live or deleted.
    pub(crate) fn all(&self) -> &[Stored]
        ensures { result.now ≡ self.now.forms.items }
    {
        self.forms.as_slice()
    }

    /// The constraints of the instance.
    pub(crate) fn loaded(&self) -> &[Stored]
        ensures { result.now ≡ take self.now.loaded self.now.forms.items }
    {
        &self.forms[..self.loaded.min(self.forms.len())]
    }
}
