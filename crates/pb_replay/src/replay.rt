//! The replay of a proof.

ghost use Rattle.pb_opb.specs.declared.Instance.{Instance as AnInstance};
ghost use Rattle.std.specs.Prelude.{ℕ, ◌<◌, ◌≡◌, Ok, Err, None, Some, IfOk, IfErr, IfSome, ◌⊎◌, length, slice_get};
ghost use Rattle.std.specs.Option.{option_copied};
ghost use Rattle.pb_text.specs.meaning.Limits.{largest, top_of};
ghost use Rattle.pb_proof.specs.contract.Values.{IsStatementValue};
ghost use Rattle.pb_replay.specs.meaning.Problem.{FitsAll, Opened};
ghost use Rattle.pb_replay.specs.meaning.Replay.{State, first_state};
ghost use Rattle.pb_replay.specs.meaning.Meaning.{IsNamePrefix, IsProblem, IsSound, Means, MeansWritten};
ghost use Rattle.pb_replay.specs.contract.Loading.{NamesInOrder};
ghost use Rattle.pb_replay.specs.contract.ReplayModel.{StandsFor, StepsAs, verdict_in, constraint_in};
ghost use Rattle.pb_replay.specs.meaning.Statements.{MayWantAt};
ghost use Rattle.pb_replay.specs.contract.Visits.{StepVisits};
ghost use Rattle.pb_replay.specs.declared.fault.Fault.{Fault as AFault};

use crate::fault::Fault;
use crate::loading::Loading;
use crate::state::Running;
use crate::state::load::open;
use crate::step::apply;
use crate::verdict::Verdict;
use pb_normal::{HashKeys, Normal};
use pb_opb::Instance;
use pb_proof::{Stage, Statement};
use pb_text::Limits;
use std::alloc::Global;
use std::marker::Model;

/// A replay of a proof over an instance, statement by statement.
#[derive(Drop)]
pub struct Replay {
    running: Running,
    fault: Option<Fault>,
}

impl Model for Replay {
    ghost use Rattle.pb_replay.specs.contract.ReplayModel.{Replaying, IsKept, problem_of};

    ghost Value = { Replaying };

    ghost view = { λ r. record {
      limits = r.running.limits;
      problem = problem_of r.running;
      live = r.running.constraints.forms;
      names = r.running.names;
      best = r.running.best;
      next = r.running.next;
      concluded = r.running.concluded;
      fault = r.fault;
      visits = r.running.visits;
    } };

    ghost invariant = { λ r. IsKept r.running r.fault };
}

impl Replay {
    /// A replay before its first statement. It fails with `Overflow` if a constraint or the
    /// objective exceeds the limit, and with `Memory` if memory runs out. The names are hashed with
    /// fixed keys. For names from untrusted sources there is `with_hasher`.
    pub fn new(alloc: Global, instance: &Instance, limits: Limits) -> Result<Replay, Fault>
        ensures opened { IfOk result (λ r. Opened (largest limits) instance.now (Ok r.problem)) }
        ensures limits { IfOk result (λ r. r.limits ≡ limits) }
        ensures first { IfOk result (λ r. StandsFor r (first_state r.problem)) }
        ensures running { IfOk result (λ r. r.fault ≡ None) }
        ensures visits { IfOk result (λ r. r.visits ≡ 0) }
        ensures refused { IfErr result (λ e. (e ≡ Fault.Memory) ⊎
            Opened (largest limits) instance.now (Err e)) }
        // Overflow is decided before anything is allocated.
        ensures memory { result ≡ Err Fault.Memory → FitsAll (largest limits) instance.now }
    {
        Replay::with_hasher(alloc, HashKeys::Fixed, instance, limits)
    }

    /// The same, with the names hashed with these keys.
    pub fn with_hasher(
        alloc: Global,
        keys: HashKeys,
        instance: &Instance,
        limits: Limits,
    ) -> Result<Replay, Fault>
        ensures opened { IfOk result (λ r. Opened (largest limits) instance.now (Ok r.problem)) }
        ensures limits { IfOk result (λ r. r.limits ≡ limits) }
        ensures first { IfOk result (λ r. StandsFor r (first_state r.problem)) }
        ensures running { IfOk result (λ r. r.fault ≡ None) }
        ensures visits { IfOk result (λ r. r.visits ≡ 0) }
        ensures refused { IfErr result (λ e. (e ≡ Fault.Memory) ⊎
            Opened (largest limits) instance.now (Err e)) }
        // Overflow is decided before anything is allocated.
        ensures memory { result ≡ Err Fault.Memory → FitsAll (largest limits) instance.now }
    {
        let running = open(alloc, keys, instance, limits)?;
        Ok(Replay {
            running,
            fault: None,
        })
    }

    /// The same for the instance that the statements of a loading are: no constraint was stored as
    /// written. The objective, if there is one, comes before the constraints. `Memory` also comes
    /// if memory ran out while a statement was added.
    pub fn from_loading(loading: Loading) -> Result<Replay, Fault>
        requires order { (i : AnInstance) × NamesInOrder loading.1 i }
        ensures opened { IfOk result (λ r. (i : AnInstance) → NamesInOrder loading.1 i →
            Opened (largest loading.0) i (Ok r.problem)) }
        ensures limits { IfOk result (λ r. r.limits ≡ loading.0) }
        ensures first { IfOk result (λ r. StandsFor r (first_state r.problem)) }
        ensures running { IfOk result (λ r. r.fault ≡ None) }
        ensures visits { IfOk result (λ r. r.visits ≡ 0) }
        ensures refused { IfErr result (λ e. (e ≡ Fault.Memory) ⊎ ((i : AnInstance) →
            NamesInOrder loading.1 i → Opened (largest loading.0) i (Err e))) }
        ensures memory { result ≡ Err Fault.Memory → (i : AnInstance) → NamesInOrder loading.1 i →
            FitsAll (largest loading.0) i }
    {
        let running = loading.open()?;
        Ok(Replay {
            running,
            fault: None,
        })
    }

    /// Applies the next statement. After a fault each call returns that fault.
    pub fn step(&mut self, statement: &Statement) -> Result<(), Fault>
        requires { IsStatementValue (largest self.old.limits)
            (top_of self.old.limits) statement.now }
        ensures steps { self.old.fault ≡ None → StepsAs self.old statement.now result self.new }
        ensures again { (fault : AFault) → self.old.fault ≡ Some fault → (result ≡ Err fault) ×
            (self.new ≡ self.old) }
        ensures limits { self.new.limits ≡ self.old.limits }
        ensures problem { self.new.problem ≡ self.old.problem }
        ensures names { IsNamePrefix self.old.names self.new.names }
        // What can be tested without memory is reported first. It is the order, a number of
        // constraints that is wrong or too large, a constraint that is too large, and a missing
        // objective.
        ensures memory { self.old.fault ≡ None → result ≡ Err Fault.Memory →
            MayWantAt (largest self.old.limits)
            (top_of self.old.limits) self.old.problem self.old.next statement.now }
        ensures unvalued { (n : ℕ) → result ≡ Err (Fault.NotTotal n) → n < length self.old.names }
        ensures visits_made { self.old.fault ≡ None →
            StepVisits self.old.live self.old.names statement.now result self.old.visits
            self.new.visits }
    {
        if let Some(fault) = self.fault {
            return Err(fault);
        }
        match apply(&mut self.running, statement) {
            Ok(()) => Ok(()),
            Err(fault) => {
                self.fault = Some(fault);
                Err(fault)
            }
        }
    }

    /// A replay that is not spent represents a sound state of its problem. A call makes this known
    /// to the caller.
    pub fn report_sound(&self)
        ensures problem { self.now.fault ≡ None → IsProblem self.now.problem }
        ensures sound { self.now.fault ≡ None → (s : State) × StandsFor self.now s ×
            IsSound self.now.problem s }
    {
        let _fault = self.fault;
    }

    /// What the proof has shown, if it has ended.
    pub fn verdict(&self) -> Option<Verdict>
        ensures verdict { result ≡ verdict_in self.now }
        ensures means { IfSome result (λ w. Means self.now.problem w) }
        ensures written { IfSome result (λ w. (limit : ℕ) (i : AnInstance) →
            Opened limit i (Ok self.now.problem) → MeansWritten i w) }
    {
        if self.fault.is_some() {
            return None;
        }
        match self.running.next {
            Stage::Complete => self.running.concluded,
            _ => None,
        }
    }

    /// The live constraint with this id. After a fault the result has no meaning.
    pub fn constraint(&self, id: u64) -> Option<&Normal>
        ensures { option_copied result ≡ constraint_in self.now.live id }
    {
        if id == 0 || id > self.newest() {
            return None;
        }
        self.running.constraints.form((id - 1) as usize)
    }

    /// The newest id, or 0 if none was given. After a fault the result has no meaning.
    pub fn newest(&self) -> u64
        ensures { result ≡ length self.now.live }
    {
        self.running.constraints.len() as u64
    }

    /// The name with this number, also after a fault.
    pub fn name_of(&self, number: usize) -> Option<&str>
        ensures { option_copied result ≡ slice_get self.now.names number }
    {
        self.running.names.name_of(number)
    }

    /// The number of visits of the last `rup`. Visits to entries of occurrence lists, to terms, and
    /// to watches and literals of clauses are counted. A literal that was kept from earlier steps
    /// counts as one.
    pub fn visits(&self) -> u64
        ensures { result ≡ self.now.visits }
    {
        self.running.visits
    }

    /// The best value of the objective in a logged solution, if there is one.
    pub fn best(&self) -> Option<i128>
        ensures { result ≡ self.now.best }
    {
        self.running.best
    }

    /// The limits on numbers.
    pub fn limits(&self) -> Limits
        ensures { result ≡ self.now.limits }
    {
        self.running.limits
    }
}
