//! Reads an instance into flat arrays.

ghost use Rattle.std.specs.Prelude.{◌≡◌, ◌<◌, ◌∷◌, ◌++◌, [], List, false, IfErr, IfOk, OnOk};
ghost use Rattle.pb_text.specs.declared.Spanned.{Spanned as ASpanned};
ghost use Rattle.pb_opb.specs.declared.OpbEvent.{OpbEvent as AnEvent};
ghost use Rattle.pb_text.specs.contract.Automaton.{AcceptsItems};
ghost use Rattle.pb_opb.specs.meaning.Instances.{IsInstance};
ghost use Rattle.pb_opb.specs.engine.State.{opb};
ghost use Rattle.pb_text.specs.meaning.Limits.{largest, top_of};
ghost use Rattle.pb_pieces.specs.Instance.{IsFlatOf};
ghost use Rattle.pb_pieces.specs.Reading.{IsFlatBy, IsNotFlat};

use crate::instance::Flat;
use pb_normal::HashKeys;
use pb_opb::{OpbEvent, OpbMachine};
use pb_text::{Feeder, Limits, Source, Spanned, Stop, Why, pull, rest_is_blank};
use std::alloc::Global;

/// Reads an instance into flat arrays. Only white space and comments may follow it.
pub fn read_flat<S: Source>(
    alloc: Global,
    keys: HashKeys,
    input: &mut S,
    longest: u64,
    limits: Limits,
) -> Result<Flat, Stop>
    requires { 0 < longest }
    ensures read { IfOk result (IsFlatBy (IsInstance (largest limits) (top_of limits)) longest
        (S.left input.old) (S.left input.new)) }
    ensures refused { IfErr result (IsNotFlat (IsInstance (largest limits) (top_of limits)) longest
        (S.left input.old) (S.left input.new)) }
{
    let machine = OpbMachine::new(alloc, limits);
    read_events(machine, Flat::new(alloc, keys), input, longest)
}

/// The same with a machine, for what it accepts.
fn read_events<S: Source>(
    machine: OpbMachine,
    empty: Flat,
    input: &mut S,
    longest: u64,
) -> Result<Flat, Stop>
    requires between { opb.begun machine ≡ false }
    requires some { 0 < longest }
    requires nothing { IsFlatOf [] empty }
    ensures read { IfOk result (IsFlatBy (AcceptsItems opb machine) longest (S.left input.old)
        (S.left input.new)) }
    ensures refused { IfErr result (IsNotFlat (AcceptsItems opb machine) longest (S.left input.old)
        (S.left input.new)) }
{
    let mut flat = empty;
    let mut feeder = Feeder::within(machine, longest);
    loop {
        match pull(input, &mut feeder) {
            Ok(Some(read)) => {
                let _reached = feeder.place();
                match add_read(&mut flat, read) {
                    Ok(()) => {}
                    Err(stop) => return Err(stop),
                }
            }
            Ok(None) => break,
            Err(stop) => return Err(stop),
        }
    }
    match rest_is_blank(input, feeder.place()) {
        Ok(()) => Ok(flat),
        Err(stop) => Err(stop),
    }
}

/// Adds a statement that was read, and drops it.
fn add_read(flat: &mut Flat, read: Spanned<OpbEvent>) -> Result<(), Stop>
    ensures added { (spans : List (ASpanned AnEvent)) → IsFlatOf spans flat.old →
        OnOk result (IsFlatOf (spans ++ read ∷ []) flat.new) }
    ensures memory { IfErr result (λ s. s.why ≡ Why.Memory) }
{
    let first = read.first;
    match flat.add(&read) {
        Ok(()) => Ok(()),
        Err(_) => Err(Stop {
            place: first,
            why: Why::Memory,
        }),
    }
}
