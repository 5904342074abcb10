//! `del id`.

ghost use Rattle.std.specs.Prelude.{◌≡◌, false, OnOk, IfErr, Ok, Err};
ghost use Rattle.pb_replay.specs.meaning.Replay.{Deleted};
ghost use Rattle.pb_replay.specs.contract.ReplayModel.{Goes, IsReady, Preserves};

use crate::fault::Fault;
use crate::state::Running;
use crate::state::constraints::Constraints;
use crate::state::find::{find, place_of};
use pb_normal::Normal;
use pb_proof::Statement;
use pb_text::Sequence;

/// Deletes the constraints with these ids in order, up to the first id that has none.
fn delete_each(constraints: &mut Constraints, ids: &[i64]) -> Result<(), Fault>
    requires { constraints.old.spent ≡ false }
    ensures ok { OnOk result (Deleted constraints.old.forms ids.now (Ok constraints.new.forms)) }
    ensures err { IfErr result (λ e. Deleted constraints.old.forms ids.now (Err e)) }
    ensures loaded { constraints.new.loaded ≡ constraints.old.loaded }
    ensures variables { constraints.new.variables ≡ constraints.old.variables }
    ensures ready { constraints.new.spent ≡ false }
    ensures memory { result ≡ Err Fault.Memory → ⊥ }
{
    for id in ids {
        match find(constraints, *id) {
            Some(_) => {}
            None => return Err(Fault::NoSuchId(*id)),
        }
        let at = place_of(constraints.len(), *id);
        constraints.remove(at);
    }
    Ok(())
}

/// `del id`: the constraints with these ids are no longer live.
pub(crate) fn delete(running: &mut Running, ids: &Sequence<i64>) -> Result<(), Fault>
    requires { IsReady running.old }
    ensures goes { Goes running.old (Statement.Delete ids.now) result running.new }
    ensures preserves { Preserves running.old result running.new }
    ensures memory { result ≡ Err Fault.Memory → ⊥ }
{
    delete_each(&mut running.constraints, ids.as_slice())
}
