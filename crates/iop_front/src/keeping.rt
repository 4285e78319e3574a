//! The snapshot behind a run.

ghost use Rattle.std.specs.Prelude.{◌≡◌, false, None, Ok};
ghost use Rattle.iop_machine.specs.Restoring.{is_resumable};
ghost use Rattle.iop_base.specs.declared.stop.Stop.{Stop as Reason};
ghost use Rattle.iop_machine.specs.Running.{is_by_budget};
ghost use Rattle.iop_machine.specs.Standing.{StandsForWorld, IsSoundMachine};
ghost use Rattle.iop_machine.specs.World.{World};
ghost use Rattle.iop_front.specs.Keeping.{KeepsFile, Keeps};
ghost use Rattle.iop_front.specs.Outcome.{kept_of, snapshot_of};

use iop_machine::Machine;
use iop_options::Options;
use iop_ports::Keep;

/// Creates a file and writes the machine's snapshot to it. Answers whether it is whole.
fn keep_snapshot<K: Keep>(machine: &Machine, name: &str, keep: &mut K) -> bool
    requires { IsSoundMachine machine.now }
    ensures { (w : World) → StandsForWorld machine.now w
        → KeepsFile (record { name = name.now; bytes = snapshot_of w }) result
        (K.told keep.old) (K.told keep.new) }
{
    keep.create(name).is_ok() && machine.save(keep).is_ok()
}

/// Keeps the snapshot of the end of a run, if one is asked for and the run can be resumed. Answers
/// whether it is whole.
pub(crate) fn keep_end<K: Keep>(machine: &Machine, options: &Options, keep: &mut K) -> bool
    requires { IsSoundMachine machine.now }
    ensures kept { (w : World) (stop : Reason) → StandsForWorld machine.now w
        → machine.now.at_budget ≡ is_by_budget (Ok stop)
        → Keeps (kept_of options.now.save w stop) result (K.told keep.old) (K.told keep.new) }
    ensures unsaved { options.now.save ≡ None → keep.new ≡ keep.old }
    ensures ended { is_resumable machine.now ≡ false → keep.new ≡ keep.old }
{
    match &options.save {
        Some(name) if machine.resumable() => keep_snapshot(machine, name.as_str(), keep),
        _ => true,
    }
}
