//! The run of a machine, what is written behind it, and what is kept.

ghost use Rattle.std.specs.Prelude.{◌<◌};
ghost use Rattle.iop_machine.specs.Laws.{IsMachine};
ghost use Rattle.iop_machine.specs.Standing.{StandsForWorld, IsSoundMachine};
ghost use Rattle.iop_machine.specs.World.{World};
ghost use Rattle.iop_machine.specs.declared.snapshots.TheConstants.{SAVABLE_MOMENTS};
ghost use Rattle.iop_front.specs.Keeping.{IsUncalled, written};
ghost use Rattle.iop_front.specs.Outcome.{Comes, TraceLeaves, ending_of, outcome_from};

use crate::dumping::write_dump;
use crate::keeping::keep_end;
use crate::status::Status;
use iop_base::{Line, Stop};
use iop_machine::Machine;
use iop_options::{DumpRange, Options};
use iop_ports::{Keep, Sink, send};
use iop_trace::line_text;

/// Writes what stands behind a run that ended so: the line of its end, and the dump, if one is
/// asked for. Answers whether it is whole.
fn write_ending<T: Sink>(
    machine: &Machine,
    stop: Stop,
    dump: Option<DumpRange>,
    trace: &mut T,
) -> bool
    requires { IsSoundMachine machine.now }
    ensures { (w : World) → StandsForWorld machine.now w
        → TraceLeaves result (T.told trace.old) (T.told trace.new) (ending_of dump w stop) }
{
    let end = line_text(machine.now(), &Line::End(stop));
    send(trace, &end) && write_dump(machine, dump, trace)
}

/// Runs the machine as options say, writes what stands behind the run, and keeps the snapshot of
/// its end, if one is asked for. Answers the run's status.
pub(crate) fn run_to_end<K: Keep, C: Sink, T: Sink>(
    machine: &mut Machine,
    options: &Options,
    keep: &mut K,
    console: &mut C,
    trace: &mut T,
) -> Status
    requires sound { IsSoundMachine machine.old }
    requires early { machine.old.iop.kernel.clock < SAVABLE_MOMENTS }
    ensures comes { (w : World) → StandsForWorld machine.old w → IsMachine w
        → Comes (outcome_from options.now w) result
        (written K.told C.told T.told keep.old console.old trace.old)
        (written K.told C.told T.told keep.new console.new trace.new) }
    ensures uncalled { IsUncalled options.now.save result keep.old keep.new }
{
    match machine.run(options.budget, console, trace) {
        Ok(stop) => {
            if write_ending(machine, stop, options.dump, trace)
                && keep_end(machine, options, keep)
            {
                Status::from(stop)
            } else {
                Status::SinkFault
            }
        }
        Err(_) => Status::SinkFault,
    }
}
