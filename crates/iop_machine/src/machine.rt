ghost use Rattle.std.specs.Prelude.{◌≡◌, ℕ, suc, ◌+◌, ◌*◌, ◌≤◌, false, IfOk, OnErr, All, length, option_map};
ghost use Rattle.iop_trace.specs.Outs.{has_failed, output_of, sinks};
ghost use Rattle.iop_base.specs.Places.{IsRamSize};
ghost use Rattle.iop_ready.specs.KernelReady.{KernelStands};
ghost use Rattle.iop_thread.specs.Standing.{Lends};
ghost use Rattle.iop_ram.specs.Windows.{window_of};
ghost use Rattle.iop_machine.specs.Modules.{HasRoom, modules_from, none_loaded};
ghost use Rattle.iop_saved_script.specs.Sizes.{ScriptIsShort};
ghost use Rattle.iop_script.specs.declared.statements.TheConstants.{MOST_MODULES};
ghost use Rattle.iop_machine.specs.Advancing.{Progresses, IsLess, calls_by};
ghost use Rattle.iop_machine.specs.Events.{CanCome};
ghost use Rattle.iop_machine.specs.Laws.{IsMachine};
ghost use Rattle.iop_machine.specs.Running.{Finishes, Faults, HasTime, is_by_budget};
ghost use Rattle.iop_machine.specs.Standing.{StandsForWorld, IsSoundMachine};
ghost use Rattle.iop_machine.specs.Stepping.{steps, most_between};
ghost use Rattle.iop_machine.specs.World.{World, beginning};

use crate::events::Events;
use crate::iop::Iop;
use crate::modules_left::ModulesLeft;
use crate::progress::Progress;
use iop_base::{Stop, WriteFault};
use iop_ports::Sink;
use iop_ready::KernelReady;
use iop_saved_script::Module;
use iop_script::Script;
use iop_trace::Out;
use std::alloc::{AllocError, Global};

/// The machine: the processor with its memory and its kernel, and the modules that it will load.
///
/// It takes all its memory when it is made.
#[derive(Drop)]
pub struct Machine {
    /// Whether it is still to be booted.
    pub(crate) is_new: bool,
    /// Whether it was put back and has not run since, or its last run ended with its budget.
    pub(crate) at_budget: bool,
    pub(crate) iop: Iop,
}

impl Machine {
    /// Makes a machine with `size` bytes of RAM, 2 MiB or 8 MiB, that will load these modules, one
    /// after the other, each handed its word of the command line and the words that the script has
    /// for it. They are at most `MOST_MODULES` of iop_script, no file has more than `LONGEST_FILE`
    /// bytes, and the words of each have room in the argument block: at most `MOST_WORDS`, which
    /// take `MOST_WORD_BYTES` bytes. The script raises and lowers interrupt lines below 64, in the
    /// order of their ticks, which are below 2^63, and each of its lists has fewer than 2^32 items.
    pub fn new(
        alloc: Global,
        size: u32,
        modules: Vec<Module>,
        script: Script,
    ) -> Result<Self, AllocError>
        requires sized { IsRamSize size }
        requires few { length modules.items ≤ MOST_MODULES }
        requires room { All HasRoom (modules_from script.args script.named 1 modules.items) }
        requires events { CanCome script.events }
        requires short { ScriptIsShort script }
        ensures stands { IfOk result (λ machine.
            StandsForWorld machine
            (beginning size (none_loaded script modules.items) script.events)) }
        ensures sound { IfOk result IsSoundMachine }
        ensures at_budget { IfOk result (λ machine. machine.at_budget ≡ false) }
    {
        let left = ModulesLeft::new(1, modules, script.args, script.named);
        let events = Events::new(script.events);
        Ok(Machine {
            is_new: true,
            at_budget: false,
            iop: Iop::new(alloc, size, left, events)?,
        })
    }

    /// Lends the list of the ready threads, each by its slot and with its priority.
    pub fn ready(&self) -> &KernelReady
        ensures { (w : World) → StandsForWorld self.now w
            → Lends KernelStands result.now w.iop.kernel.threads }
    {
        self.iop.kernel.ready()
    }

    /// Answers the moment, in ticks of the clock: one for each instruction that was executed, and
    /// those that went by while nothing was.
    pub fn now(&self) -> u64
        ensures clock { result ≡ self.now.iop.kernel.clock }
        ensures moment { (w : World) → StandsForWorld self.now w → result ≡ w.iop.kernel.clock }
    {
        self.iop.kernel.now()
    }

    /// Lends the bytes of a range of memory. None exactly where it does not lie in RAM.
    pub fn window(&self, from: u32, len: u32) -> Option<&[u8]>
        ensures { (w : World) → StandsForWorld self.now w
            → option_map (λ bytes. bytes.now) result ≡ window_of w.iop.memory.ram from len }
    {
        self.iop.guest.ram().window(from, len)
    }

    /// Goes on: boots, or lets the core go on.
    fn advance<C: Sink, T: Sink>(&mut self, budget: u64, out: &mut Out<'_, C, T>) -> Progress
        requires sound { IsSoundMachine self.old }
        requires time { HasTime self.old.iop.kernel.clock budget }
        requires well { has_failed out.old ≡ false }
        ensures progresses { (w : World) → StandsForWorld self.old w → IsMachine w
            → Progresses StandsForWorld result w budget self.new
            (output_of C.told T.told out.old)
            (output_of C.told T.told out.new) }
        ensures less { IsLess result (has_failed out.new) self.new.iop.over self.new.is_new
            self.new.iop.kernel (most_between * budget
            + calls_by self.old.iop.over self.old.is_new self.old.iop.kernel) }
        ensures at_budget { self.new.at_budget ≡ self.old.at_budget }
    {
        if let Some(stop) = self.iop.over {
            return Progress::Stopped(stop);
        }
        if self.is_new {
            self.is_new = false;
            self.iop.boot(out);
            Progress::Advanced(budget)
        } else {
            self.iop.advance(budget, out)
        }
    }

    /// Runs until the machine is stopped, or the next step would execute one instruction too many:
    /// `budget` are allowed, and none of them must come behind moment 2^64 - 2, nor behind 2^63 - 1
    /// and `budget` more, since the clock goes on by itself to 2^63 - 1 at most. It gives the lines
    /// of the run to the trace and the texts to the console.
    ///
    /// The first run boots: it begins with the loading of the first module that loads. After
    /// `Quiet` or a fault another run gives the same at once. `WriteFault` comes exactly where a
    /// write fails; the machine then stands after the step in which it failed. Behind `Budget`
    /// alone it can be saved.
    pub fn run<C: Sink, T: Sink>(
        &mut self,
        budget: u64,
        console: &mut C,
        trace: &mut T,
    ) -> Result<Stop, WriteFault>
        requires sound { IsSoundMachine self.old }
        requires time { HasTime self.old.iop.kernel.clock budget }
        ensures sound { IsSoundMachine self.new }
        ensures at_budget { self.new.at_budget ≡ is_by_budget result }
        ensures whole { IfOk result (λ stop. (w : World) → StandsForWorld self.old w → IsMachine w
            → (k : ℕ) × StandsForWorld self.new (steps k w).state
            × Finishes w budget k stop
            (sinks C.told T.told console.old trace.old)
            (sinks C.told T.told console.new trace.new)) }
        ensures fault { OnErr result ((w : World) → StandsForWorld self.old w → IsMachine w
            → (k : ℕ) × StandsForWorld self.new (steps (suc k) w).state
            × Faults w budget k
            (sinks C.told T.told console.old trace.old)
            (sinks C.told T.told console.new trace.new)) }
    {
        self.at_budget = false;
        let mut out = Out::new(console, trace);
        let mut left = budget;
        'steps: loop {
            left = match self.advance(left, &mut out) {
                Progress::Stopped(stop) => {
                    self.at_budget = matches!(stop, Stop::Budget);
                    return Ok(stop);
                }
                Progress::Advanced(_) if out.failed() => return Err(WriteFault),
                Progress::Advanced(rest) => rest,
            };
        }
    }
}
