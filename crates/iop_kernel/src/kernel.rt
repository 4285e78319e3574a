ghost use Rattle.std.specs.Prelude.{◌≡◌, ◌≤◌, ◌<◌, [], IfOk};
ghost use Rattle.iop_intr.specs.declared.irqs.TheConstants.{IRQ_LINES};
ghost use Rattle.iop_thread.specs.Operations.{begins, ends_running};
ghost use Rattle.iop_thread.specs.Standing.{Lends};
ghost use Rattle.iop_time.specs.Turns.{next_moment};
ghost use Rattle.iop_kernel.specs.System.{Kernel as State, beginning, is_active};
ghost use Rattle.iop_kernel.specs.Deliveries.{raises, lowers};
ghost use Rattle.iop_kernel.specs.Dispatching.{dispatches};
ghost use Rattle.iop_kernel.specs.Standing.{Stands, IsSound, Dispatches, core};

use crate::active_handler::ActiveHandler;
use iop_base::{Line, Lines};
use iop_event::EventFlags;
use iop_exec::Cpu;
use iop_intr::Irqs;
use iop_mbx::Mailboxes;
use iop_pools::{FixedPools, VariablePools};
use iop_ready::Ready;
use iop_sema::Semaphores;
use iop_thread::Threads;
use iop_time::Clock;
use std::alloc::{AllocError, Global};

/// The kernel. What holds of it at all times is said by the clauses of its calls, and not by its
/// type: whoever puts a kernel together says of its parts what they ask for.
#[derive(Drop)]
pub struct Kernel<R> {
    /// The moment, in ticks.
    pub clock: u64,
    /// Whether interrupts are on.
    pub interrupts: bool,
    /// Whether dispatch is enabled.
    pub dispatching: bool,
    /// The handler that runs, if one does.
    pub handler: Option<ActiveHandler>,
    /// The threads.
    pub threads: Threads<R>,
    /// The semaphores.
    pub semaphores: Semaphores,
    /// The event flags.
    pub event_flags: EventFlags,
    /// The mailboxes.
    pub mailboxes: Mailboxes,
    /// The variable pools.
    pub variable_pools: VariablePools,
    /// The fixed pools.
    pub fixed_pools: FixedPools,
    /// The alarms and delays.
    pub timers: Clock,
    /// The interrupt lines.
    pub irqs: Irqs,
}

impl<R: Ready> Kernel<R> {
    /// Makes a kernel at moment 0 with the loader's thread alone, which is dormant, beside a list
    /// of ready threads in which none is, and with no object and no alarm. Interrupts are on,
    /// dispatch is enabled, and all interrupt lines are lowered, disabled and without a handler. It
    /// takes all the memory that it will need; `AllocError` where the host has less.
    pub fn new(alloc: Global, ready: R) -> Result<Self, AllocError>
    where
        R: Drop,
        requires none { R.stands ready [] }
        ensures { IfOk result (λ kernel. Stands R.stands kernel beginning) }
    {
        Ok(Kernel {
            clock: 0,
            interrupts: true,
            dispatching: true,
            handler: None,
            threads: Threads::new(alloc, ready)?,
            semaphores: Semaphores::new(alloc)?,
            event_flags: EventFlags::new(alloc)?,
            mailboxes: Mailboxes::new(alloc)?,
            variable_pools: VariablePools::new(alloc)?,
            fixed_pools: FixedPools::new(alloc)?,
            timers: Clock::new(alloc)?,
            irqs: Irqs::new(),
        })
    }

    /// Tells the moment, in ticks.
    pub fn now(&self) -> u64
        ensures clock { result ≡ self.now.clock }
        ensures moment { (k : State) → Stands R.stands self.now k → result ≡ k.clock }
    {
        self.clock
    }

    /// Goes on to a moment, not before that of now.
    pub fn advance(&mut self, moment: u64)
        requires later { self.old.clock ≤ moment }
        ensures { (k : State) → Stands R.stands self.old k
            → Stands R.stands self.new (record k { clock = moment }) }
    {
        self.clock = moment;
    }

    /// Tells the least moment at which an alarm or a delay comes, in ticks. None exactly where none
    /// comes.
    pub fn next_moment(&self) -> Option<u64>
        ensures { (k : State) → Stands R.stands self.now k → result ≡ next_moment k.timers }
    {
        self.timers.next_moment()
    }

    /// Raises an interrupt line below `IRQ_LINES`. Nothing changes where it is raised.
    pub fn raise(&mut self, line: u8)
        requires { line < IRQ_LINES }
        ensures { (k : State) → Stands R.stands self.old k
            → Stands R.stands self.new (raises k line) }
    {
        self.irqs.raise(line);
    }

    /// Lowers an interrupt line below `IRQ_LINES`, which stays enabled or not. Nothing changes
    /// where it is lowered.
    pub fn lower(&mut self, line: u8)
        requires { line < IRQ_LINES }
        ensures { (k : State) → Stands R.stands self.old k
            → Stands R.stands self.new (lowers k line) }
    {
        self.irqs.lower(line);
    }

    /// Lends the interrupt lines.
    pub fn irqs(&self) -> &Irqs
        ensures { (k : State) → Stands R.stands self.now k → result.now ≡ k.irqs }
    {
        &self.irqs
    }

    /// Lends the list of the ready threads, each by its slot and with its priority.
    pub fn ready(&self) -> &R
        ensures { (k : State) → Stands R.stands self.now k
            → Lends R.stands result.now k.threads }
    {
        self.threads.ready()
    }

    /// Says whether a thread or a handler executes.
    pub fn active(&self) -> bool
        ensures { (k : State) → Stands R.stands self.now k → result ≡ is_active k }
    {
        self.handler.is_some() || self.threads.running().is_some()
    }

    /// Makes the loader's thread, if it is dormant, ready with these registers.
    pub fn begin(&mut self, registers: &Cpu)
        requires sound { IsSound R.stands self.old }
        ensures { (k : State) → Stands R.stands self.old k
            → Stands R.stands self.new (record k { threads = begins k.threads registers.now }) }
    {
        self.threads.begin(registers);
    }

    /// Ends the thread that runs: it is dormant, and none runs.
    pub fn end_running(&mut self)
        requires sound { IsSound R.stands self.old }
        ensures { (k : State) → Stands R.stands self.old k
            → Stands R.stands self.new (record k { threads = ends_running k.threads }) }
    {
        self.threads.end_running();
    }

    /// Lets the best ready thread run, with its registers in `cpu`, where interrupts are on and
    /// dispatch is enabled, no handler runs, and no thread or one of a worse priority, which is
    /// then the first of the ready ones. Answers whether it did.
    #[tactic(auto, using(iop_base::proofs::Giving::gives_none), unfolding(crate::specs::Dispatching::dispatches))]
    pub fn dispatch<L: Lines>(&mut self, cpu: &mut Cpu, lines: &mut L) -> bool
        requires sound { IsSound R.stands self.old }
        ensures { (k : State) → Stands R.stands self.old k → let c = core k cpu.old in
            Dispatches R.stands c (dispatches c) result self.new cpu.new (L.output lines.old)
            (L.output lines.new) }
    {
        if !(self.interrupts && self.dispatching && self.handler.is_none()) {
            return false;
        }
        match self.threads.dispatch(cpu) {
            Some(id) => {
                lines.line(self.clock, Line::Run(id));
                true
            }
            None => false,
        }
    }
}
