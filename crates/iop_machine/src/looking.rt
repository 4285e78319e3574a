//! What is looked at before instructions are executed: the script's events, what is to be delivered
//! and dispatched, and how far it is to the next moment at which any of it may have to be done.

ghost use Rattle.std.specs.Prelude.{◌≡◌, ℕ, ◌+◌, ◌*◌, ◌^◌, ◌<◌, ◌≤◌, false, None, is_some, All};
ghost use Rattle.iop_intr.specs.declared.irqs.TheConstants.{IRQ_LINES};
ghost use Rattle.std.specs.Bool.{OnTrue};
ghost use Rattle.iop_trace.specs.Outs.{has_failed, output_of};
ghost use Rattle.iop_ready.specs.KernelReady.{KernelStands};
ghost use Rattle.iop_machine.specs.Advancing.{Delivers, Dispatches, Settles, IsLess, calls_by};
ghost use Rattle.iop_machine.specs.Events.{earlier};
ghost use Rattle.iop_machine.specs.Iop.{Iop as State, core_of};
ghost use Rattle.iop_kernel.specs.Deliveries.{delivers};
ghost use Rattle.iop_kernel.specs.Standing.{Stands as KernelStandsFor};
ghost use Rattle.iop_kernel.specs.System.{Kernel as KernelState, is_active};
ghost use Rattle.iop_machine.specs.Laws.{IsMachine};
ghost use Rattle.iop_machine.specs.Looking.{IsAhead, after_event, takes_event, after_events, takes_events, next_coming};
ghost use Rattle.iop_machine.specs.Running.{Runs, RunsFor};
ghost use Rattle.iop_machine.specs.Standing.{Stands, StandsBooted, IsSound};
ghost use Rattle.iop_machine.specs.Stepping.{waits_by, most_between};
ghost use Rattle.iop_machine.specs.World.{booted};
ghost use Rattle.iop_machine.specs.declared.progress.Progress.TheVariants.{Advanced};

use crate::iop::Iop;
use iop_base::Stop;
use iop_intr::Irqs;
use iop_kernel::Kernel;
use iop_ports::Sink;
use iop_ready::KernelReady;
use iop_script::Raise;
use iop_trace::Out;

/// Chooses the earlier of two moments, if there are two.
fn earlier(one: Option<u64>, other: Option<u64>) -> Option<u64>
    ensures { result ≡ earlier one other }
{
    match (one, other) {
        (Some(moment), Some(other)) => Some(moment.min(other)),
        (Some(moment), None) => Some(moment),
        (None, other) => other,
    }
}

/// Counts the ticks up to a moment, if it is still to come: `most` where it is not, or where there
/// are more.
fn ticks_ahead(now: u64, moment: Option<u64>, most: u64) -> u64
    requires { 0 < most }
    ensures { IsAhead now moment most result }
{
    match moment {
        Some(moment) if now < moment => most.min(moment - now),
        _ => most,
    }
}

/// Raises or lowers the line of an event, a line that there is.
fn change_line(irqs: &mut Irqs, event: Raise)
    requires { event.line < IRQ_LINES }
    ensures { irqs.new ≡ after_event irqs.old event }
{
    if event.up {
        irqs.raise(event.line);
    } else {
        irqs.lower(event.line);
    }
}

/// Makes the interrupt lines that events leave, one after the other, of lines that there are.
fn after_events(mut irqs: Irqs, events: &[Raise]) -> Irqs
    requires { All (λ e. e.line < IRQ_LINES) events.now }
    ensures { result ≡ after_events irqs events.now }
{
    for event in events {
        change_line(&mut irqs, *event);
    }
    irqs
}

/// Raises or lowers the line of an event in the kernel, a line that there is.
fn take_event(kernel: &mut Kernel<KernelReady>, event: Raise)
    requires { event.line < IRQ_LINES }
    ensures { (k : KernelState) → KernelStandsFor KernelStands kernel.old k
        → KernelStandsFor KernelStands kernel.new (takes_event k event) }
{
    if event.up {
        kernel.raise(event.line);
    } else {
        kernel.lower(event.line);
    }
}

impl Iop {
    /// Takes the events of the script that are due, in order. Each raises or lowers its line.
    pub(crate) fn take_events(&mut self)
        requires sound { IsSound self.old }
        ensures { (s : State) → Stands self.old s → Stands self.new (takes_events s) }
    {
        let now = self.kernel.now();
        while let Some(event) = self.events.take_due(now) {
            take_event(&mut self.kernel, event);
        }
    }

    /// Tells whether anything is to be delivered once the events that are due were taken. They are
    /// not taken for it: where nothing is, the next step may be one that the budget keeps from
    /// beginning. The lines are copied only where an event is due.
    fn would_deliver(&self) -> bool
        ensures { (s : State) → Stands self.now s
            → result ≡ is_some (delivers (core_of (takes_events s))) }
    {
        let due = self.events.due(self.kernel.now());
        if due.is_empty() {
            return self.kernel.would_deliver(&self.cpu);
        }
        let irqs = after_events(self.kernel.irqs().copied(), due);
        self.kernel.would_deliver_with(&self.cpu, &irqs)
    }

    /// Delivers a line, an alarm or a delay, if one is to be delivered. Answers whether it did.
    fn deliver<C: Sink, T: Sink>(&mut self, out: &mut Out<'_, C, T>) -> bool
        requires sound { IsSound self.old }
        requires well { has_failed out.old ≡ false }
        ensures { (s : State) (budget : ℕ) → Stands self.old s → s.over ≡ None
            → Delivers StandsBooted result (booted s) budget self.new
            (output_of C.told T.told out.old)
            (output_of C.told T.told out.new) }
    {
        if !self.would_deliver() {
            return false;
        }
        self.take_events();
        self.kernel.deliver(&mut self.cpu, out)
    }

    /// Dispatches a thread, if one is to be dispatched, where nothing is to be delivered. Answers
    /// whether it did. The lines of the events that are due, which are taken in the same step,
    /// change nothing of it.
    #[inline(never)]
    fn dispatch<C: Sink, T: Sink>(&mut self, out: &mut Out<'_, C, T>) -> bool
        requires sound { IsSound self.old }
        requires well { has_failed out.old ≡ false }
        ensures { (s : State) (budget : ℕ) → Stands self.old s → s.over ≡ None
            → delivers (core_of (takes_events s)) ≡ None
            → Dispatches StandsBooted result (booted s) budget self.new
            (output_of C.told T.told out.old)
            (output_of C.told T.told out.new) }
    {
        if !self.kernel.dispatch(&mut self.cpu, out) {
            return false;
        }
        self.take_events();
        true
    }

    /// Delivers what is to be delivered, or dispatches a thread, behind which something may be to
    /// be delivered. Answers whether the run goes on from there: by a delivery, or by a dispatch in
    /// which a write failed. If not, nothing is to be delivered or dispatched.
    pub(crate) fn settle_first<C: Sink, T: Sink>(&mut self, out: &mut Out<'_, C, T>) -> bool
        requires sound { IsSound self.old }
        requires goes_on { self.old.over ≡ None }
        requires well { has_failed out.old ≡ false }
        ensures settles { (s : State) (budget : ℕ) → Stands self.old s
            → Settles StandsBooted result (booted s) budget self.new
            (output_of C.told T.told out.old)
            (output_of C.told T.told out.new) }
        ensures fewer { (budget : ℕ) → OnTrue result
            (IsLess (Advanced budget) (has_failed out.new) self.new.over false self.new.kernel
            (most_between * budget + calls_by None false self.old.kernel)) }
    {
        if self.deliver(out) {
            return true;
        }
        if !self.dispatch(out) {
            return false;
        }
        out.failed() || self.deliver(out)
    }

    /// Lets the clock go on to the next event, alarm or delay, where nothing executes. Where none
    /// is to come, it is quiet.
    pub(crate) fn wait(&mut self)
        requires idle { (s : State) × Stands self.old s × IsMachine (booted s)
            × (delivers (core_of (takes_events s)) ≡ None) × (is_active s.kernel ≡ false) }
        ensures waits { (s : State) → Stands self.old s → let v = takes_events s in
            Stands self.new (waits_by v (next_coming v)).state }
    {
        self.take_events();
        match earlier(self.events.next_tick(), self.kernel.next_moment()) {
            Some(moment) => self.kernel.advance(moment),
            None => self.over = Some(Stop::Quiet),
        }
    }

    /// Counts the instructions that can be executed, as long as they are plain, before anything but
    /// an instruction may be to be done: at most `budget`, one at least. They end at the tick of
    /// the next event and at the next moment at which something may be delivered, in a delay slot
    /// behind the instruction in it.
    pub(crate) fn instructions_ahead(&self, budget: u64) -> u64
        requires sound { IsSound self.now }
        requires some { 0 < budget }
        requires time { self.now.kernel.clock + budget < 2 ^ 64 }
        ensures some { 0 < result }
        ensures within { result ≤ budget }
        ensures ahead { (s : State) → Stands self.now s → Runs s → RunsFor s result }
    {
        let now = self.kernel.now();
        let most = ticks_ahead(now, self.events.next_tick(), budget);
        ticks_ahead(now, self.kernel.next_look(&self.cpu), most)
    }
}
