//! The objects of each kind, with the threads that wait for them.

ghost use Rattle.std.specs.Prelude.{◌≡◌, [], option_map};
ghost use Rattle.iop_objects.specs.Objects.{waiters_of, takes_next, drops, requeues};
ghost use Rattle.iop_kernel.specs.ObjectServices.{removes, delete_object};
ghost use Rattle.iop_kernel.specs.Kinds.{table, with_table, is_by_priority};
ghost use Rattle.iop_kernel.specs.System.{Kernel as State};
ghost use Rattle.iop_kernel.specs.Standing.{Holds, IsHeld, TakesCore, core, held};

use crate::after::After;
use crate::answering::answer;
use crate::kernel::Kernel;
use iop_base::Code;
use iop_exec::Cpu;
use iop_ready::Ready;
use iop_thread::Kind;

impl<R: Ready> Kernel<R> {
    /// Takes the thread out that is next among those that wait for an object. None exactly where
    /// none waits, or no object of this kind and id is live.
    fn pop_waiter(&mut self, kind: Kind, id: u32) -> Option<u32>
        ensures answer { let s = held kind self.old in
            result ≡ option_map (λ waiter. waiter.thread)
            (takes_next s id (is_by_priority kind s id)).0 }
        ensures left { let s = held kind self.old in
            held kind self.new ≡ (takes_next s id (is_by_priority kind s id)).1 }
        ensures rest { (k : State) → Holds R.stands self.old k
            → Holds R.stands self.new (with_table kind k (held kind self.new)) }
    {
        match kind {
            Kind::Semaphore => self.semaphores.pop_waiter(id),
            Kind::EventFlag => self.event_flags.pop_waiter(id),
            Kind::Mailbox => self.mailboxes.pop_waiter(id),
            Kind::VariablePool => self.variable_pools.pop_waiter(id),
            Kind::FixedPool => self.fixed_pools.pop_waiter(id),
        }
    }

    /// Takes a thread out of those that wait for an object, if it does.
    pub(crate) fn drop_waiter(&mut self, kind: Kind, id: u32, thread: u32)
        ensures { (k : State) → Holds R.stands self.old k
            → Holds R.stands self.new (with_table kind k (drops (table kind k) id thread)) }
    {
        match kind {
            Kind::Semaphore => self.semaphores.drop_waiter(id, thread),
            Kind::EventFlag => self.event_flags.drop_waiter(id, thread),
            Kind::Mailbox => self.mailboxes.drop_waiter(id, thread),
            Kind::VariablePool => self.variable_pools.drop_waiter(id, thread),
            Kind::FixedPool => self.fixed_pools.drop_waiter(id, thread),
        }
    }

    /// Gives a thread another priority among those that wait for an object, if it does.
    pub(crate) fn requeue_waiter(&mut self, kind: Kind, id: u32, thread: u32, priority: u8)
        ensures { (k : State) → Holds R.stands self.old k → let s = table kind k in
            Holds R.stands self.new (with_table kind k
            (requeues s id (is_by_priority kind s id) thread priority)) }
    {
        match kind {
            Kind::Semaphore => self.semaphores.requeue(id, thread, priority),
            Kind::EventFlag => self.event_flags.requeue(id, thread, priority),
            Kind::Mailbox => self.mailboxes.requeue(id, thread, priority),
            Kind::VariablePool => self.variable_pools.requeue(id, thread, priority),
            Kind::FixedPool => self.fixed_pools.requeue(id, thread, priority),
        }
    }

    /// Removes an object for which no thread waits. It answers a code: that of an unknown id where
    /// no object of this kind and id is live.
    fn remove(&mut self, kind: Kind, id: u32) -> Code
        requires none { waiters_of (held kind self.old) id ≡ [] }
        ensures answer { result ≡ (removes kind (held kind self.old) id).0 }
        ensures left { held kind self.new ≡ (removes kind (held kind self.old) id).1 }
        ensures rest { (k : State) → Holds R.stands self.old k
            → Holds R.stands self.new (with_table kind k (held kind self.new)) }
    {
        match kind {
            Kind::Semaphore => self.semaphores.delete(id),
            Kind::EventFlag => self.event_flags.delete(id),
            Kind::Mailbox => self.mailboxes.delete(id),
            Kind::VariablePool => self.variable_pools.delete(id),
            Kind::FixedPool => self.fixed_pools.delete(id),
        }
    }

    /// Deletes an object. The threads that wait are woken with `OBJECT_DELETED`, in the order in
    /// which they would be chosen. It answers a code: that of an unknown id where no object of this
    /// kind and id is live.
    pub(crate) fn delete_object(&mut self, kind: Kind, id: u32, cpu: &mut Cpu) -> After
        requires sound { IsHeld R.stands self.old }
        ensures { (k : State) → Holds R.stands self.old k
            → TakesCore R.stands (delete_object kind (core k cpu.old) id) result self.new
            cpu.new }
    {
        while let Some(thread) = self.pop_waiter(kind, id) {
            self.wake(thread, Code::OBJECT_DELETED);
        }
        let code = self.remove(kind, id);
        answer(cpu, code)
    }
}
