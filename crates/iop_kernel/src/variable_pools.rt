//! The services of `thvpool`.

ghost use Rattle.std.specs.Prelude.{◌≡◌, ◌<◌, ◌≤◌, None, Ok, Some, is_some, true, List};
ghost use Rattle.iop_base.specs.Places.{IsRamSize};
ghost use Rattle.iop_base.specs.declared.code.TheConstants.Code.{OK};
ghost use Rattle.iop_objects.specs.Objects.{object_of, state_of, waiting};
ghost use Rattle.iop_objects.specs.declared.objects.TheConstants.{MOST_WAITERS};
ghost use Rattle.iop_pools.specs.Pools.{Pool};
ghost use Rattle.iop_pools.specs.VariablePools.{bytes, place_of, pool_length};
ghost use Rattle.iop_registry.specs.declared.registry.Entry.{Entry};
ghost use Rattle.iop_kernel.specs.PoolServices.{makes_pool};
ghost use Rattle.iop_kernel.specs.Standing.{HasSizeOf, Holds, IsHeld, Serves, TakesBoard, TakesCore, TakesOwner, board, core, owner, system};
ghost use Rattle.iop_kernel.specs.System.{Kernel as State, answers, caller_in};
ghost use Rattle.iop_kernel.specs.VariablePools.{makes_vpl, create_vpl, delete_vpl, meets_all, free_vpl, allocate_vpl, poll_vpl, refer_vpl_status, serves_thvpool};
ghost use Rattle.iop_kernel.specs.ObjectServices.{waits_for};
ghost use Rattle.iop_thread.specs.declared.kind.Kind.TheVariants.{VariablePool};

use crate::after::After;
use crate::answering::{answer, answer_result, answer_word};
use crate::kernel::Kernel;
use crate::places::{word_in, words_place};
use crate::pool_services::take_memory;
use iop_base::{Code, GuestFault, Lines};
use iop_exec::Cpu;
use iop_pools::VariablePools;
use iop_ready::Ready;
use iop_services::ThvpoolService;
use iop_stubs::Guest;
use iop_sysmem::Blocks;
use iop_thread::{Kind, Wait};

/// How many words ask for a variable pool: attribute, option, size.
pub const VPL_WORDS: u32 = 3;

/// How many words the status of a variable pool has.
pub const VPL_STATUS_WORDS: u32 = 6;

impl<R: Ready> Kernel<R> {
    /// Makes a variable pool of a size that has so many bytes, on the first block of memory that is
    /// free, and answers its id. `NO_MEMORY` where there is no room for it, or no such block.
    fn create_sized_vpl(
        &mut self,
        attr: u32,
        option: u32,
        size: u32,
        length: u32,
        cpu: &mut Cpu,
        blocks: &mut Blocks,
    ) -> After
        requires asked { bytes attr size ≡ Ok length }
        requires sized { IsRamSize blocks.old.size }
        ensures { (k : State) → Holds R.stands self.old k
            → let o = owner k cpu.old blocks.old in
            TakesOwner R.stands
            (makes_pool o (makes_vpl o attr option size) k.variable_pools (Ok length)) result
            self.new cpu.new blocks.new }
    {
        let room = self.variable_pools.has_room();
        let Some(base) = take_memory(blocks, room, length) else {
            return answer(cpu, Code::NO_MEMORY);
        };
        let made = self.variable_pools.create(attr, option, size, base);
        answer_result(cpu, made)
    }

    /// Makes a variable pool of the three words at `at`: attribute, option, size. It answers its
    /// id, or a code of `VariablePools::bytes`, or `NO_MEMORY` where there is no room for it, or no
    /// block for its memory; the words are looked at first.
    pub(crate) fn create_vpl(
        &mut self,
        at: u32,
        cpu: &mut Cpu,
        guest: &Guest,
        blocks: &mut Blocks,
    ) -> After
        requires same_size { HasSizeOf blocks.old guest.now }
        ensures { (k : State) → Holds R.stands self.old k
            → TakesOwner R.stands (create_vpl (owner k cpu.old blocks.old) guest.now at) result
            self.new cpu.new blocks.new }
    {
        let Some(place) = words_place(guest, at, VPL_WORDS) else {
            return After::Fault(GuestFault::Address);
        };
        let [attr, option, size] = [
            word_in(guest, place, 0),
            word_in(guest, place, 1),
            word_in(guest, place, 2),
        ];
        match VariablePools::bytes(attr, size) {
            Ok(length) => self.create_sized_vpl(attr, option, size, length, cpu, blocks),
            Err(code) => answer(cpu, code),
        }
    }

    /// Deletes a variable pool, and frees the block that begins at its base, if one does. The
    /// threads that wait are woken with `OBJECT_DELETED`, in the order in which they would be
    /// chosen. `UNKNOWN_VARIABLE_POOL` where none of this id is live.
    pub(crate) fn delete_vpl(&mut self, id: u32, cpu: &mut Cpu, blocks: &mut Blocks) -> After
        requires sound { IsHeld R.stands self.old }
        ensures { (k : State) → Holds R.stands self.old k
            → TakesOwner R.stands (delete_vpl (owner k cpu.old blocks.old) id) result
            self.new cpu.new blocks.new }
    {
        if let Some(pool) = self.variable_pools.get(id) {
            blocks.free(pool.base);
        }
        self.delete_object(Kind::VariablePool, id, cpu)
    }

    /// Lets the thread that calls wait for so many bytes of a live variable pool, rounded up, which
    /// do not fit now.
    fn wait_for_memory(&mut self, id: u32, size: u32, cpu: &Cpu) -> After
        requires sound { IsHeld R.stands self.old }
        requires live { is_some (object_of self.old.variable_pools.live id) ≡ true }
        requires room { self.old.handler ≡ None → waiting self.old.variable_pools < MOST_WAITERS }
        requires size { 0 < size }
        requires within { (x : Pool) → state_of self.old.variable_pools id ≡ Some x
            → size ≤ x.size }
        requires full { (x : Pool) → state_of self.old.variable_pools id ≡ Some x
            → place_of x size ≡ None }
        ensures { (k : State) → Holds R.stands self.old k
            → let wants = pool_length size in
            TakesCore R.stands (waits_for VariablePool (core k cpu.now) id wants (caller_in k))
            result self.new cpu.now }
    {
        let Some(thread) = self.caller() else {
            return After::Fault(GuestFault::Service);
        };
        let priority = self.priority_of(thread);
        self.variable_pools.wait(id, thread, priority, size);
        self.wait(Wait::Object(Kind::VariablePool, id), cpu)
    }

    /// Takes memory of a variable pool and answers its address, or lets the thread that calls wait
    /// where it does not fit. It answers a code of `VariablePools::take`, or first `CANNOT_WAIT`
    /// where no other thread may run.
    pub(crate) fn allocate_vpl(&mut self, id: u32, size: u32, cpu: &mut Cpu) -> After
        requires sound { IsHeld R.stands self.old }
        requires room { self.old.handler ≡ None → waiting self.old.variable_pools < MOST_WAITERS }
        ensures { (k : State) → Holds R.stands self.old k
            → TakesCore R.stands (allocate_vpl (core k cpu.old) id size) result
            self.new cpu.new }
    {
        if !self.may_switch() {
            return answer(cpu, Code::CANNOT_WAIT);
        }
        match self.variable_pools.take(id, size) {
            Ok(block) => answer_word(cpu, block),
            Err(Code::NO_MEMORY) => self.wait_for_memory(id, size, cpu),
            Err(code) => answer(cpu, code),
        }
    }

    /// Takes memory of a variable pool, and answers its address, or a code of
    /// `VariablePools::take`.
    pub(crate) fn poll_vpl(&mut self, id: u32, size: u32, cpu: &mut Cpu) -> After
        ensures { (k : State) → Holds R.stands self.old k
            → TakesCore R.stands (poll_vpl (core k cpu.old) id size) result self.new cpu.new }
    {
        let taken = self.variable_pools.take(id, size);
        answer_result(cpu, taken)
    }

    /// Wakes each thread that waits for a variable pool and whose size fits now, with the address
    /// of its memory, in the order in which they are chosen, and answers 0.
    fn meet_vpl(&mut self, id: u32, cpu: &mut Cpu) -> After
        requires sound { IsHeld R.stands self.old }
        ensures { (k : State) → Holds R.stands self.old k
            → TakesCore R.stands (answers (meets_all id (core k cpu.old)) OK) result
            self.new cpu.new }
    {
        while let Some(met) = self.variable_pools.next_met(id) {
            self.wake_with(met.thread, met.block);
        }
        answer(cpu, Code::OK)
    }

    /// Gives memory back to a variable pool, and answers a code of `VariablePools::give`. Then each
    /// thread whose size fits is woken with the address of its memory.
    pub(crate) fn free_vpl(&mut self, id: u32, block: u32, cpu: &mut Cpu) -> After
        requires sound { IsHeld R.stands self.old }
        ensures { (k : State) → Holds R.stands self.old k
            → TakesCore R.stands (free_vpl (core k cpu.old) id block) result self.new cpu.new }
    {
        match self.variable_pools.give(id, block) {
            Code::OK => self.meet_vpl(id, cpu),
            code => answer(cpu, code),
        }
    }

    /// Writes the six words of a variable pool's status at `at`: attribute, option, size, how many
    /// bytes are free, the size of the greatest free range, how many threads wait. The place is
    /// looked at first. `UNKNOWN_VARIABLE_POOL` where none of this id is live.
    #[tactic(auto, using(iop_base::proofs::Giving::gives_none, crate::proofs::Bodies::Reads::no_object))]
    pub(crate) fn refer_vpl_status<L: Lines>(
        &self,
        id: u32,
        at: u32,
        cpu: &mut Cpu,
        guest: &mut Guest,
        lines: &mut L,
    ) -> After
        ensures { (k : State) → Holds R.stands self.now k
            → TakesBoard R.stands (refer_vpl_status (board k cpu.old guest.old) id at) result
            self.now cpu.new guest.new (L.output lines.old) (L.output lines.new) }
    {
        let Some(place) = words_place(guest, at, VPL_STATUS_WORDS) else {
            return After::Fault(GuestFault::Address);
        };
        let Some(pool) = self.variable_pools.get(id) else {
            return answer(cpu, Code::UNKNOWN_VARIABLE_POOL);
        };
        let words = [
            pool.attr,
            pool.option,
            pool.size,
            pool.free,
            pool.greatest,
            self.variable_pools.waiters(id) as u32,
        ];
        self.answer_words_at(place, &words, cpu, guest, lines)
    }

    /// Does what a service of `thvpool` does.
    #[tactic(auto, using(iop_base::proofs::Giving::gives_none), unfolding(crate::specs::VariablePools::serves_thvpool))]
    pub(crate) fn serve_thvpool<L: Lines>(
        &mut self,
        service: ThvpoolService,
        cpu: &mut Cpu,
        guest: &mut Guest,
        blocks: &mut Blocks,
        lines: &mut L,
    ) -> After
        requires sound { IsHeld R.stands self.old }
        requires room { self.old.handler ≡ None → waiting self.old.variable_pools < MOST_WAITERS }
        requires same_size { HasSizeOf blocks.old guest.old }
        ensures { (k : State) (libraries : List Entry) → Holds R.stands self.old k
            → let s = system k cpu.old guest.old blocks.old libraries in
            Serves R.stands (serves_thvpool s service) result self.new cpu.new guest.new blocks.new
            libraries (L.output lines.old) (L.output lines.new) }
    {
        let [a0, a1] = [cpu.regs[4], cpu.regs[5]];
        match service {
            ThvpoolService::CreateVpl => self.create_vpl(a0, cpu, guest, blocks),
            ThvpoolService::DeleteVpl => self.delete_vpl(a0, cpu, blocks),
            ThvpoolService::AllocateVpl => self.allocate_vpl(a0, a1, cpu),
            ThvpoolService::PAllocateVpl => self.poll_vpl(a0, a1, cpu),
            ThvpoolService::FreeVpl => self.free_vpl(a0, a1, cpu),
            ThvpoolService::ReferVplStatus => self.refer_vpl_status(a0, a1, cpu, guest, lines),
        }
    }
}
