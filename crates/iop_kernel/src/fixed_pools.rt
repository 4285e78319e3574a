//! The services of `thfpool`.

ghost use Rattle.std.specs.Prelude.{◌≡◌, ◌<◌, None, Ok, is_some, true, List};
ghost use Rattle.iop_base.specs.Places.{IsRamSize};
ghost use Rattle.iop_objects.specs.Objects.{object_of, waiting};
ghost use Rattle.iop_objects.specs.declared.objects.TheConstants.{MOST_WAITERS};
ghost use Rattle.iop_pools.specs.FixedPools.{bytes};
ghost use Rattle.iop_registry.specs.declared.registry.Entry.{Entry};
ghost use Rattle.iop_kernel.specs.FixedPools.{makes_fpl, create_fpl, delete_fpl, free_fpl, allocate_fpl, poll_fpl, refer_fpl_status, serves_thfpool};
ghost use Rattle.iop_kernel.specs.ObjectServices.{waits_for};
ghost use Rattle.iop_kernel.specs.PoolServices.{makes_pool};
ghost use Rattle.iop_kernel.specs.Standing.{HasSizeOf, Holds, IsHeld, Serves, TakesBoard, TakesCore, TakesOwner, board, core, owner, system};
ghost use Rattle.iop_kernel.specs.System.{Kernel as State, caller_in};
ghost use Rattle.iop_thread.specs.declared.kind.Kind.TheVariants.{FixedPool};

use crate::after::After;
use crate::answering::{answer, answer_result, answer_word};
use crate::kernel::Kernel;
use crate::places::{word_in, words_place};
use crate::pool_services::take_memory;
use iop_base::{Code, GuestFault, Lines};
use iop_exec::Cpu;
use iop_pools::FixedPools;
use iop_ready::Ready;
use iop_services::ThfpoolService;
use iop_stubs::Guest;
use iop_sysmem::Blocks;
use iop_thread::{Kind, Wait};

/// How many words ask for a fixed pool: attribute, option, size of a block, how many blocks.
pub const FPL_WORDS: u32 = 4;

/// How many words the status of a fixed pool has.
pub const FPL_STATUS_WORDS: u32 = 6;

impl<R: Ready> Kernel<R> {
    /// Makes a fixed pool of blocks that have so many bytes in all, on the first block of memory
    /// that is free, and answers its id. `NO_MEMORY` where there is no room for it, or no such
    /// block of memory.
    fn create_sized_fpl(
        &mut self,
        attr: u32,
        option: u32,
        size: u32,
        count: u32,
        length: u32,
        cpu: &mut Cpu,
        blocks: &mut Blocks,
    ) -> After
        requires asked { bytes attr size count ≡ Ok length }
        requires sized { IsRamSize blocks.old.size }
        ensures { (k : State) → Holds R.stands self.old k
            → let o = owner k cpu.old blocks.old in
            TakesOwner R.stands
            (makes_pool o (makes_fpl o attr option size count) k.fixed_pools (Ok length)) result
            self.new cpu.new blocks.new }
    {
        let room = self.fixed_pools.has_room();
        let Some(base) = take_memory(blocks, room, length) else {
            return answer(cpu, Code::NO_MEMORY);
        };
        let made = self.fixed_pools.create(attr, option, size, count, base);
        answer_result(cpu, made)
    }

    /// Makes a fixed pool of the four words at `at`: attribute, option, size of a block, how many
    /// blocks. It answers its id, or a code of `FixedPools::bytes`, or `NO_MEMORY` where there is
    /// no room for it, or no block for its memory; the words are looked at first.
    pub(crate) fn create_fpl(
        &mut self,
        at: u32,
        cpu: &mut Cpu,
        guest: &Guest,
        blocks: &mut Blocks,
    ) -> After
        requires same_size { HasSizeOf blocks.old guest.now }
        ensures { (k : State) → Holds R.stands self.old k
            → TakesOwner R.stands (create_fpl (owner k cpu.old blocks.old) guest.now at) result
            self.new cpu.new blocks.new }
    {
        let Some(place) = words_place(guest, at, FPL_WORDS) else {
            return After::Fault(GuestFault::Address);
        };
        let [attr, option, size, count] = [
            word_in(guest, place, 0),
            word_in(guest, place, 1),
            word_in(guest, place, 2),
            word_in(guest, place, 3),
        ];
        match FixedPools::bytes(attr, size, count) {
            Ok(length) => self.create_sized_fpl(attr, option, size, count, length, cpu, blocks),
            Err(code) => answer(cpu, code),
        }
    }

    /// Deletes a fixed pool, and frees the block that begins at its base, if one does. The threads
    /// that wait are woken with `OBJECT_DELETED`, in the order in which they would be chosen.
    /// `UNKNOWN_FIXED_POOL` where none of this id is live.
    pub(crate) fn delete_fpl(&mut self, id: u32, cpu: &mut Cpu, blocks: &mut Blocks) -> After
        requires sound { IsHeld R.stands self.old }
        ensures { (k : State) → Holds R.stands self.old k
            → TakesOwner R.stands (delete_fpl (owner k cpu.old blocks.old) id) result
            self.new cpu.new blocks.new }
    {
        if let Some(pool) = self.fixed_pools.get(id) {
            blocks.free(pool.base);
        }
        self.delete_object(Kind::FixedPool, id, cpu)
    }

    /// Lets the thread that calls wait for a block of a live fixed pool.
    fn wait_for_block(&mut self, id: u32, cpu: &Cpu) -> After
        requires sound { IsHeld R.stands self.old }
        requires live { is_some (object_of self.old.fixed_pools.live id) ≡ true }
        requires room { self.old.handler ≡ None → waiting self.old.fixed_pools < MOST_WAITERS }
        ensures { (k : State) → Holds R.stands self.old k
            → TakesCore R.stands (waits_for FixedPool (core k cpu.now) id tt (caller_in k)) result
            self.new cpu.now }
    {
        let Some(thread) = self.caller() else {
            return After::Fault(GuestFault::Service);
        };
        let priority = self.priority_of(thread);
        self.fixed_pools.wait(id, thread, priority);
        self.wait(Wait::Object(Kind::FixedPool, id), cpu)
    }

    /// Takes a block of a fixed pool and answers its address, or lets the thread that calls wait
    /// where none is free. It answers a code of `FixedPools::take`, or first `CANNOT_WAIT` where no
    /// other thread may run.
    pub(crate) fn allocate_fpl(&mut self, id: u32, cpu: &mut Cpu) -> After
        requires sound { IsHeld R.stands self.old }
        requires room { self.old.handler ≡ None → waiting self.old.fixed_pools < MOST_WAITERS }
        ensures { (k : State) → Holds R.stands self.old k
            → TakesCore R.stands (allocate_fpl (core k cpu.old) id) result self.new cpu.new }
    {
        if !self.may_switch() {
            return answer(cpu, Code::CANNOT_WAIT);
        }
        match self.fixed_pools.take(id) {
            Ok(block) => answer_word(cpu, block),
            Err(Code::NO_MEMORY) => self.wait_for_block(id, cpu),
            Err(code) => answer(cpu, code),
        }
    }

    /// Takes a block of a fixed pool, and answers its address, or a code of `FixedPools::take`.
    pub(crate) fn poll_fpl(&mut self, id: u32, cpu: &mut Cpu) -> After
        ensures { (k : State) → Holds R.stands self.old k
            → TakesCore R.stands (poll_fpl (core k cpu.old) id) result self.new cpu.new }
    {
        let taken = self.fixed_pools.take(id);
        answer_result(cpu, taken)
    }

    /// Gives a block back to a fixed pool: the next thread that waits is woken with its address, or
    /// it is free. It answers a code of `FixedPools::give`.
    pub(crate) fn free_fpl(&mut self, id: u32, block: u32, cpu: &mut Cpu) -> After
        requires sound { IsHeld R.stands self.old }
        ensures { (k : State) → Holds R.stands self.old k
            → TakesCore R.stands (free_fpl (core k cpu.old) id block) result self.new cpu.new }
    {
        match self.fixed_pools.give(id, block) {
            Ok(Some(thread)) => {
                self.wake_with(thread, block);
                answer(cpu, Code::OK)
            }
            Ok(None) => answer(cpu, Code::OK),
            Err(code) => answer(cpu, code),
        }
    }

    /// Writes the six words of a fixed pool's status at `at`: attribute, option, size of a block,
    /// how many blocks, how many are free, how many threads wait. The place is looked at first.
    /// `UNKNOWN_FIXED_POOL` where none of this id is live.
    #[tactic(auto, using(iop_base::proofs::Giving::gives_none, crate::proofs::Bodies::Reads::no_object))]
    pub(crate) fn refer_fpl_status<L: Lines>(
        &self,
        id: u32,
        at: u32,
        cpu: &mut Cpu,
        guest: &mut Guest,
        lines: &mut L,
    ) -> After
        ensures { (k : State) → Holds R.stands self.now k
            → TakesBoard R.stands (refer_fpl_status (board k cpu.old guest.old) id at) result
            self.now cpu.new guest.new (L.output lines.old) (L.output lines.new) }
    {
        let Some(place) = words_place(guest, at, FPL_STATUS_WORDS) else {
            return After::Fault(GuestFault::Address);
        };
        let Some(pool) = self.fixed_pools.get(id) else {
            return answer(cpu, Code::UNKNOWN_FIXED_POOL);
        };
        let words = [
            pool.attr,
            pool.option,
            pool.size,
            pool.count,
            pool.free,
            self.fixed_pools.waiters(id) as u32,
        ];
        self.answer_words_at(place, &words, cpu, guest, lines)
    }

    /// Does what a service of `thfpool` does.
    #[tactic(auto, using(iop_base::proofs::Giving::gives_none), unfolding(crate::specs::FixedPools::serves_thfpool))]
    pub(crate) fn serve_thfpool<L: Lines>(
        &mut self,
        service: ThfpoolService,
        cpu: &mut Cpu,
        guest: &mut Guest,
        blocks: &mut Blocks,
        lines: &mut L,
    ) -> After
        requires sound { IsHeld R.stands self.old }
        requires room { self.old.handler ≡ None → waiting self.old.fixed_pools < MOST_WAITERS }
        requires same_size { HasSizeOf blocks.old guest.old }
        ensures { (k : State) (libraries : List Entry) → Holds R.stands self.old k
            → let s = system k cpu.old guest.old blocks.old libraries in
            Serves R.stands (serves_thfpool s service) result self.new cpu.new guest.new blocks.new
            libraries (L.output lines.old) (L.output lines.new) }
    {
        let [a0, a1] = [cpu.regs[4], cpu.regs[5]];
        match service {
            ThfpoolService::CreateFpl => self.create_fpl(a0, cpu, guest, blocks),
            ThfpoolService::DeleteFpl => self.delete_fpl(a0, cpu, blocks),
            ThfpoolService::AllocateFpl => self.allocate_fpl(a0, cpu),
            ThfpoolService::PAllocateFpl => self.poll_fpl(a0, cpu),
            ThfpoolService::FreeFpl => self.free_fpl(a0, a1, cpu),
            ThfpoolService::ReferFplStatus => self.refer_fpl_status(a0, a1, cpu, guest, lines),
        }
    }
}
