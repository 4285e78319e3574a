//! The making and the deletion of threads, each with its stack.

ghost use Rattle.std.specs.Prelude.{◌≡◌, ℕ, ◌+◌, ◌*◌, ◌%◌, ◌≤◌, Ok, List, length};
ghost use Rattle.iop_base.specs.Numbers.{number_at};
ghost use Rattle.iop_base.specs.Places.{IsRamSize};
ghost use Rattle.iop_exec.specs.declared.cpu.Cpu.{Cpu as Processor};
ghost use Rattle.iop_registry.specs.declared.registry.Entry.{Entry};
ghost use Rattle.iop_sysmem.specs.Allocating.{allocating};
ghost use Rattle.iop_sysmem.specs.BlockMap.{BlockMap};
ghost use Rattle.iop_thread.specs.Operations.{deletes};
ghost use Rattle.iop_kernel.specs.Stacks.{param_of, create_thread, creates_on, creates_at, creates_with, deletes_by, delete_thread, exits_deleted, exit_delete_thread};
ghost use Rattle.iop_kernel.specs.Standing.{Holds, IsHeld, HasSizeOf, Serves, system, TakesOwner, core, owner};
ghost use Rattle.iop_kernel.specs.System.{Kernel as State};
ghost use Rattle.iop_kernel.specs.ThreadStarts.{ended};
ghost use Rattle.iop_kernel.specs.declared.stacks.TheConstants.{PARAM_WORDS};

use crate::after::After;
use crate::answering::{answer, answer_result};
use crate::kernel::Kernel;
use crate::places::words_place;
use iop_base::{Code, GuestFault, Lines, block_len};
use iop_exec::Cpu;
use iop_ready::{Priority, Ready};
use iop_stubs::Guest;
use iop_sysmem::Blocks;
use iop_thread::{LOADER, Param};
use irx_tables::word;

/// The attributes that a thread may have (ps2sdk: thbase.h, `TH_ASM` and `TH_C`).
pub const ATTRIBUTES: u32 = 0x0300_0000;

/// The fewest bytes that the stack of a thread may have.
pub const LEAST_STACK: u32 = 256;

/// How many words ask for a thread.
pub const PARAM_WORDS: u32 = 5;

/// The mode that takes the greatest free place for a block.
pub const FROM_ABOVE: u32 = 1;

/// Says what the words of CreateThread ask for, or why no thread is made.
fn param(attr: u32, option: u32, entry: u32, size: u32, priority: u32) -> Result<Param, Code>
    ensures { result ≡ param_of attr option entry size priority }
{
    if attr & ATTRIBUTES != attr {
        return Err(Code::ILLEGAL_ATTRIBUTE);
    }
    if entry % 4 != 0 {
        return Err(Code::ILLEGAL_ENTRY);
    }
    let Some(priority) = Priority::of(priority) else {
        return Err(Code::ILLEGAL_PRIORITY);
    };
    if size < LEAST_STACK {
        return Err(Code::ILLEGAL_STACK_SIZE);
    }
    Ok(Param {
        attr,
        option,
        entry,
        stack_size: size,
        priority,
    })
}

/// Reads the five words at a place, and says what they ask for.
#[tactic(auto, unfolding(iop_base::specs::Numbers::word_at))]
fn param_at(guest: &Guest, place: u32) -> Result<Param, Code>
    requires aligned { place % 4 ≡ 0 }
    requires inside { place + 4 * PARAM_WORDS ≤ length guest.now.ram }
    ensures { let word : ℕ → ℕ = λ k. number_at guest.now.ram (place + 4 * k) 4 in
        result ≡ param_of (word 0) (word 1) (word 2) (word 3) (word 4) }
{
    let ram = guest.ram();
    param(
        word(ram, place),
        word(ram, place + 4),
        word(ram, place + 8),
        word(ram, place + 12),
        word(ram, place + 16),
    )
}

impl<R: Ready> Kernel<R> {
    /// Fills the block of a stack with bytes 0xFF, makes a thread that has it, and answers its id.
    fn create_on<L: Lines>(
        &mut self,
        param: Param,
        stack: u32,
        cpu: &mut Cpu,
        guest: &mut Guest,
        lines: &mut L,
    ) -> After
        requires sound { IsHeld R.stands self.old }
        ensures { (k : State) (blocks : BlockMap) (libraries : List Entry)
            → Holds R.stands self.old k
            → let s = system k cpu.old guest.old blocks libraries in
            Serves R.stands (creates_on s param stack blocks) result self.new cpu.new guest.new
            blocks libraries (L.output lines.old) (L.output lines.new) }
    {
        // The block lies in RAM.
        let _ = guest.fill(stack, param.stack_size, 0xFF, self.clock, lines);
        let made = self.threads.create(param, stack, cpu.regs[28]);
        answer_result(cpu, made)
    }

    /// Takes a block for the stack of a thread, the last one of its size that is free, and makes
    /// the thread, for which there is room. `NO_MEMORY` where there is no such block.
    #[tactic(auto, using(iop_base::proofs::Giving::gives_none))]
    fn create_at<L: Lines>(
        &mut self,
        param: Param,
        cpu: &mut Cpu,
        guest: &mut Guest,
        blocks: &mut Blocks,
        lines: &mut L,
    ) -> After
        requires sound { IsHeld R.stands self.old }
        requires same_size { HasSizeOf blocks.old guest.old }
        requires sized { IsRamSize (length guest.old.ram) }
        ensures { (k : State) (libraries : List Entry) → Holds R.stands self.old k
            → let s = system k cpu.old guest.old blocks.old libraries in
            let taken = allocating blocks.old FROM_ABOVE param.stack_size 0 in
            Serves R.stands (creates_at s param taken) result self.new cpu.new guest.new blocks.new
            libraries (L.output lines.old) (L.output lines.new) }
    {
        let stack = blocks.alloc(FROM_ABOVE, param.stack_size, 0);
        if stack == 0 {
            return answer(cpu, Code::NO_MEMORY);
        }
        let stack_size = block_len(param.stack_size);
        self.create_on(
            Param {
                stack_size,
                ..param
            },
            stack,
            cpu,
            guest,
            lines,
        )
    }

    /// Makes a thread as its words ask for it. `NO_MEMORY` where there is no room for it, or no
    /// block for its stack.
    #[tactic(auto, using(iop_base::proofs::Giving::gives_none))]
    fn create_with<L: Lines>(
        &mut self,
        param: Param,
        cpu: &mut Cpu,
        guest: &mut Guest,
        blocks: &mut Blocks,
        lines: &mut L,
    ) -> After
        requires sound { IsHeld R.stands self.old }
        requires same_size { HasSizeOf blocks.old guest.old }
        requires sized { IsRamSize (length guest.old.ram) }
        ensures { (k : State) (libraries : List Entry) → Holds R.stands self.old k
            → let s = system k cpu.old guest.old blocks.old libraries in
            Serves R.stands (creates_with s (Ok param)) result self.new cpu.new guest.new blocks.new
            libraries (L.output lines.old) (L.output lines.new) }
    {
        if !self.threads.has_room() {
            return answer(cpu, Code::NO_MEMORY);
        }
        self.create_at(param, cpu, guest, blocks, lines)
    }

    /// Makes a thread of the five words at `at`: attributes, option, entry, stack size, priority.
    /// It answers its id, or why none is made; the words are looked at first.
    #[tactic(auto, using(iop_base::proofs::Giving::gives_none))]
    pub(crate) fn create_thread<L: Lines>(
        &mut self,
        at: u32,
        cpu: &mut Cpu,
        guest: &mut Guest,
        blocks: &mut Blocks,
        lines: &mut L,
    ) -> After
        requires sound { IsHeld R.stands self.old }
        requires same_size { HasSizeOf blocks.old guest.old }
        ensures { (k : State) (libraries : List Entry) → Holds R.stands self.old k
            → let s = system k cpu.old guest.old blocks.old libraries in
            Serves R.stands (create_thread s at) result self.new cpu.new guest.new blocks.new
            libraries (L.output lines.old) (L.output lines.new) }
    {
        let Some(place) = words_place(guest, at, PARAM_WORDS) else {
            return After::Fault(GuestFault::Address);
        };
        match param_at(guest, place) {
            Ok(param) => self.create_with(param, cpu, guest, blocks, lines),
            Err(code) => answer(cpu, code),
        }
    }
}

impl<R: Ready> Kernel<R> {
    /// Deletes a dormant thread that is not the loader's, and frees its block.
    fn delete_other(&mut self, id: u32, cpu: &mut Cpu, blocks: &mut Blocks) -> After
        requires sound { IsHeld R.stands self.old }
        ensures { (k : State) → Holds R.stands self.old k
            → let o = owner k cpu.old blocks.old in
            TakesOwner R.stands (deletes_by o (deletes k.threads id)) result self.new cpu.new
            blocks.new }
    {
        match self.threads.delete(id) {
            Ok(stack) => {
                blocks.free(stack);
                answer(cpu, Code::OK)
            }
            Err(code) => answer(cpu, code),
        }
    }

    /// Deletes the thread that called, which has ended, and frees its block.
    fn delete_ended(&mut self, id: u32, blocks: &mut Blocks) -> After
        requires sound { IsHeld R.stands self.old }
        ensures { (k : State) (cpu : Processor)
            → Holds R.stands self.old (ended (core k cpu)).kernel
            → let o = owner k cpu blocks.old in
            TakesOwner R.stands (exits_deleted o (deletes (ended o.core).kernel.threads id)) result
            self.new cpu blocks.new }
    {
        match self.threads.delete(id) {
            Ok(stack) => {
                blocks.free(stack);
                After::Switch
            }
            Err(_) => After::Switch,
        }
    }

    /// Deletes a dormant thread, and frees the block that begins at its stack, if one does.
    pub(crate) fn delete_thread(&mut self, id: u32, cpu: &mut Cpu, blocks: &mut Blocks) -> After
        requires sound { IsHeld R.stands self.old }
        ensures { (k : State) → Holds R.stands self.old k
            → TakesOwner R.stands (delete_thread (owner k cpu.old blocks.old) id) result
            self.new cpu.new blocks.new }
    {
        if id == 0 || id == LOADER {
            return answer(cpu, Code::ILLEGAL_THREAD);
        }
        self.delete_other(id, cpu, blocks)
    }

    /// Ends the thread that calls, and deletes it as `delete_thread` does. In the loader's thread
    /// it is the return of its module.
    pub(crate) fn exit_delete_thread(&mut self, cpu: &mut Cpu, blocks: &mut Blocks) -> After
        requires sound { IsHeld R.stands self.old }
        ensures { (k : State) → Holds R.stands self.old k
            → TakesOwner R.stands (exit_delete_thread (owner k cpu.old blocks.old)) result
            self.new cpu.new blocks.new }
    {
        match self.caller() {
            None => After::Fault(GuestFault::Service),
            Some(LOADER) => self.end_module(0),
            Some(id) => {
                self.end();
                self.delete_ended(id, blocks)
            }
        }
    }
}
