//! Threads as the calls of a guest make them.

ghost use Rattle.std.specs.Prelude.{◌≡◌, ◌==◌, if◌then◌else◌, length};
ghost use Rattle.std.specs.List.{list_all};
ghost use Rattle.iop_saved_checks.specs.Made.{is_loaders, is_created, has_stack, thread_can_be, threads_can_be};
ghost use Rattle.iop_thread.specs.Standing.{Stands};
ghost use Rattle.iop_thread.specs.ThreadTable.{ThreadTable};
ghost use Rattle.iop_thread.specs.declared.thread.TheConstants.{LOADER};

use iop_base::BLOCK_UNIT;
use iop_kernel::ATTRIBUTES;
use iop_ram::Ram;
use iop_ready::{MOST_THREADS, Ready};
use iop_sysmem::KERNEL;
use iop_thread::{
    LOADER, LOADER_ATTRIBUTE, LOADER_PRIORITY, LOADER_STACK, LOADER_STACK_SIZE, MOST_WAKEUPS,
    Thread, Threads,
};

/// Says whether the loader's thread stands, and each thread can be as it is in this RAM.
#[tactic(auto, unfolding(crate::specs::Made::threads_can_be))]
pub(crate) fn threads_can_be<R: Ready>(threads: &Threads<R>, ram: &Ram) -> bool
    ensures { (s : ThreadTable) → Stands R.stands threads.now s
        → result ≡ threads_can_be (length ram.now) s }
{
    threads.get(LOADER).is_some() && each_can_be(threads, ram)
}

/// Says whether each thread can be as it is.
fn each_can_be<R: Ready>(threads: &Threads<R>, ram: &Ram) -> bool
    ensures { (s : ThreadTable) → Stands R.stands threads.now s
        → result ≡ list_all (thread_can_be (length ram.now)) s.live }
{
    let mut last = 0;
    for _ in 0..MOST_THREADS {
        let Some(thread) = threads.next_above(last) else {
            return true;
        };
        if !thread_can_be(thread, ram) {
            return false;
        }
        last = thread.id;
    }
    true
}

/// Says whether a thread can be as it is: the loader's thread as it is always made, any other as
/// CreateThread makes it, with its stack in RAM, and woken no more often than can be counted.
fn thread_can_be(thread: &Thread, ram: &Ram) -> bool
    ensures { result ≡ thread_can_be (length ram.now) thread.now }
{
    has_its_fields(thread) && has_stack(thread, ram) && thread.wakeups <= MOST_WAKEUPS
}

/// Says whether a thread has what one of its id is made with.
fn has_its_fields(thread: &Thread) -> bool
    ensures { let t = thread.now in
        result ≡ if t.id == LOADER then is_loaders t else is_created t }
{
    if thread.id == LOADER {
        is_loaders(thread)
    } else {
        is_created(thread)
    }
}

/// Says whether a thread has what the loader's is made with.
fn is_loaders(thread: &Thread) -> bool
    ensures { result ≡ is_loaders thread.now }
{
    let param = &thread.param;
    param.attr == LOADER_ATTRIBUTE
        && param.option == 0
        && param.entry == 0
        && param.stack_size == LOADER_STACK_SIZE
        && param.priority.number() == LOADER_PRIORITY
        && thread.stack == LOADER_STACK
        && thread.gp == 0
}

/// Says whether a thread has what CreateThread accepts, and its stack is behind the kernel's block.
fn is_created(thread: &Thread) -> bool
    ensures { result ≡ is_created thread.now }
{
    let param = &thread.param;
    param.attr & ATTRIBUTES == param.attr && param.entry % 4 == 0 && KERNEL.size <= thread.stack
}

/// Says whether the stack of a thread has whole units and is in this RAM.
fn has_stack(thread: &Thread, ram: &Ram) -> bool
    ensures { result ≡ has_stack (length ram.now) thread.now }
{
    let len = thread.param.stack_size;
    thread.stack % BLOCK_UNIT == 0
        && len % BLOCK_UNIT == 0
        && 0 < len
        && ram.contains(thread.stack, len)
}
