//! The priorities of the threads that were restored.

ghost use Rattle.std.specs.Prelude.{◌≡◌, ◌≤◌, ◌++◌, length, option_map, map};
ghost use Rattle.iop_ready.specs.declared.slot.TheConstants.{MOST_THREADS as MOST};
ghost use Rattle.iop_saved_kernel.specs.ThreadLists.{priorities_in, priority_among};
ghost use Rattle.iop_thread.specs.Standing.{Stands};
ghost use Rattle.iop_thread.specs.ThreadTable.{ThreadTable};

use arrayvec::ArrayVec;
use iop_ready::{MOST_THREADS, Ready};
use iop_saved_objects::Priorities;
use iop_thread::Threads;

/// A thread and its priority.
#[derive(Clone, Copy, Debug, Default, PartialEq, Eq)]
pub struct ThreadPriority {
    /// The id of the thread.
    pub thread: u32,
    /// Its priority.
    pub priority: u8,
}

/// The priorities of all threads of a table.
#[derive(Drop)]
pub(crate) struct ThreadPriorities {
    threads: ArrayVec<ThreadPriority, MOST_THREADS>,
}

impl ThreadPriorities {
    /// Tells the priorities of the threads of a table.
    pub(crate) fn of<R: Ready>(table: &Threads<R>) -> Self
        requires sound { (s : ThreadTable) × Stands R.stands table.now s }
        ensures { (s : ThreadTable) → Stands R.stands table.now s
            → result.threads.items ≡ priorities_in s.live }
    {
        let mut threads = ArrayVec::new();
        let mut last = 0;
        for _ in 0..MOST_THREADS {
            let Some(thread) = table.next_above(last) else {
                return ThreadPriorities { threads };
            };
            last = thread.id;
            threads.push(ThreadPriority {
                thread: thread.id,
                priority: thread.priority.number(),
            });
        }
        ThreadPriorities { threads }
    }
}

impl Priorities for ThreadPriorities {
    ghost of = { λ priorities id. priority_among priorities.threads.items id };

    fn priority(&self, thread: u32) -> Option<u8> {
        let found = self.threads.iter().find(|one| one.thread == thread)?;
        Some(found.priority)
    }
}
