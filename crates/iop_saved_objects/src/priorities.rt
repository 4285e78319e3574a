ghost use Rattle.std.specs.Prelude.{◌≡◌, ℕ, Option};

/// What tells the priorities of threads: those that were restored, since each thread waits with its
/// own.
pub trait Priorities {
    /// The priority of the thread of an id, if one is live.
    ghost of: { Self → ℕ → Option ℕ };

    /// Reads the priority of a thread. None exactly where none of this id is live.
    fn priority(&self, thread: u32) -> Option<u8>
        ensures { result ≡ of self.now thread };
}
