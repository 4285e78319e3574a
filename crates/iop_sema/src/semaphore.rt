ghost use Rattle.std.specs.Prelude.{◌≡◌};
ghost use Rattle.iop_sema.specs.Restoring.{is_sound};
ghost use Rattle.iop_sema.specs.Semaphores.{by_priority, is_attribute};

/// The attribute of a semaphore whose waiters are chosen by their priority (ps2sdk: thsemap.h,
/// `SA_THPRI`). With 0 they are chosen by arrival (`SA_THFIFO`).
pub const BY_PRIORITY: u32 = 1;

/// What is known of a semaphore, but for the threads that wait for it.
#[derive(Clone, Copy, Debug, Drop, PartialEq, Eq)]
pub struct Semaphore {
    /// Its attribute: 0, or `BY_PRIORITY`.
    pub attr: u32,
    /// A word of the guest's own.
    pub option: u32,
    /// The count that it was made with.
    pub initial: u32,
    /// The most that its count can be.
    pub max: u32,
    /// Its count.
    pub count: u32,
}

impl Semaphore {
    /// Says whether the threads that wait for it are chosen by their priority.
    pub fn by_priority(&self) -> bool
        ensures { result ≡ by_priority self.now }
    {
        self.attr == BY_PRIORITY
    }

    /// Says whether a semaphore can have its attribute and its counts: neither the first count nor
    /// the count is over the most.
    pub(crate) fn is_sound(&self) -> bool
        ensures { result ≡ is_sound self.now }
    {
        is_attribute(self.attr) && self.initial <= self.max && self.count <= self.max
    }
}

/// Says whether a word is an attribute that a semaphore can have.
pub(crate) fn is_attribute(attr: u32) -> bool
    ensures { result ≡ is_attribute attr }
{
    attr <= BY_PRIORITY
}
