ghost use Rattle.std.specs.Prelude.{◌≡◌};
ghost use Rattle.iop_event.specs.EventFlags.{is_attribute};

/// The attribute of an event flag for which more than one thread may wait (ps2sdk: thevent.h,
/// `EA_MULTI`). With 0 one alone may (`EA_SINGLE`).
pub const MANY_WAITERS: u32 = 2;

/// What is known of an event flag, but for the threads that wait for it.
#[derive(Clone, Copy, Debug, Drop, PartialEq, Eq)]
pub struct EventFlag {
    /// Its attribute: 0, or `MANY_WAITERS`.
    pub attr: u32,
    /// A word of the guest's own.
    pub option: u32,
    /// The pattern that it was made with.
    pub first: u32,
    /// Its pattern of bits.
    pub pattern: u32,
}

/// Says whether a word is an attribute that an event flag can have.
pub(crate) fn is_attribute(attr: u32) -> bool
    ensures { result ≡ is_attribute attr }
{
    attr == 0 || attr == MANY_WAITERS
}
