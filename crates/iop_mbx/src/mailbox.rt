ghost use Rattle.std.specs.Prelude.{◌≡◌};
ghost use Rattle.iop_mbx.specs.Mailboxes.{waiters_by_priority, messages_by_priority, is_attribute};
ghost use Rattle.iop_mbx.specs.Restoring.{can_have};

/// The attribute bit of a mailbox whose waiters are chosen by their priority (ps2sdk: thmsgbx.h,
/// `MBA_THPRI`). Without it they are chosen by arrival.
pub const WAITERS_BY_PRIORITY: u32 = 1;

/// The attribute bit of a mailbox whose messages are received by their priority (ps2sdk: thmsgbx.h,
/// `MBA_MSPRI`). Without it they are received by arrival.
pub const MESSAGES_BY_PRIORITY: u32 = 4;

/// What is known of a mailbox, but for its messages and the threads that wait for one.
#[derive(Clone, Copy, Debug, Drop, PartialEq, Eq)]
pub struct Mailbox {
    /// Its attribute: bits of `WAITERS_BY_PRIORITY` and `MESSAGES_BY_PRIORITY`.
    pub attr: u32,
    /// A word of the guest's own.
    pub option: u32,
}

impl Mailbox {
    /// Says whether the threads that wait for it are chosen by their priority.
    pub fn waiters_by_priority(&self) -> bool
        ensures { result ≡ waiters_by_priority self.now.attr }
    {
        self.attr & WAITERS_BY_PRIORITY != 0
    }

    /// Says whether its messages are received by their priority.
    pub fn messages_by_priority(&self) -> bool
        ensures { result ≡ messages_by_priority self.now.attr }
    {
        self.attr & MESSAGES_BY_PRIORITY != 0
    }

    /// Says whether it can have a message of a priority: 0 where it does not look at it.
    pub(crate) fn can_have(&self, priority: u8) -> bool
        ensures { result ≡ can_have self.now.attr priority }
    {
        self.messages_by_priority() || priority == 0
    }
}

/// Says whether a word is an attribute that a mailbox can have.
pub(crate) fn is_attribute(attr: u32) -> bool
    ensures { result ≡ is_attribute attr }
{
    let known = WAITERS_BY_PRIORITY | MESSAGES_BY_PRIORITY;
    attr & known == attr
}
