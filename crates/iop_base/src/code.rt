/// What a kernel call answers: 0 or more for success, a negative number for a refusal.
///
/// The numbers are those of ps2sdk's `kerr.h`, which calls each `KE_` and a name of its own.
#[derive(Clone, Copy, Debug, PartialEq, Eq)]
pub struct Code(pub i32);

impl Code {
    /// Success.
    pub const OK: Code = Code(0);
    /// The call is not allowed in this context, a thread's or a handler's.
    pub const ILLEGAL_CONTEXT: Code = Code(-100);
    /// There is no such interrupt line.
    pub const ILLEGAL_INTERRUPT: Code = Code(-101);
    /// Interrupts are disabled already.
    pub const INTERRUPTS_DISABLED: Code = Code(-102);
    /// The interrupt line is disabled already.
    pub const LINE_DISABLED: Code = Code(-103);
    /// A handler stands there already.
    pub const HANDLER_FOUND: Code = Code(-104);
    /// No handler stands there.
    pub const HANDLER_NOT_FOUND: Code = Code(-105);
    /// A module imports a library that is not registered.
    pub const LINK_ERROR: Code = Code(-200);
    /// A file is not a module.
    pub const ILLEGAL_OBJECT: Code = Code(-201);
    /// A library of this name and major version is registered already.
    pub const LIBRARY_FOUND: Code = Code(-212);
    /// No library is registered with this table.
    pub const LIBRARY_NOT_FOUND: Code = Code(-213);
    /// The table is not an export table.
    pub const BAD_TABLE: Code = Code(-214);
    /// A bound stub names the library.
    pub const LIBRARY_IN_USE: Code = Code(-215);
    /// No memory, id or room is left.
    pub const NO_MEMORY: Code = Code(-400);
    /// An attribute is not accepted.
    pub const ILLEGAL_ATTRIBUTE: Code = Code(-401);
    /// A thread's entry is not a multiple of 4.
    pub const ILLEGAL_ENTRY: Code = Code(-402);
    /// A priority is out of range.
    pub const ILLEGAL_PRIORITY: Code = Code(-403);
    /// A stack is too small.
    pub const ILLEGAL_STACK_SIZE: Code = Code(-404);
    /// The call takes no such thread id.
    pub const ILLEGAL_THREAD: Code = Code(-406);
    /// No live thread has this id.
    pub const UNKNOWN_THREAD: Code = Code(-407);
    /// No live semaphore has this id.
    pub const UNKNOWN_SEMAPHORE: Code = Code(-408);
    /// No live event flag has this id.
    pub const UNKNOWN_EVENT_FLAG: Code = Code(-409);
    /// No live mailbox has this id.
    pub const UNKNOWN_MAILBOX: Code = Code(-410);
    /// No live variable pool has this id.
    pub const UNKNOWN_VARIABLE_POOL: Code = Code(-411);
    /// No live fixed pool has this id.
    pub const UNKNOWN_FIXED_POOL: Code = Code(-412);
    /// The thread is dormant.
    pub const DORMANT: Code = Code(-413);
    /// The thread is not dormant.
    pub const NOT_DORMANT: Code = Code(-414);
    /// The thread is not suspended.
    pub const NOT_SUSPENDED: Code = Code(-415);
    /// The thread is not waiting.
    pub const NOT_WAITING: Code = Code(-416);
    /// A wait is not possible now.
    pub const CANNOT_WAIT: Code = Code(-417);
    /// The wait was released.
    pub const WAIT_RELEASED: Code = Code(-418);
    /// The semaphore's count is zero.
    pub const SEMAPHORE_ZERO: Code = Code(-419);
    /// The semaphore's count is at its greatest value.
    pub const SEMAPHORE_OVERFLOW: Code = Code(-420);
    /// The event flag's condition does not hold.
    pub const FLAG_CONDITION: Code = Code(-421);
    /// A waiter stands where one alone is allowed.
    pub const SECOND_WAITER: Code = Code(-422);
    /// The pattern asked for is empty.
    pub const EMPTY_PATTERN: Code = Code(-423);
    /// The mailbox has no message.
    pub const NO_MESSAGE: Code = Code(-424);
    /// The object was deleted during the wait.
    pub const OBJECT_DELETED: Code = Code(-425);
    /// No block of the pool is out at this address.
    pub const ILLEGAL_BLOCK: Code = Code(-426);
    /// A size or a count is out of range.
    pub const ILLEGAL_SIZE: Code = Code(-427);
}
