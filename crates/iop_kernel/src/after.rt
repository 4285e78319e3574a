use iop_base::GuestFault;

/// What becomes of the caller of a service.
#[derive(Clone, Copy, Debug, PartialEq, Eq)]
pub enum After {
    /// It goes on.
    Resume,
    /// It does not go on before another call: it waits, has ended, or stands in the ready list.
    Switch,
    /// It is the loader's thread, and its module returned this word.
    ModuleReturned(u32),
    /// Its `syscall` faults, and changes nothing.
    Fault(GuestFault),
}
