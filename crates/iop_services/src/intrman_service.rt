/// What `intrman` does: interrupts, and the handlers of their lines (ps2sdk's intrman.h).
#[derive(Clone, Copy, Debug, PartialEq, Eq)]
pub enum IntrmanService {
    /// 4: gives an interrupt line a handler.
    RegisterIntrHandler,
    /// 5: takes the handler of an interrupt line away.
    ReleaseIntrHandler,
    /// 6: enables an interrupt line.
    EnableIntr,
    /// 7: disables an interrupt line.
    DisableIntr,
    /// 8: turns interrupts off.
    CpuDisableIntr,
    /// 9: turns interrupts on.
    CpuEnableIntr,
    /// 17: turns interrupts off, and tells whether they were on.
    CpuSuspendIntr,
    /// 18: turns interrupts on or off.
    CpuResumeIntr,
    /// 23: tells whether a handler executes.
    QueryIntrContext,
}
