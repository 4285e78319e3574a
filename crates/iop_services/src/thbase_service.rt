/// What `thbase` does: threads, and time (ps2sdk's thbase.h).
#[derive(Clone, Copy, Debug, PartialEq, Eq)]
pub enum ThbaseService {
    /// 4: makes a thread.
    CreateThread,
    /// 5: deletes a dormant thread.
    DeleteThread,
    /// 6: starts a dormant thread.
    StartThread,
    /// 8: ends the thread that calls it.
    ExitThread,
    /// 9: ends the thread that calls it, and deletes it.
    ExitDeleteThread,
    /// 10, in a handler 11: ends another thread.
    TerminateThread,
    /// 12: disables dispatch.
    DisableDispatchThread,
    /// 13: enables dispatch.
    EnableDispatchThread,
    /// 14, in a handler 15: changes the priority of a thread.
    ChangeThreadPriority,
    /// 16, in a handler 17: moves the first ready thread of a priority to the end.
    RotateThreadReadyQueue,
    /// 18, in a handler 19: ends the wait of a thread.
    ReleaseWaitThread,
    /// 20: tells the id of the thread that calls it.
    GetThreadId,
    /// 22, in a handler 23: tells the state of a thread.
    ReferThreadStatus,
    /// 24: waits until it is woken.
    SleepThread,
    /// 25, in a handler 26: wakes a sleeping thread.
    WakeupThread,
    /// 27, in a handler 28: forgets the wakeups of a thread.
    CancelWakeupThread,
    /// 29, in a handler 30: suspends a thread.
    SuspendThread,
    /// 31, in a handler 32: resumes a suspended thread.
    ResumeThread,
    /// 33: waits for a time.
    DelayThread,
    /// 34: tells the time.
    GetSystemTime,
    /// 35, in a handler 36: sets an alarm.
    SetAlarm,
    /// 37, in a handler 38: takes an alarm away.
    CancelAlarm,
    /// 39: makes ticks of microseconds.
    USec2SysClock,
    /// 40: makes seconds and microseconds of ticks.
    SysClock2USec,
}
