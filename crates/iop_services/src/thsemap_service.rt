/// What `thsemap` does: semaphores (ps2sdk's thsemap.h).
#[derive(Clone, Copy, Debug, PartialEq, Eq)]
pub enum ThsemapService {
    /// 4: makes a semaphore.
    CreateSema,
    /// 5: deletes a semaphore.
    DeleteSema,
    /// 6, in a handler 7: signals a semaphore.
    SignalSema,
    /// 8: waits for a semaphore.
    WaitSema,
    /// 9: takes a semaphore, if it can be taken at once.
    PollSema,
    /// 11, in a handler 12: tells the state of a semaphore.
    ReferSemaStatus,
}
