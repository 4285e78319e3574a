/// What `thevent` does: event flags (ps2sdk's thevent.h).
#[derive(Clone, Copy, Debug, PartialEq, Eq)]
pub enum TheventService {
    /// 4: makes an event flag.
    CreateEventFlag,
    /// 5: deletes an event flag.
    DeleteEventFlag,
    /// 6, in a handler 7: sets bits of an event flag.
    SetEventFlag,
    /// 8, in a handler 9: clears bits of an event flag.
    ClearEventFlag,
    /// 10: waits for bits of an event flag.
    WaitEventFlag,
    /// 11: tests bits of an event flag.
    PollEventFlag,
    /// 13, in a handler 14: tells the state of an event flag.
    ReferEventFlagStatus,
}
