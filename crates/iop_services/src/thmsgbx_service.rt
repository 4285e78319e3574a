/// What `thmsgbx` does: mailboxes (ps2sdk's thmsgbx.h).
#[derive(Clone, Copy, Debug, PartialEq, Eq)]
pub enum ThmsgbxService {
    /// 4: makes a mailbox.
    CreateMbx,
    /// 5: deletes a mailbox.
    DeleteMbx,
    /// 6, in a handler 7: sends a message to a mailbox.
    SendMbx,
    /// 8: waits for a message of a mailbox.
    ReceiveMbx,
    /// 9: takes a message of a mailbox, if there is one.
    PollMbx,
    /// 11, in a handler 12: tells the state of a mailbox.
    ReferMbxStatus,
}
