/// What `thvpool` does: pools of which memory of any size is taken. The names are those of ps2sdk's
/// thvpool.h, the numbers this project's own.
#[derive(Clone, Copy, Debug, PartialEq, Eq)]
pub enum ThvpoolService {
    /// 4: makes a pool.
    CreateVpl,
    /// 5: deletes a pool.
    DeleteVpl,
    /// 6: takes memory of a pool, and waits until it is there.
    AllocateVpl,
    /// 7: takes memory of a pool, if it is there.
    PAllocateVpl,
    /// 8, in a handler 9: gives memory back.
    FreeVpl,
    /// 11, in a handler 12: tells the state of a pool.
    ReferVplStatus,
}
