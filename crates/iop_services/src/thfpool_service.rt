/// What `thfpool` does: pools of which blocks of one size are taken. The names are those of ps2sdk's
/// thfpool.h, the numbers this project's own.
#[derive(Clone, Copy, Debug, PartialEq, Eq)]
pub enum ThfpoolService {
    /// 4: makes a pool.
    CreateFpl,
    /// 5: deletes a pool.
    DeleteFpl,
    /// 6: takes a block of a pool, and waits until one is free.
    AllocateFpl,
    /// 7: takes a block of a pool, if one is free.
    PAllocateFpl,
    /// 8, in a handler 9: gives a block back.
    FreeFpl,
    /// 11, in a handler 12: tells the state of a pool.
    ReferFplStatus,
}
