/// What `sysmem` does: blocks of memory, and the console (ps2sdk's sysmem.h).
#[derive(Clone, Copy, Debug, PartialEq, Eq)]
pub enum SysmemService {
    /// 4: takes a block of memory.
    AllocSysMemory,
    /// 5: gives a block back.
    FreeSysMemory,
    /// 6: tells the size of memory.
    QueryMemSize,
    /// 7: tells the size of the greatest free range.
    QueryMaxFreeMemSize,
    /// 8: tells how much memory is free.
    QueryTotalFreeMemSize,
    /// 9: tells where the block of an address begins.
    QueryBlockTopAddress,
    /// 10: tells the size of the block of an address.
    QueryBlockSize,
    /// 14: prints a text to the console.
    Kprintf,
}
