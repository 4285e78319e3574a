/// What `loadcore` does: the libraries that are registered (ps2sdk's loadcore.h).
#[derive(Clone, Copy, Debug, PartialEq, Eq)]
pub enum LoadcoreService {
    /// 4: flushes the instruction cache.
    FlushIcache,
    /// 5: flushes the data cache.
    FlushDcache,
    /// 6: registers a library by its export table.
    RegisterLibraryEntries,
    /// 7: takes a registered library out.
    ReleaseLibraryEntries,
}
