ghost use Rattle.std.specs.Prelude.{◌≡◌};
ghost use Rattle.iop_pools.specs.Pools.{is_attribute};

/// The attribute of a pool whose waiters are chosen by their priority (ps2sdk: thvpool.h,
/// `VA_THPRI`; thfpool.h, `FA_THPRI`). With 0 they are chosen by arrival (`VA_THFIFO`,
/// `FA_THFIFO`).
pub const BY_PRIORITY: u32 = 1;

/// Says whether a word is an attribute that a pool can have.
pub(crate) fn is_attribute(attr: u32) -> bool
    ensures { result ≡ is_attribute attr }
{
    attr <= BY_PRIORITY
}
