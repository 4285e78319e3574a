/// What `sysclib` does: memory, strings and numbers of the C library. The names are those of ps2sdk's
/// sysclib.h, the numbers this project's own.
#[derive(Clone, Copy, Debug, PartialEq, Eq)]
pub enum SysclibService {
    /// 10: finds a byte in memory.
    Memchr,
    /// 11: compares memory.
    Memcmp,
    /// 12: copies memory.
    Memcpy,
    /// 13: copies memory, as 12 does.
    Memmove,
    /// 14: fills memory with a byte.
    Memset,
    /// 17: fills memory with zeros.
    Bzero,
    /// 19: writes formatted text to memory.
    Sprintf,
    /// 20: appends a string to a string.
    Strcat,
    /// 21: finds the first place of a byte in a string.
    Strchr,
    /// 22: compares strings.
    Strcmp,
    /// 23: copies a string.
    Strcpy,
    /// 27: tells the length of a string.
    Strlen,
    /// 29: compares the fronts of strings.
    Strncmp,
    /// 30: copies the front of a string, and fills up with zeros.
    Strncpy,
    /// 32: finds the last place of a byte in a string.
    Strrchr,
    /// 36: reads a number.
    Strtol,
}
