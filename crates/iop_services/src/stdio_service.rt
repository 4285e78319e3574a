/// What `stdio` does: the console (ps2sdk's stdio.h).
#[derive(Clone, Copy, Debug, PartialEq, Eq)]
pub enum StdioService {
    /// 4: prints a text to the console.
    Printf,
}
