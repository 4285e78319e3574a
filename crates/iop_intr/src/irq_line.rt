use crate::handler::Handler;

/// How an interrupt line stands.
#[derive(Clone, Copy, Debug, PartialEq, Eq, Drop)]
pub struct IrqLine {
    /// Whether it is raised.
    pub raised: bool,
    /// Whether it is enabled.
    pub enabled: bool,
    /// Its handler, where it has one.
    pub handler: Option<Handler>,
}
