use crate::context::Context;
use crate::service::Service;

/// A service that a number of a kernel library lists.
#[derive(Clone, Copy, Debug, PartialEq, Eq)]
pub struct Row {
    /// The service.
    pub service: Service,
    /// From where this number may be called.
    pub context: Context,
}
