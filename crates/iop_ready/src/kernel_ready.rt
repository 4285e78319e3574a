use crate::queue_ready::QueueReady;

/// The ready list of the kernel.
pub type KernelReady = QueueReady;
