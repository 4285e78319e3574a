//! The codes of the services that the tests call.

pub(crate) const REGISTER_HANDLER: u32 = 0x204;

pub(crate) const ENABLE_LINE: u32 = 0x206;

pub(crate) const CREATE: u32 = 0x304;

pub(crate) const START: u32 = 0x306;

pub(crate) const DISABLE: u32 = 0x30C;

pub(crate) const ENABLE: u32 = 0x30D;

pub(crate) const REFER_STATUS: u32 = 0x316;

pub(crate) const SLEEP: u32 = 0x318;

pub(crate) const CREATE_SEMA: u32 = 0x404;

pub(crate) const DELETE_SEMA: u32 = 0x405;

pub(crate) const SIGNAL_SEMA: u32 = 0x406;

pub(crate) const SIGNAL_SEMA_BY_HANDLER: u32 = 0x407;

pub(crate) const WAIT_SEMA: u32 = 0x408;

pub(crate) const POLL_SEMA: u32 = 0x409;

pub(crate) const REFER_SEMA_STATUS: u32 = 0x40B;

pub(crate) const UNLISTED: u32 = 0x43F;
