/// From where a service may be called.
#[derive(Clone, Copy, Debug, PartialEq, Eq)]
pub enum Context {
    /// From a thread alone.
    Thread,
    /// From a handler alone.
    Handler,
    /// From both.
    Both,
}

impl Context {
    ghost use Rattle.std.specs.Prelude.{◌≡◌};
    ghost use Rattle.iop_services.specs.Table.{allows};

    /// Says whether a call comes from where it may: from a handler or from a thread.
    pub fn allows(self, in_handler: bool) -> bool
        ensures { result ≡ allows self in_handler }
    {
        match self {
            Context::Thread => !in_handler,
            Context::Handler => in_handler,
            Context::Both => true,
        }
    }
}
