use crate::kind::Kind;

/// What a thread waits for.
#[derive(Clone, Copy, Debug, PartialEq, Eq)]
pub enum Wait {
    /// To be woken.
    Sleep,
    /// For a time.
    Delay,
    /// For the object of this kind and id.
    Object(Kind, u32),
}

impl Wait {
    ghost use Rattle.std.specs.Prelude.{◌≡◌};
    ghost use Rattle.iop_thread.specs.States.{kind_number, object_of};

    /// Tells the number of its kind: 1 to 7 (ps2sdk: thread.h).
    pub fn kind(self) -> u32
        ensures { result ≡ kind_number self }
    {
        match self {
            Wait::Sleep => 1,
            Wait::Delay => 2,
            Wait::Object(Kind::Semaphore, _) => 3,
            Wait::Object(Kind::EventFlag, _) => 4,
            Wait::Object(Kind::Mailbox, _) => 5,
            Wait::Object(Kind::VariablePool, _) => 6,
            Wait::Object(Kind::FixedPool, _) => 7,
        }
    }

    /// Tells the id of the object that it is for: 0 where it is for none.
    pub fn object(self) -> u32
        ensures { result ≡ object_of self }
    {
        match self {
            Wait::Sleep | Wait::Delay => 0,
            Wait::Object(_, id) => id,
        }
    }
}
