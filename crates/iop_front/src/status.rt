ghost use Rattle.std.specs.Prelude.{◌≡◌};
ghost use Rattle.iop_front.specs.Statuses.{status_code, status_of};

use iop_base::Stop;

/// How a command ends. Its code is the program's exit status.
#[derive(Clone, Copy, Debug, PartialEq, Eq)]
pub enum Status {
    /// 0: the machine had nothing left to do.
    Quiet,
    /// 10: as many instructions as allowed were executed.
    Budget,
    /// 11: the guest faulted.
    GuestFault,
    /// 20: the words are no command.
    BadWords,
    /// 21: a line of the script is bad.
    BadScript,
    /// 22: a file cannot be read.
    CannotRead,
    /// 23: a file has more than 4,194,304 bytes, or a snapshot's more than 301,989,888.
    TooLong,
    /// 24: a write to the console or the trace failed, or the snapshot could not be written.
    SinkFault,
    /// 25: a file is no snapshot.
    BadSnapshot,
    /// 30: stands for want of memory. Nothing was written.
    NoMemory,
}

impl Status {
    /// The exit status.
    pub fn code(self) -> u8
        ensures { result ≡ status_code self }
    {
        match self {
            Status::Quiet => 0,
            Status::Budget => 10,
            Status::GuestFault => 11,
            Status::BadWords => 20,
            Status::BadScript => 21,
            Status::CannotRead => 22,
            Status::TooLong => 23,
            Status::SinkFault => 24,
            Status::BadSnapshot => 25,
            Status::NoMemory => 30,
        }
    }
}

impl From<Stop> for Status {
    ghost from_gives = { λ stop status. status ≡ status_of stop };

    fn from(stop: Stop) -> Status {
        match stop {
            Stop::Quiet => Status::Quiet,
            Stop::Budget => Status::Budget,
            Stop::Fault(..) => Status::GuestFault,
        }
    }
}
