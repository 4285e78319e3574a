//! Facts about the definitions that no call computes. Each is the contract of a function that does
//! nothing.

ghost use Rattle.iop_exec.specs.Laws.{RowsGoToNext, RowsStayStraight, RowsStaySteady};
ghost use Rattle.iop_exec.specs.LoadDelays.{LoadsBegin, LoadsArrive, LoadsArriveBehindCalls};

/// States that a row goes to the instruction at `next`, unless it faults.
pub fn rows_go_to_next()
    ensures { RowsGoToNext }
{}

/// States that a processor whose `next` is `pc + 4` outside delay slots stays so over each row.
pub fn rows_stay_straight()
    ensures { RowsStayStraight }
{}

/// States that a processor that is straight, has its 32 registers, holds 0 in register 0 and has
/// nothing pending for it stays so over each row.
pub fn rows_stay_steady()
    ensures { RowsStaySteady }
{}

/// States that a load leaves what it brings pending, and no register changed; nothing is ever
/// pending for register 0, and no other instruction leaves anything pending.
pub fn loads_begin()
    ensures { LoadsBegin }
{}

/// States that what is pending is in its register behind the next instruction, unless that writes
/// the register itself, and that it changes nothing else of what that instruction does: only an
/// `lwl` or `lwr` of the register sees it, and merges with it.
pub fn loads_arrive()
    ensures { LoadsArrive }
{}

/// States that what is pending is in its register behind a `syscall`.
pub fn loads_arrive_behind_calls()
    ensures { LoadsArriveBehindCalls }
{}
