use crate::codes::{
    DELETE_SEMA, DISABLE, ENABLE, ENABLE_LINE, POLL_SEMA, REFER_SEMA_STATUS, REFER_STATUS,
    REGISTER_HANDLER, SIGNAL_SEMA, SIGNAL_SEMA_BY_HANDLER, SLEEP, START, UNLISTED, WAIT_SEMA,
};
use crate::steps::{Step, take_all};
use crate::world::World;
use iop_base::Line;
use std::test::Fail;

/// Where the status of a thread or semaphore is written.
const STATUS: u32 = 0x2_0100;

#[test]
fn threads_are_made(rt: HostRuntime) -> Result<(), Fail> {
    let steps = [
        Step::Runs(1),
        Step::Create([1, 0, 0x1_0000, 512, 64], -401),
        Step::Create([0, 0, 2, 512, 64], -402),
        Step::Create([0, 0, 0x1_0000, 512, 127], -403),
        Step::Create([0, 0, 0x1_0000, 255, 64], -404),
        Step::Create([0, 0, 0x1_0000, 512, 64], 2),
        Step::Call(REFER_STATUS, 2, STATUS, 0),
        Step::Word(STATUS + 16, 0x1F_FE00),
    ];
    take_all(&rt, &mut World::new(rt.alloc())?, &steps);
    Ok(())
}

#[test]
fn threads_run(rt: HostRuntime) -> Result<(), Fail> {
    let steps = [
        Step::Runs(1),
        Step::Stays,
        Step::Told(Line::Run(1)),
        Step::Call(START, 1, 0, -406),
        Step::Call(DISABLE, 0, 0, 0),
        Step::Call(SLEEP, 0, 0, -417),
        Step::Call(ENABLE, 0, 0, 0),
        Step::Create([0, 0, 0x1_0000, 512, 1], 2),
        Step::Call(START, 2, 0, 0),
        Step::Runs(2),
        Step::Waits(SLEEP, 0),
        Step::Answer(0),
        Step::Runs(1),
    ];
    take_all(&rt, &mut World::new(rt.alloc())?, &steps);
    Ok(())
}

#[test]
fn unlisted_and_misplaced_calls_are_refused(rt: HostRuntime) -> Result<(), Fail> {
    let unlisted = Line::Unlisted {
        lib: 4,
        index: 0x3F,
    };
    let steps = [
        Step::Runs(1),
        Step::Call(UNLISTED, 0, 0, -1),
        Step::Told(unlisted),
        Step::Call(SIGNAL_SEMA_BY_HANDLER, 0, 0, -100),
    ];
    take_all(&rt, &mut World::new(rt.alloc())?, &steps);
    Ok(())
}

#[test]
fn semaphores_count_and_wake(rt: HostRuntime) -> Result<(), Fail> {
    let steps = [
        Step::Runs(1),
        Step::CreateSema([2, 0, 1, 1], -401),
        Step::CreateSema([1, 7, 1, 1], 1),
        Step::Call(POLL_SEMA, 1, 0, 0),
        Step::Call(POLL_SEMA, 1, 0, -419),
        Step::Call(SIGNAL_SEMA, 1, 0, 0),
        Step::Call(SIGNAL_SEMA, 1, 0, -420),
        Step::Call(WAIT_SEMA, 1, 0, 0),
        Step::Create([0, 0, 0x1_0000, 512, 1], 2),
        Step::Call(START, 2, 0, 0),
        Step::Runs(2),
        Step::Waits(WAIT_SEMA, 1),
        Step::Runs(1),
        Step::Call(REFER_SEMA_STATUS, 1, STATUS, 0),
        Step::Word(STATUS + 4, 7),
        Step::Word(STATUS + 20, 1),
        Step::Call(DELETE_SEMA, 1, 0, 0),
        Step::Runs(2),
        Step::Answer(-425),
        Step::Call(POLL_SEMA, 1, 0, -408),
    ];
    take_all(&rt, &mut World::new(rt.alloc())?, &steps);
    Ok(())
}

#[test]
fn lines_are_delivered(rt: HostRuntime) -> Result<(), Fail> {
    let mut world = World::new(rt.alloc())?;
    assert_eq!(rt; world.dispatch(), (true, Some(Line::Run(1))));
    world.cpu.regs[6] = 0x1_0000;
    world.cpu.regs[7] = 7;
    let steps = [
        Step::Call(REGISTER_HANDLER, 5, 0, 0),
        Step::Call(ENABLE_LINE, 5, 0, 0),
    ];
    take_all(&rt, &mut world, &steps);
    assert_eq!(rt; world.deliver(5), (true, Some(Line::Irq(5))));
    assert_eq!(rt; world.cpu.pc, 0x1_0000);
    assert_eq!(rt; world.cpu.regs[4], 7);
    Ok(())
}
