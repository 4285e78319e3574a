use iop_base::Code;
use iop_time::{Alarm, Clock, Delay, Due, NEVER, micros_of, moment_after, ticks_of};
use std::test::Fail;

#[test]
fn ticks_and_microseconds(rt: HostRuntime) -> Result<(), Fail> {
    let rows = [(0, 0), (1, 36), (125, 4608), (1_000_000, 36_864_000)];
    for (us, ticks) in rows {
        assert_eq!(rt; ticks_of(us), ticks);
    }
    let rows = [
        (36, 0),
        (37, 1),
        (4608, 125),
        (36_864_000, 1_000_000),
        (0xFFFF_FFFF_FFFF_FFFF, 500_399_958_596_721_777),
    ];
    for (ticks, us) in rows {
        assert_eq!(rt; micros_of(ticks), us);
    }
    Ok(())
}

#[test]
fn moments(rt: HostRuntime) -> Result<(), Fail> {
    let rows = [
        (1000, 256, 1256),
        (NEVER - 2, 1, NEVER - 1),
        (NEVER - 1, 1, NEVER),
        (0xFFFF_FFFF_FFFF_FFFF, 0xFFFF_FFFF_FFFF_FFFF, NEVER),
    ];
    for (t, ticks, moment) in rows {
        assert_eq!(rt; moment_after(t, ticks), moment);
    }
    Ok(())
}

/// An alarm and a delay come at one moment, and the alarm's handler gives 256.
#[test]
fn alarm_and_delay(rt: HostRuntime) -> Result<(), Fail> {
    let mut clock = Clock::new(rt.alloc())?;
    assert_eq!(rt; clock.set_alarm(1000, 0x1_0000, 7, 0), Code::OK);
    clock.delay(1000, 5);
    assert_eq!(rt; clock.due(999), None);
    assert_eq!(rt; clock.next_moment(), Some(1000));
    assert_eq!(rt; clock.due(1003), Some(1));
    let alarm = clock.take_due(1003);
    assert!(rt; matches!(alarm, Some(Due::Alarm(alarm)) if alarm.arg == 7));
    clock.set_again(1, 256);
    assert_eq!(rt; clock.due(1006), Some(2));
    let delay = clock.take_due(1006);
    assert!(rt; matches!(delay, Some(Due::Delay(delay)) if delay.thread == 5));
    assert_eq!(rt; clock.next_moment(), Some(1256));
    clock.remove(1);
    assert_eq!(rt; clock.next_moment(), None);
    Ok(())
}

/// An alarm that never comes stands. One that its handler cancels and sets anew has a new number.
#[test]
fn cancelled_and_set_anew(rt: HostRuntime) -> Result<(), Fail> {
    let mut clock = Clock::new(rt.alloc())?;
    assert_eq!(rt;
        clock.set_alarm(moment_after(9, NEVER), 0x1_0000, 7, 0),
        Code::OK
    );
    assert_eq!(rt; clock.next_moment(), None);
    assert_eq!(rt; clock.set_alarm(20, 0x1_0000, 7, 0), Code(-104));
    assert_eq!(rt; clock.cancel(0x1_0000, 7), Code::OK);
    assert_eq!(rt; clock.cancel(0x1_0000, 7), Code(-105));
    assert_eq!(rt; clock.set_alarm(20, 0x1_0000, 7, 0), Code::OK);
    clock.set_again(1, 256);
    assert_eq!(rt; clock.due(20), Some(2));
    Ok(())
}

/// A delay that is dropped does not come; to drop that of a thread which has none changes nothing.
#[test]
fn dropped_delay(rt: HostRuntime) -> Result<(), Fail> {
    let mut clock = Clock::new(rt.alloc())?;
    clock.delay(10, 5);
    clock.drop_delay(6);
    assert_eq!(rt; clock.due(10), Some(1));
    clock.drop_delay(5);
    assert_eq!(rt; clock.due(10), None);
    assert_eq!(rt; clock.next_moment(), None);
    Ok(())
}

#[test]
fn room_for_255_alarms(rt: HostRuntime) -> Result<(), Fail> {
    let mut clock = Clock::new(rt.alloc())?;
    for arg in 0..255 {
        assert_eq!(rt; clock.set_alarm(20, 0x1_0000, arg, 0), Code::OK);
    }
    assert_eq!(rt; clock.set_alarm(20, 0x1_0000, 255, 0), Code(-400));
    assert_eq!(rt; clock.set_alarm(20, 0x1_0000, 254, 0), Code(-104));
    Ok(())
}

/// What stood in a clock is put back. What may not follow is refused.
#[test]
fn what_stood_is_put_back(rt: HostRuntime) -> Result<(), Fail> {
    let mut clock = Clock::new(rt.alloc())?;
    let first = Alarm {
        number: 2,
        moment: 1000,
        handler: 0x1_0000,
        arg: 7,
        gp: 0,
    };
    let second = Alarm {
        number: 5,
        arg: 8,
        ..first
    };
    let rows = [
        (Alarm { number: 0, ..first }, false),
        (
            Alarm {
                moment: NEVER + 1,
                ..first
            },
            false,
        ),
        (first, true),
        (Alarm { number: 5, ..first }, false),
        (
            Alarm {
                number: 2,
                ..second
            },
            false,
        ),
        (second, true),
    ];
    for (alarm, wanted) in rows {
        assert_eq!(rt; clock.put_alarm(alarm), wanted);
    }
    let delay = Delay {
        number: 3,
        moment: 500,
        thread: 4,
    };
    let rows = [
        (Delay { number: 5, ..delay }, false),
        (delay, true),
        (Delay { number: 4, ..delay }, false),
        (Delay { thread: 6, ..delay }, false),
    ];
    for (delay, wanted) in rows {
        assert_eq!(rt; clock.put_delay(delay), wanted);
    }
    assert_eq!(rt; clock.next_number(), 6);
    assert_eq!(rt; clock.put_next(5), false);
    assert_eq!(rt; clock.put_next(9), true);
    assert_eq!(rt; clock.next_number(), 9);
    assert_eq!(rt; clock.alarms(), [first, second].as_slice());
    assert_eq!(rt; clock.delays(), [delay].as_slice());
    assert_eq!(rt; clock.next_moment(), Some(500));
    assert_eq!(rt; clock.due(1000), Some(3));
    Ok(())
}
