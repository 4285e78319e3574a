//! Which bytes tables are whose items were named number by number.

use crate::tests::{ALARMS, DELAYS, LIBRARIES, is_written, last, lines, sink};
use iop_intr::{IrqLine, Irqs};
use iop_ports::MemSink;
use iop_registry::{Entry, Registry};
use iop_saved_tables::{save_alarms, save_delays, save_libraries, save_lines};
use iop_snapshot::{Encoder, SnapFault};
use iop_time::{Alarm, Clock, Delay};
use std::alloc::Global;
use std::process::Abort;

/// Makes the two alarms and writes them.
fn made_alarms(alloc: Global) -> Result<MemSink, SnapFault> {
    let mut sink = sink(alloc)?;
    let mut clock = Clock::new(alloc)?;
    let first = Alarm {
        number: 3,
        moment: 0x100,
        handler: 0x1_0004,
        arg: 5,
        gp: 6,
    };
    let _ = clock.put_alarm(first);
    let second = Alarm {
        number: 7,
        moment: 0x8000_0000_0000_0000,
        handler: 0x1_0004,
        arg: 8,
        gp: 9,
    };
    let _ = clock.put_alarm(second);
    let _ = save_alarms(&clock, &mut Encoder::new(&mut sink));
    Ok(sink)
}

/// Makes the two delays and writes them.
fn made_delays(alloc: Global) -> Result<MemSink, SnapFault> {
    let mut sink = sink(alloc)?;
    let mut clock = Clock::new(alloc)?;
    let first = Delay {
        number: 3,
        moment: 0x100,
        thread: 5,
    };
    let _ = clock.put_delay(first);
    let second = Delay {
        number: 7,
        moment: 0x8000_0000_0000_0000,
        thread: 6,
    };
    let _ = clock.put_delay(second);
    let _ = save_delays(&clock, &mut Encoder::new(&mut sink));
    Ok(sink)
}

/// Makes the two libraries and writes them.
fn made_libraries(alloc: Global) -> Result<MemSink, SnapFault> {
    let mut sink = sink(alloc)?;
    let mut registry = Registry::empty(alloc)?;
    for major in [1, 2] {
        let entry = Entry {
            name: [b'a', b'b', 0, 0, 0, 0, 0, 0],
            major,
            table: 0x1_0200,
        };
        let _ = registry.put_back(entry);
    }
    let _ = save_libraries(&registry, &mut Encoder::new(&mut sink));
    Ok(sink)
}

/// Makes the lines and writes them.
fn made_lines(alloc: Global) -> Result<MemSink, SnapFault> {
    let mut sink = sink(alloc)?;
    let mut irqs = Irqs::new();
    irqs.raise(0);
    let enabled = IrqLine {
        raised: false,
        enabled: true,
        handler: None,
    };
    irqs.put_line(1, enabled);
    irqs.put_line(63, last());
    let _ = save_lines(&irqs, &mut Encoder::new(&mut sink));
    Ok(sink)
}

#[test]
fn each_number_has_its_place(rt: HostRuntime) {
    let alloc = rt.alloc();
    assert_eq!(rt; is_written(made_alarms(alloc), &ALARMS), true);
    assert_eq!(rt; is_written(made_delays(alloc), &DELAYS), true);
    assert_eq!(rt; is_written(made_libraries(alloc), &LIBRARIES), true);
    assert_eq!(rt; is_written(made_lines(alloc), &lines()), true);
}
