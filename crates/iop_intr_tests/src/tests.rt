use iop_base::Code;
use iop_intr::{Handler, IrqLine, Irqs};
use std::test::Fail;

/// A call of the table.
#[derive(Clone, Copy)]
enum Call {
    Register(u32),
    Release(u32),
    Enable(u32),
    Disable(u32),
}

fn answer(irqs: &mut Irqs, call: Call) -> Code {
    match call {
        Call::Register(line) => irqs.register(line, 0x1000, 7, 0x8000),
        Call::Release(line) => irqs.release(line),
        Call::Enable(line) => irqs.enable(line),
        Call::Disable(line) => irqs.disable(line),
    }
}

#[test]
fn answers(rt: HostRuntime) -> Result<(), Fail> {
    let mut irqs = Irqs::new();
    let rows = [
        (Call::Enable(64), -101),
        (Call::Release(5), -105),
        (Call::Register(64), -101),
        (Call::Register(63), 0),
        (Call::Register(63), -104),
        (Call::Disable(63), -103),
        (Call::Enable(63), 0),
        (Call::Disable(63), 0),
        (Call::Disable(64), -101),
        (Call::Enable(63), 0),
        (Call::Release(63), 0),
        (Call::Release(63), -105),
        (Call::Disable(63), -103),
        (Call::Release(0xFFFF_FFFF), -101),
    ];
    for (call, code) in rows {
        assert_eq!(rt; answer(&mut irqs, call).0, code);
    }
    Ok(())
}

#[test]
fn deliveries(rt: HostRuntime) -> Result<(), Fail> {
    let mut irqs = Irqs::new();
    for line in [3, 9] {
        assert_eq!(rt;
            irqs.register(u32::from(line), 0x1000, u32::from(line), 0x8000),
            Code::OK
        );
        irqs.raise(line);
        assert_eq!(rt; irqs.deliverable(), None);
    }
    for line in [9, 3] {
        assert_eq!(rt; irqs.enable(u32::from(line)), Code::OK);
        assert_eq!(rt; irqs.deliverable(), Some(line));
    }
    for (value, line, next) in [(1, 3, Some(9)), (0, 9, None)] {
        let delivered = irqs.deliverable();
        assert_eq!(rt; delivered, Some(line));
        if let Some(line) = delivered {
            assert_eq!(rt; irqs.deliver(line).arg, u32::from(line));
            irqs.finish(line, value);
        }
        assert_eq!(rt; irqs.deliverable(), next);
    }
    irqs.raise(9);
    assert_eq!(rt; irqs.deliverable(), None);
    irqs.raise(3);
    assert_eq!(rt; irqs.deliverable(), Some(3));
    let raised = irqs.copied();
    irqs.lower(3);
    assert_eq!(rt; irqs.deliverable(), None);
    assert_eq!(rt; raised.deliverable(), Some(3));
    irqs.raise(3);
    assert_eq!(rt; irqs.deliverable(), Some(3));
    Ok(())
}

#[test]
fn lines_are_put_back(rt: HostRuntime) -> Result<(), Fail> {
    let mut irqs = Irqs::new();
    irqs.raise(63);
    assert_eq!(rt; irqs.register(63, 0x1000, 7, 0x8000), Code::OK);
    assert_eq!(rt; irqs.enable(0), Code::OK);
    let mut others = Irqs::new();
    others.raise(5);
    assert_eq!(rt; others.register(5, 0x2000, 8, 0x9000), Code::OK);
    assert_eq!(rt; others.enable(63), Code::OK);
    assert_eq!(rt; irqs.len(), 64);
    for number in 0..64 {
        others.put_line(number, irqs.line(number));
    }
    let handler = Handler {
        address: 0x1000,
        arg: 7,
        gp: 0x8000,
    };
    let rows = [
        (0, false, true, None),
        (5, false, false, None),
        (63, true, false, Some(handler)),
    ];
    for (number, raised, enabled, handler) in rows {
        let line = IrqLine {
            raised,
            enabled,
            handler,
        };
        assert_eq!(rt; others.line(number), line);
    }
    Ok(())
}
