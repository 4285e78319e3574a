ghost use Rattle.std.specs.Prelude.{[], ◌∷◌};
ghost use Rattle.iop_base.specs.Piece.{Traced};
ghost use Rattle.iop_base.specs.Output.{Gives};
ghost use Rattle.iop_base.specs.Text.{line_bytes};
ghost use Rattle.iop_trace.specs.Outs.{sinks, Leaves};

use iop_base::{Code, GuestFault, Kept, Line, Lines, Stop};
use iop_ports::{Failed, Sink, TrickleSink};
use iop_trace::{Out, dump_line, line_text};
use std::alloc::Global;
use std::test::Fail;

/// Takes whole pieces, and counts the writes.
#[derive(Drop)]
struct Counter {
    bytes: Vec<u8>,
    writes: u32,
    faults: u64,
}

impl Counter {
    fn new(alloc: Global) -> Self {
        Counter {
            bytes: Vec::new(alloc),
            writes: 0,
            faults: 0,
        }
    }
}

impl Sink for Counter {
    ghost use Rattle.std.specs.Prelude.{Some};
    ghost use Rattle.iop_ports.specs.Sinks.{plain_sink};

    ghost told = { λ sink. plain_sink (Some sink.bytes.items) sink.faults };

    fn write(&mut self, piece: &[u8]) -> Result<usize, Failed> {
        self.writes = self.writes.saturating_add(1);
        if piece.is_empty() || self.bytes.extend_from_slice(piece).is_ok() {
            return Ok(piece.len());
        }
        self.faults = self.faults.saturating_add(1);
        Err(Failed)
    }
}

/// Gives a line to whatever takes lines.
fn give_line<L: Lines>(lines: &mut L, t: u64, line: Line)
    ensures { Gives (L.output lines.old) (L.output lines.new) (Traced (line_bytes t line) ∷ []) }
{
    lines.line(t, line);
}

/// Gives one line to two sinks, and says whether a write failed.
fn one_line<C: Sink, T: Sink>(console: &mut C, trace: &mut T, t: u64, line: Line) -> bool
    ensures { Leaves result (sinks C.told T.told console.old trace.old)
        (sinks C.told T.told console.new trace.new) (Traced (line_bytes t line) ∷ []) }
{
    let mut out = Out::new(console, trace);
    give_line(&mut out, t, line);
    out.failed()
}

#[test]
fn writes_each_line(rt: HostRuntime) -> Result<(), Fail> {
    let loaded = Line::Load {
        k: 1,
        base: 0x10000,
        len: 8,
    };
    let refused = Line::Refused {
        k: 1,
        code: Code::ILLEGAL_OBJECT,
    };
    let resident = Line::Returned {
        k: 1,
        value: 0,
        kept: Kept::Resident,
    };
    let removable = Line::Returned {
        k: 1,
        value: 65538,
        kept: Kept::Removable,
    };
    let removed = Line::Returned {
        k: 1,
        value: 0xffffffff,
        kept: Kept::Removed,
    };
    let unlisted = Line::Unlisted { lib: 1, index: 63 };
    let overflow = Line::End(Stop::Fault(GuestFault::Overflow, 0x10008));
    let slot = Line::End(Stop::Fault(GuestFault::BranchInSlot, 0xffffffff));
    let table: [(u64, Line, &str); 15] = [
        (0, loaded, "0 load 1 ok 00010000 00000008\n"),
        (0, refused, "0 load 1 -201\n"),
        (2, resident, "2 result 1 0 resident\n"),
        (4, removable, "4 result 1 65538 removable\n"),
        (3, removed, "3 result 1 -1 removed\n"),
        (0, Line::Run(1), "0 run 1\n"),
        (42, Line::Irq(0), "42 line 0\n"),
        (1003, Line::Alarm(1), "1003 alarm 1\n"),
        (1006, Line::Due(5), "1006 due 5\n"),
        (11, Line::Stub(0x10014), "11 stub 00010014\n"),
        (6, unlisted, "6 service sysmem 63\n"),
        (3, Line::End(Stop::Quiet), "3 end quiet\n"),
        (5, Line::End(Stop::Budget), "5 end budget\n"),
        (2, overflow, "2 end fault overflow 00010008\n"),
        (
            u64::MAX,
            slot,
            "18446744073709551615 end fault slot ffffffff\n",
        ),
    ];
    for (t, line, text) in &table {
        assert_eq!(rt; line_text(*t, line).as_slice(), text.as_bytes());
    }
    Ok(())
}

#[test]
fn stops_at_a_failing_write(rt: HostRuntime) -> Result<(), Fail> {
    let mut console = TrickleSink::new(rt.alloc(), 100, Vec::new(rt.alloc()))?;
    let mut trace = TrickleSink::new(rt.alloc(), 12, Vec::new(rt.alloc()))?;
    assert!(rt; !one_line(&mut console, &mut trace, 0, Line::Run(1)));
    let mut out = Out::new(&mut console, &mut trace);
    out.text(b"boot");
    assert!(rt; !out.failed());
    out.line(42, Line::Irq(0));
    assert!(rt; out.failed());
    out.text(b"more");
    out.line(43, Line::Irq(0));
    assert!(rt; out.failed());
    assert_eq!(rt; console.bytes(), b"boot".as_slice());
    assert_eq!(rt; trace.bytes(), b"0 run 1\n42 l".as_slice());
    assert_eq!(rt; trace.faults(), 1);
    Ok(())
}

#[test]
fn writes_each_text_and_line_once(rt: HostRuntime) -> Result<(), Fail> {
    let mut console = Counter::new(rt.alloc());
    let mut trace = Counter::new(rt.alloc());
    let mut out = Out::new(&mut console, &mut trace);
    out.text(b"boot ");
    out.line(0, Line::Run(1));
    out.text(b"");
    out.text(b"done");
    out.line(42, Line::Irq(0));
    out.line(43, Line::End(Stop::Quiet));
    assert!(rt; !out.failed());
    assert_eq!(rt; console.bytes.as_slice(), b"boot done".as_slice());
    assert_eq!(rt; console.writes, 2);
    let lines = b"0 run 1\n42 line 0\n43 end quiet\n";
    assert_eq!(rt; trace.bytes.as_slice(), lines.as_slice());
    assert_eq!(rt; trace.writes, 3);
    Ok(())
}

#[test]
fn stops_at_a_failing_second_text(rt: HostRuntime) -> Result<(), Fail> {
    let mut console = TrickleSink::new(rt.alloc(), 6, Vec::new(rt.alloc()))?;
    let mut trace = TrickleSink::new(rt.alloc(), 100, Vec::new(rt.alloc()))?;
    let mut out = Out::new(&mut console, &mut trace);
    out.text(b"boot");
    out.line(0, Line::Run(1));
    out.text(b"more");
    assert!(rt; out.failed());
    out.line(1, Line::Run(2));
    out.text(b"last");
    assert_eq!(rt; console.bytes(), b"bootmo".as_slice());
    assert_eq!(rt; console.faults(), 1);
    assert_eq!(rt; trace.bytes(), b"0 run 1\n".as_slice());
    Ok(())
}

#[test]
fn dumps_have_lines(rt: HostRuntime) {
    let short = dump_line(0x1_0014, &[0x38, 0x11, 0, 8]);
    assert_eq!(rt; short.as_slice(), b"00010014: 38110008\n".as_slice());
    let long = dump_line(0xA000_2010, &[0xAB; 16]);
    let line = b"a0002010: abababababababababababababababab\n";
    assert_eq!(rt; long.as_slice(), line.as_slice());
    assert_eq!(rt; dump_line(0, &[]).as_slice(), b"00000000: \n".as_slice());
}
