ghost use Rattle.std.specs.Prelude.{◌≡◌, ◌+◌, ◌-◌, ◌%◌, ◌^◌, ◌<◌, ◌≤◌, MatchOption, [], ◌∷◌, length, slice_index, slice_set};
ghost use Rattle.iop_stubs.specs.Stubs.{range_place, after_store};
ghost use Rattle.iop_stubs.specs.Lending.{range_bytes};

use iop_base::{Bad, Line, Lines, Width};
use iop_stubs::{Guest, Stub};
use std::alloc::Global;
use std::process::Abort;
use std::test::Fail;

/// Keeps the moments and places of the stubs that it is told of.
#[derive(Drop)]
struct Told {
    stubs: Vec<(u64, u32)>,
}

impl Lines for Told {
    ghost use Rattle.std.specs.Prelude.{None, false, []};

    ghost output = { λ told. record {
      console = None;
      trace = None;
      failed = false;
      console_faults = 0;
      trace_faults = 0;
      names = [];
    } };

    fn line(&mut self, t: u64, line: Line) {
        if let Line::Stub(at) = line {
            let _ = self.stubs.push((t, at));
        }
    }

    fn text(&mut self, _bytes: &[u8]) {}
}

/// The import of number 14 of `sysmem`, bound to a function at 0x44E0.
const STUB: Stub = Stub {
    at: 0x1_0014,
    name: *b"sysmem\0\0",
    major: 1,
    index: 14,
    target: 0x44E0,
};

/// The import of number 15, whose stub stands behind that one.
const NEXT: Stub = Stub {
    at: 0x1_001C,
    name: *b"sysmem\0\0",
    major: 1,
    index: 15,
    target: 0x4500,
};

/// Makes memory in which the words of both stubs stand.
fn with_words(rt: &impl Abort, alloc: Global, told: &mut Told) -> Result<Guest, Fail> {
    let mut guest = Guest::new(alloc, 0x20_0000)?;
    let words = [
        (0x1_0014, 0x03E0_0008),
        (0x8001_0018, 0x2400_000E),
        (0x1_001C, 0x03E0_0008),
        (0x1_0020, 0x2400_000F),
    ];
    for (at, word) in words {
        assert_eq!(rt; guest.store(at, Width::Word, word, 0, told), Ok(()));
    }
    Ok(guest)
}

/// Binds a stub where none is live and its two words stand.
fn bind_first(rt: &impl Abort, guest: &mut Guest, stub: Stub)
    requires aligned { stub.at % 4 ≡ 0 }
    requires inside { stub.at + 8 ≤ 0x200000 }
    requires target_aligned { stub.target % 4 ≡ 0 }
    requires target_near { stub.target < 2 ^ 28 }
    ensures { guest.new.live ≡ stub ∷ [] }
{
    assert_eq!(rt; guest.ram().size(), 0x20_0000);
    assert_eq!(rt; guest.room(), 65_536);
    assert_eq!(rt; guest.ram().load32(stub.at), Ok(0x03E0_0008));
    assert_eq!(rt;
        guest.ram().load32(stub.at + 4),
        Ok(0x2400_0000 + u32::from(stub.index))
    );
    guest.bind(stub);
}

/// Binds a stub behind the one that is live, where its two words stand.
fn bind_behind(rt: &impl Abort, guest: &mut Guest, first: Stub, stub: Stub)
    requires live { guest.old.live ≡ first ∷ [] }
    requires behind { first.at + 8 ≤ stub.at }
    requires aligned { stub.at % 4 ≡ 0 }
    requires inside { stub.at + 8 ≤ 0x200000 }
    requires target_aligned { stub.target % 4 ≡ 0 }
    requires target_near { stub.target < 2 ^ 28 }
{
    assert_eq!(rt; guest.ram().size(), 0x20_0000);
    assert_eq!(rt; guest.ram().load32(stub.at), Ok(0x03E0_0008));
    assert_eq!(rt;
        guest.ram().load32(stub.at + 4),
        Ok(0x2400_0000 + u32::from(stub.index))
    );
    guest.bind(stub);
}

/// Makes memory in which the stub is bound.
fn bound(rt: &impl Abort, alloc: Global, told: &mut Told) -> Result<Guest, Fail> {
    let mut guest = with_words(rt, alloc, told)?;
    bind_first(rt, &mut guest, STUB);
    assert_eq!(rt; guest.ram().load32(STUB.at), Ok(0x0800_1138));
    assert_eq!(rt; guest.room(), 65_535);
    Ok(guest)
}

/// Writes the last byte of a window, and answers what stood there.
fn put_last(window: &mut [u8], byte: u8) -> u8
    requires { 0 < length window.old }
    ensures window { window.new ≡ slice_set window.old (length window.old - 1) byte }
    ensures answer { result ≡ slice_index window.old (length window.old - 1) }
{
    let last = window.len() - 1;
    let stood = window[last];
    window[last] = byte;
    stood
}

/// Writes the last byte of a range, and answers what stood there.
fn put_last_in(guest: &mut Guest, at: u32, len: u32, byte: u8, told: &mut Told) -> Option<u8>
    requires { 0 < len }
    ensures { let place = range_place guest.old at len in
        let bytes = range_bytes guest.old.ram place len in
        MatchOption result (guest.new ≡ guest.old) (λ stood. (stood ≡ slice_index bytes (len - 1))
        × (guest.new ≡ after_store guest.old place (slice_set bytes (len - 1) byte))) }
{
    guest.with_window(at, len, 5, told, |window| put_last(window, byte))
}

/// What a step does, and what is wanted of it.
#[derive(Clone, Copy)]
enum Step {
    /// Stores 7 by its width at moment 1.
    Store(u32, Width, Result<(), Bad>),
    /// Stores `end` at moment 2.
    Bytes(u32, Result<(), Bad>),
    /// Fills so many bytes with 255 at moment 3.
    Fill(u32, u32, Result<(), Bad>),
    /// Copies so many bytes to the first address from the second at moment 4.
    Copy(u32, u32, u32, Result<(), Bad>),
    /// Writes 0x99 as the last byte of so many, one at least, at moment 5: what stood there.
    Last(u32, u32, Option<u8>),
    /// Whether the stub is live.
    Lives(bool),
    /// The word at an address.
    Word(u32, u32),
}

/// Tells whether the stub is live, by its place, its library and the room that is left.
fn lives(guest: &Guest) -> (bool, bool, bool) {
    (
        guest.at(STUB.at) == Some(STUB),
        guest.bound_to(STUB.name, STUB.major),
        guest.room() == 65_535,
    )
}

/// Takes a step.
fn take(rt: &impl Abort, guest: &mut Guest, told: &mut Told, step: Step) {
    match step {
        Step::Store(at, width, wanted) => {
            assert_eq!(rt; guest.store(at, width, 7, 1, told), wanted);
        }
        Step::Bytes(at, wanted) => assert_eq!(rt; guest.store_bytes(at, b"end", 2, told), wanted),
        Step::Fill(at, len, wanted) => assert_eq!(rt; guest.fill(at, len, 255, 3, told), wanted),
        Step::Copy(to, from, len, wanted) => {
            assert_eq!(rt; guest.copy(to, from, len, 4, told), wanted);
        }
        Step::Last(at, len, wanted) => {
            assert!(rt; len > 0);
            assert_eq!(rt; put_last_in(guest, at, len, 0x99, told), wanted);
        }
        Step::Lives(wanted) => assert_eq!(rt; lives(guest), (wanted, wanted, wanted)),
        Step::Word(at, wanted) => assert_eq!(rt; guest.ram().load32(at), Ok(wanted)),
    }
}

/// Takes steps, one after the other, in memory in which the stub is bound, and compares what is
/// told of it.
fn take_all(
    rt: &impl Abort,
    alloc: Global,
    steps: &[Step],
    wanted: &[(u64, u32)],
) -> Result<(), Fail> {
    let mut told = Told {
        stubs: Vec::new(alloc),
    };
    let mut guest = bound(rt, alloc, &mut told)?;
    for step in steps {
        take(rt, &mut guest, &mut told, *step);
    }
    assert_eq!(rt; told.stubs.as_slice(), wanted);
    Ok(())
}

#[test]
fn stores_end_a_stub(rt: HostRuntime) -> Result<(), Fail> {
    let steps = [
        Step::Store(0x1_0010, Width::Word, Ok(())),
        Step::Store(0x1_001C, Width::Word, Ok(())),
        Step::Store(0x1_0015, Width::Half, Err(Bad)),
        Step::Store(0x20_0000, Width::Byte, Err(Bad)),
        Step::Lives(true),
        Step::Store(0xA001_001B, Width::Byte, Ok(())),
        Step::Lives(false),
        Step::Word(0x1_0014, 0x0800_1138),
        Step::Word(0x1_0018, 0x0700_000E),
        Step::Store(0x1_0014, Width::Word, Ok(())),
    ];
    take_all(&rt, rt.alloc(), &steps, &[(1, 0x1_0014)])
}

#[test]
fn fills_end_a_stub(rt: HostRuntime) -> Result<(), Fail> {
    let steps = [
        Step::Fill(0x1_0018, 0, Ok(())),
        Step::Fill(0x1_0000, 0x14, Ok(())),
        Step::Fill(0x1F_FFFF, 2, Err(Bad)),
        Step::Fill(0x20_0000, 0, Err(Bad)),
        Step::Lives(true),
        Step::Fill(0x1_0000, 0x15, Ok(())),
        Step::Lives(false),
        Step::Word(0x1_0014, 0x0800_11FF),
        Step::Word(0x1_0010, 0xFFFF_FFFF),
    ];
    take_all(&rt, rt.alloc(), &steps, &[(3, 0x1_0014)])
}

#[test]
fn stores_of_bytes_end_a_stub(rt: HostRuntime) -> Result<(), Fail> {
    let steps = [
        Step::Bytes(0x1_001C, Ok(())),
        Step::Bytes(0x1_0011, Ok(())),
        Step::Bytes(0x1F_FFFE, Err(Bad)),
        Step::Lives(true),
        Step::Bytes(0x8001_001B, Ok(())),
        Step::Lives(false),
        Step::Word(0x1_0018, 0x6500_000E),
        Step::Word(0x1_001C, 0x0364_646E),
    ];
    take_all(&rt, rt.alloc(), &steps, &[(2, 0x1_0014)])
}

#[test]
fn copies_end_a_stub(rt: HostRuntime) -> Result<(), Fail> {
    let steps = [
        Step::Copy(0x1_0018, 0x1_0014, 0, Ok(())),
        Step::Copy(0x20_0000, 0x3000_0000, 0, Ok(())),
        Step::Copy(0x1_0010, 0x1_0014, 4, Ok(())),
        Step::Copy(0x1_0018, 0x1F_FFFF, 2, Err(Bad)),
        Step::Copy(0x1F_FFFF, 0x1_0018, 2, Err(Bad)),
        Step::Lives(true),
        Step::Word(0x1_0010, 0x0800_1138),
        Step::Copy(0x8001_0018, 0xA001_0014, 2, Ok(())),
        Step::Lives(false),
        Step::Word(0x1_0018, 0x2400_1138),
    ];
    take_all(&rt, rt.alloc(), &steps, &[(4, 0x1_0014)])
}

/// Copies four of the bytes `abcde`, and compares what stands in their place then.
fn copy_four(
    rt: &impl Abort,
    guest: &mut Guest,
    to: u32,
    from: u32,
    wanted: &[u8],
    told: &mut Told,
) {
    assert_eq!(rt; guest.store_bytes(0x2_0000, b"abcde", 4, told), Ok(()));
    assert_eq!(rt; guest.copy(to, from, 4, 4, told), Ok(()));
    assert_eq!(rt; guest.ram().window(0x2_0000, 5), Some(wanted));
}

#[test]
fn copies_overlap(rt: HostRuntime) -> Result<(), Fail> {
    let mut told = Told {
        stubs: Vec::new(rt.alloc()),
    };
    let mut guest = Guest::new(rt.alloc(), 0x20_0000)?;
    copy_four(&rt, &mut guest, 0x2_0001, 0x2_0000, b"aabcd", &mut told);
    copy_four(&rt, &mut guest, 0x2_0000, 0x2_0001, b"bcdee", &mut told);
    Ok(())
}

#[test]
fn a_window_ends_a_stub(rt: HostRuntime) -> Result<(), Fail> {
    let steps = [
        Step::Last(0x1_0010, 4, Some(0)),
        Step::Last(0x1_001C, 9, Some(0)),
        Step::Last(0x1F_FFFF, 2, None),
        Step::Last(0x20_0000, 1, None),
        Step::Lives(true),
        Step::Last(0x8001_0010, 5, Some(0x38)),
        Step::Lives(false),
        Step::Word(0x1_0014, 0x0800_1199),
        Step::Word(0x1_0010, 0x9900_0000),
    ];
    take_all(&rt, rt.alloc(), &steps, &[(5, 0x1_0014)])
}

#[test]
fn a_store_ends_two_stubs(rt: HostRuntime) -> Result<(), Fail> {
    let mut told = Told {
        stubs: Vec::new(rt.alloc()),
    };
    let mut guest = with_words(&rt, rt.alloc(), &mut told)?;
    bind_first(&rt, &mut guest, STUB);
    bind_behind(&rt, &mut guest, STUB, NEXT);
    assert_eq!(rt; guest.room(), 65_534);
    assert_eq!(rt; guest.store_bytes(0x1_001B, b"end", 2, &mut told), Ok(()));
    assert_eq!(rt; guest.room(), 65_536);
    assert_eq!(rt;
        told.stubs.as_slice(),
        [(2, 0x1_0014), (2, 0x1_001C)].as_slice()
    );
    Ok(())
}

/// The stubs of one memory are put back into another of its bytes. What may not follow is refused.
#[test]
fn stubs_are_put_back(rt: HostRuntime) -> Result<(), Fail> {
    let mut told = Told {
        stubs: Vec::new(rt.alloc()),
    };
    let mut guest = with_words(&rt, rt.alloc(), &mut told)?;
    bind_first(&rt, &mut guest, STUB);
    bind_behind(&rt, &mut guest, STUB, NEXT);
    assert_eq!(rt; guest.stubs(), [STUB, NEXT].as_slice());
    let bytes = guest.ram().window(0, 0x20_0000).unwrap_or(&[]);
    assert_eq!(rt; bytes.len(), 0x20_0000);
    let mut copy = Guest::of_bytes(rt.alloc(), bytes)?;
    let rows = [
        (Stub { index: 15, ..STUB }, false),
        (
            Stub {
                target: 0x4500,
                ..STUB
            },
            false,
        ),
        (
            Stub {
                at: 0x1_0018,
                ..STUB
            },
            false,
        ),
        (STUB, true),
        (STUB, false),
        (NEXT, true),
    ];
    for (stub, wanted) in rows {
        assert_eq!(rt; copy.put_back(stub), wanted);
    }
    assert_eq!(rt; copy.stubs(), guest.stubs());
    assert_eq!(rt; copy.at(NEXT.at), Some(NEXT));
    assert_eq!(rt; copy.store(0x1_001B, Width::Byte, 7, 6, &mut told), Ok(()));
    assert_eq!(rt; copy.stubs(), [NEXT].as_slice());
    assert_eq!(rt; told.stubs.as_slice(), [(6, 0x1_0014)].as_slice());
    Ok(())
}
