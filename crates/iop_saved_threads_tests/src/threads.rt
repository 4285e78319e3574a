//! Which bytes threads are, and which bytes are none.

use crate::processors::{CPU, IN_SLOT, bytes_of_kept, kept, with_byte};
use iop_ports::MemSink;
use iop_ready::Priority;
use iop_saved_threads::{restore_thread, save_thread};
use iop_snapshot::{Decoder, Encoder};
use iop_thread::{Kind, Param, State, Thread, Wait};
use std::alloc::{AllocError, Global};
use std::process::Abort;
use std::test::Fail;

/// How many bytes a thread takes without its registers.
const THREAD: usize = 52;

/// The places of some numbers of a thread.
const FIRST_PRIORITY: usize = 28;

const PRIORITY: usize = 32;

const STATE: usize = 36;

const WAIT: usize = 40;

const WAIT_ID: usize = 44;

/// The numbers of a thread in front of its state, and the one behind those of the state: no two are
/// equal, and none is one of the state's.
const BEFORE_STATE: [u8; STATE] = [
    0x27, 0, 0, 0, 0, 0, 0, 2, // id and attributes
    0x0A, 0x0B, 0x0C, 0x0D, 0, 0, 2, 0, // option and entry
    0, 1, 1, 0, 0, 3, 0, 0, // stack and its size
    0x61, 0x62, 0x63, 0x64, // gp
    0x28, 0, 0, 0, 0x29, 0, 0, 0, // first priority and priority
];

const WAKEUPS: [u8; 4] = [0x51, 0x52, 0x53, 0x54];

/// That thread in a state.
fn thread(state: State) -> Thread {
    Thread {
        id: 0x27,
        param: Param {
            attr: 0x0200_0000,
            option: 0x0D0C_0B0A,
            entry: 0x2_0000,
            stack_size: 0x300,
            priority: Priority::new(0x28),
        },
        stack: 0x1_0100,
        gp: 0x6463_6261,
        priority: Priority::new(0x29),
        wakeups: 0x5453_5251,
        state,
    }
}

/// Writes a thread.
fn bytes_of_thread(alloc: Global, state: State) -> Result<MemSink, AllocError> {
    let mut sink = MemSink::new(alloc, 300, Vec::new(alloc))?;
    let mut encoder = Encoder::new(&mut sink);
    let _ = save_thread(&thread(state), &mut encoder);
    Ok(sink)
}

/// A state, its number, that of its wait, the id of the object, and whether it keeps registers.
#[derive(Clone, Copy)]
struct Row {
    state: State,
    number: u8,
    wait: u8,
    id: u8,
    keeps: bool,
}

/// The row of a state in which a thread keeps registers and waits for an object.
fn waits(kind: Kind, wait: u8) -> Row {
    Row {
        state: State::Waiting(Wait::Object(kind, 0x2B), kept()),
        number: 4,
        wait,
        id: 0x2B,
        keeps: true,
    }
}

/// The row of a state in which a thread waits for no object.
fn plain(state: State, number: u8, wait: u8, keeps: bool) -> Row {
    Row {
        state,
        number,
        wait,
        id: 0,
        keeps,
    }
}

/// The twelve bytes of a row's numbers.
fn numbers_of(row: &Row) -> [u8; 12] {
    [row.number, 0, 0, 0, row.wait, 0, 0, 0, row.id, 0, 0, 0]
}

/// The bytes of the thread of a row.
fn bytes_of_row(alloc: Global, row: &Row) -> Result<Vec<u8>, AllocError> {
    let mut bytes = Vec::from_slice(alloc, &BEFORE_STATE)?;
    bytes.extend_from_slice(&numbers_of(row))?;
    bytes.extend_from_slice(&WAKEUPS)?;
    if row.keeps {
        bytes.extend_from_slice(&bytes_of_kept())?;
    }
    Ok(bytes)
}

/// Whether the thread of a row is written as it says, and comes back.
fn comes_back(alloc: Global, row: &Row) -> Result<bool, AllocError> {
    let wanted = bytes_of_row(alloc, row)?;
    let sink = bytes_of_thread(alloc, row.state)?;
    let restored = restore_thread(&mut Decoder::new(&wanted));
    Ok(sink.bytes() == wanted.as_slice() && restored == Some(thread(row.state)))
}

#[test]
fn states_are_numbers_and_come_back(rt: HostRuntime) -> Result<(), Fail> {
    let cpu = kept();
    let rows = [
        plain(State::Dormant, 0x10, 0, false),
        plain(State::Running, 1, 0, false),
        plain(State::Ready(cpu), 2, 0, true),
        plain(State::Suspended(cpu), 8, 0, true),
        plain(State::Waiting(Wait::Sleep, cpu), 4, 1, true),
        plain(State::Waiting(Wait::Delay, cpu), 4, 2, true),
        plain(State::WaitingSuspended(Wait::Delay, cpu), 0xC, 2, true),
        waits(Kind::Semaphore, 3),
        waits(Kind::EventFlag, 4),
        waits(Kind::Mailbox, 5),
        waits(Kind::VariablePool, 6),
        waits(Kind::FixedPool, 7),
    ];
    for row in rows {
        assert_eq!(rt; comes_back(rt.alloc(), &row)?, true);
    }
    Ok(())
}

#[test]
fn which_bytes_are_no_thread(rt: HostRuntime) -> Result<(), Fail> {
    let alloc = rt.alloc();
    let sleeping = State::Waiting(Wait::Sleep, kept());
    let sink = bytes_of_thread(alloc, sleeping)?;
    let rows = [
        (FIRST_PRIORITY, 0),
        (FIRST_PRIORITY, 127),
        (PRIORITY, 0),
        (PRIORITY, 127),
        (STATE, 3),
        (STATE, 2),
        (STATE, 0x10),
        (WAIT, 0),
        (WAIT, 8),
        (WAIT_ID, 1),
        (THREAD + IN_SLOT, 1),
    ];
    for (place, byte) in rows {
        let bytes = with_byte(alloc, sink.bytes(), place, byte)?;
        assert_eq!(rt; restore_thread(&mut Decoder::new(&bytes)), None);
    }
    if let Some(short) = sink.bytes().get(..THREAD + CPU - 1) {
        assert_eq!(rt; restore_thread(&mut Decoder::new(short)), None);
    }
    Ok(())
}
