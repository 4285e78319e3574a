use iop_ports::MemSink;
use iop_saved_script::laws::{fitting_is_short, forms_are_lawful};
use iop_saved_script::{
    restore_args, restore_events, restore_modules, restore_named, save_args, save_events,
    save_modules, save_named,
};
use iop_script::Raise;
use iop_snapshot::{Decoder, Encoder, SnapFault};
use std::alloc::{AllocError, Global};
use std::test::Fail;

/// Two events: their ticks, their lines, and whether the line rises.
const EVENTS: [u8; 24] = [
    2, 0, 0, 0, // how many
    3, 1, 0, 0, 0, 0, 0, 0, 5, 1, //
    0, 0, 0, 0, 0, 0, 0, 0x80, 63, 0,
];

/// The words `ab` and an empty one for module 2, and none for module 1.
const ARGS: [u8; 30] = [
    2, 0, 0, 0, // how many
    2, 0, 0, 0, 2, 0, 0, 0, 2, 0, 0, 0, b'a', b'b', 0, 0, 0, 0, //
    1, 0, 0, 0, 0, 0, 0, 0,
];

/// The word `c` for the module of the name `m`.
const NAMED: [u8; 18] = [
    1, 0, 0, 0, // how many
    1, 0, 0, 0, b'm', 1, 0, 0, 0, 1, 0, 0, 0, b'c',
];

/// A module of the name `é` with a file of three bytes, and one whose name and file are empty.
const MODULES: [u8; 25] = [
    2, 0, 0, 0, // how many
    2, 0, 0, 0, 0xC3, 0xA9, 3, 0, 0, 0, 0x7F, 0x80, 0xFF, //
    0, 0, 0, 0, 0, 0, 0, 0,
];

/// Makes a copy of bytes with another one at a place, if there is one.
fn with_byte(alloc: Global, bytes: &[u8], place: usize, byte: u8) -> Result<Vec<u8>, AllocError> {
    let mut changed = Vec::from_slice(alloc, bytes)?;
    if let Some(old) = changed.get_mut(place) {
        *old = byte;
    }
    Ok(changed)
}

/// A sink with room for the bytes of a test.
fn sink(alloc: Global) -> Result<MemSink, AllocError> {
    MemSink::new(alloc, 100, Vec::new(alloc))
}

/// Reads events and writes them again.
fn events_again(alloc: Global, bytes: &[u8]) -> Result<MemSink, SnapFault> {
    let mut sink = sink(alloc)?;
    let events = restore_events(alloc, &mut Decoder::new(bytes))?;
    forms_are_lawful();
    fitting_is_short();
    let _ = save_events(&events, &mut Encoder::new(&mut sink));
    Ok(sink)
}

/// Reads words by modules' numbers and writes them again.
fn args_again(alloc: Global, bytes: &[u8]) -> Result<MemSink, SnapFault> {
    let mut sink = sink(alloc)?;
    let args = restore_args(alloc, &mut Decoder::new(bytes))?;
    forms_are_lawful();
    fitting_is_short();
    let _ = save_args(&args, &mut Encoder::new(&mut sink));
    Ok(sink)
}

/// Reads words by modules' names and writes them again.
fn named_again(alloc: Global, bytes: &[u8]) -> Result<MemSink, SnapFault> {
    let mut sink = sink(alloc)?;
    let named = restore_named(alloc, &mut Decoder::new(bytes))?;
    forms_are_lawful();
    fitting_is_short();
    let _ = save_named(&named, &mut Encoder::new(&mut sink));
    Ok(sink)
}

/// Reads modules and writes them again.
fn modules_again(alloc: Global, bytes: &[u8]) -> Result<MemSink, SnapFault> {
    let mut sink = sink(alloc)?;
    let modules = restore_modules(alloc, &mut Decoder::new(bytes))?;
    forms_are_lawful();
    fitting_is_short();
    let _ = save_modules(&modules, &mut Encoder::new(&mut sink));
    Ok(sink)
}

/// Whether a sink was written these bytes.
fn is_written(sink: Result<MemSink, SnapFault>, wanted: &[u8]) -> bool {
    match sink {
        Ok(sink) => sink.bytes() == wanted,
        Err(_) => false,
    }
}

#[test]
fn lists_come_back(rt: HostRuntime) {
    let alloc = rt.alloc();
    assert_eq!(rt; is_written(events_again(alloc, &EVENTS), &EVENTS), true);
    assert_eq!(rt; is_written(args_again(alloc, &ARGS), &ARGS), true);
    assert_eq!(rt; is_written(named_again(alloc, &NAMED), &NAMED), true);
    assert_eq!(rt; is_written(modules_again(alloc, &MODULES), &MODULES), true);
}

/// The fault of what was refused; none where it was taken.
fn fault_of<T: Drop>(restored: Result<T, SnapFault>) -> Option<SnapFault> {
    match restored {
        Ok(_) => None,
        Err(fault) => Some(fault),
    }
}

/// The faults of bytes as events, as words by number and by name, and as modules.
fn faults_of(alloc: Global, bytes: [&[u8]; 4]) -> [Option<SnapFault>; 4] {
    [
        fault_of(restore_events(alloc, &mut Decoder::new(bytes[0]))),
        fault_of(restore_args(alloc, &mut Decoder::new(bytes[1]))),
        fault_of(restore_named(alloc, &mut Decoder::new(bytes[2]))),
        fault_of(restore_modules(alloc, &mut Decoder::new(bytes[3]))),
    ]
}

#[test]
fn a_list_ends_where_its_last_byte_stands(rt: HostRuntime) {
    let alloc = rt.alloc();
    let whole: [&[u8]; 4] = [&EVENTS, &ARGS, &NAMED, &MODULES];
    assert_eq!(rt; faults_of(alloc, whole), [None; 4]);
    let cut = [&EVENTS[..23], &ARGS[..29], &NAMED[..17], &MODULES[..24]];
    assert_eq!(rt; faults_of(alloc, cut), [Some(SnapFault::Bad); 4]);
    assert_eq!(rt; faults_of(alloc, [&[]; 4]), [Some(SnapFault::Bad); 4]);
}

#[test]
fn what_is_no_value_is_bad(rt: HostRuntime) -> Result<(), Fail> {
    let alloc = rt.alloc();
    // A truth value of 2, words without a count, a name that is too long, and one that is no UTF-8.
    let events = with_byte(alloc, &EVENTS, 13, 2)?;
    let args = with_byte(alloc, &ARGS, 0, 3)?;
    let named = with_byte(alloc, &NAMED, 7, 1)?;
    let modules = with_byte(alloc, &MODULES, 9, b')')?;
    let changed: [&[u8]; 4] = [&events, &args, &named, &modules];
    assert_eq!(rt; faults_of(alloc, changed), [Some(SnapFault::Bad); 4]);
    Ok(())
}
