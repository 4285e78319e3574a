ghost use Rattle.std.specs.Prelude.{◌++◌, is_ok};
ghost use Rattle.iop_ports.specs.Sinks.{Sends};
ghost use Rattle.iop_snapshot.specs.Items.{spell_item};
ghost use Rattle.iop_snapshot.specs.Writing.{place_of, Writes};

use crate::words::{Words, save_words};
use iop_base::WriteFault;
use iop_ports::{MemSink, Sink, TrickleSink};
use iop_snapshot::{Decoder, Encoder, SnapFault, flag_of, restore_list};
use std::alloc::{AllocError, Global};
use std::process::Abort;
use std::test::Fail;

/// An item of all four widths.
const WIDTHS: [u8; 4] = [1, 2, 4, 8];

const NUMBERS: [u64; 4] = [0x01, 0x0302, 0x0706_0504, 0x0F0E_0D0C_0B0A_0908];

/// Bytes behind it.
const BEHIND: [u8; 2] = [0x10, 0x11];

/// What both are written as.
const SPELLED: [u8; 17] = [
    0x01, 0x02, 0x03, 0x04, 0x05, 0x06, 0x07, 0x08, 0x09, 0x0A, 0x0B, 0x0C, 0x0D, 0x0E, 0x0F, 0x10,
    0x11,
];

/// Writes the item and the bytes.
#[tactic(auto, using(iop_snapshot::proofs::Sending::writes_then, iop_snapshot::proofs::Sending::writes_exit))]
fn write_parts<S: Sink>(encoder: &mut Encoder<'_, S>) -> Result<(), WriteFault>
    ensures { Writes result (spell_item WIDTHS NUMBERS ++ BEHIND) (place_of S.told encoder.old)
        (place_of S.told encoder.new) }
{
    encoder.item(&WIDTHS, &NUMBERS)?;
    encoder.bytes(&BEHIND)
}

/// Writes them to a sink.
fn write_both<S: Sink>(sink: &mut S) -> Result<(), WriteFault>
    ensures { Sends (is_ok result) (spell_item WIDTHS NUMBERS ++ BEHIND) (S.told sink.old)
        (S.told sink.new) }
{
    let mut encoder = Encoder::new(sink);
    write_parts(&mut encoder)
}

/// A list of one number.
fn only(alloc: Global, number: u64) -> Result<Vec<u64>, AllocError> {
    Vec::from_slice(alloc, &[number])
}

#[test]
fn items_are_written_low_byte_first(rt: HostRuntime) -> Result<(), Fail> {
    let mut sink = MemSink::new(rt.alloc(), 17, Vec::new(rt.alloc()))?;
    assert_eq!(rt; write_both(&mut sink), Ok(()));
    assert_eq!(rt; sink.bytes(), SPELLED.as_slice());
    Ok(())
}

#[test]
fn a_sink_that_fails_holds_a_front(rt: HostRuntime) -> Result<(), Fail> {
    let alloc = rt.alloc();
    // Each number and the bytes are one call of a sink that takes them whole.
    for (call, taken) in [(1, 0), (2, 1), (3, 3), (4, 7), (5, 15)] {
        let mut sink = MemSink::new(alloc, 17, only(alloc, call)?)?;
        assert_eq!(rt; write_both(&mut sink), Err(WriteFault));
        assert_eq!(rt; sink.bytes(), &SPELLED[..taken]);
        assert_eq!(rt; (sink.calls(), sink.faults()), (call, 1));
    }
    Ok(())
}

#[test]
fn a_sink_of_single_bytes_takes_all_or_a_front(rt: HostRuntime) -> Result<(), Fail> {
    let alloc = rt.alloc();
    for taken in 0..17_usize {
        let mut sink = TrickleSink::new(alloc, 17, only(alloc, taken as u64 + 1)?)?;
        assert_eq!(rt; write_both(&mut sink), Err(WriteFault));
        assert_eq!(rt; sink.bytes(), &SPELLED[..taken]);
    }
    let mut sink = TrickleSink::new(alloc, 17, Vec::new(alloc))?;
    assert_eq!(rt; write_both(&mut sink), Ok(()));
    assert_eq!(rt; sink.bytes(), SPELLED.as_slice());
    Ok(())
}

#[test]
fn items_are_read_back(rt: HostRuntime) {
    let mut decoder = Decoder::new(&SPELLED);
    let mut numbers = [0; 4];
    assert_eq!(rt; decoder.item(&WIDTHS, &mut numbers), Some(()));
    assert_eq!(rt; numbers, NUMBERS);
    assert_eq!(rt; decoder.left(), 2);
    assert_eq!(rt; decoder.bytes(2), Some(BEHIND.as_slice()));
    assert_eq!(rt; decoder.left(), 0);
}

#[test]
fn a_decoder_with_too_few_bytes_changes_nothing(rt: HostRuntime) {
    let mut decoder = Decoder::new(&SPELLED[..14]);
    let mut numbers = [7; 4];
    assert_eq!(rt; decoder.item(&WIDTHS, &mut numbers), None);
    assert_eq!(rt; numbers, [7; 4]);
    assert_eq!(rt; decoder.bytes(15), None);
    assert_eq!(rt; decoder.left(), 14);
    assert_eq!(rt; decoder.bytes(14), Some(&SPELLED[..14]));
    assert_eq!(rt; decoder.bytes(0), Some(&SPELLED[..0]));
    assert_eq!(rt; decoder.bytes(1), None);
}

/// A list of two words, as it is written.
const TWO_WORDS: [u8; 12] = [2, 0, 0, 0, 7, 0, 0, 0, 4, 3, 2, 1];

/// Restores a list from these bytes, and answers its second word and how many bytes are left.
fn restore_words(alloc: Global, bytes: &[u8]) -> Result<(Option<u32>, usize), SnapFault> {
    let mut words = Words::new(alloc);
    let mut decoder = Decoder::new(bytes);
    restore_list::<u32, Words>(&mut words, &mut decoder)?;
    Ok((words.nth(1), decoder.left()))
}

#[test]
fn lists_are_written_and_read_back(rt: HostRuntime) -> Result<(), Fail> {
    let alloc = rt.alloc();
    let mut words = Words::new(alloc);
    let mut decoder = Decoder::new(&TWO_WORDS);
    assert_eq!(rt;
        restore_list::<u32, Words>(&mut words, &mut decoder),
        Ok(())
    );
    let mut sink = MemSink::new(alloc, 12, Vec::new(alloc))?;
    let mut encoder = Encoder::new(&mut sink);
    assert_eq!(rt; save_words(&words, &mut encoder), Ok(()));
    assert_eq!(rt; sink.bytes(), TWO_WORDS.as_slice());
    Ok(())
}

#[test]
fn lists_that_are_none_are_bad(rt: HostRuntime) {
    let alloc = rt.alloc();
    assert_eq!(rt;
        restore_words(alloc, &TWO_WORDS),
        Ok((Some(0x0102_0304), 0))
    );
    assert_eq!(rt; restore_words(alloc, &TWO_WORDS[..11]), Err(SnapFault::Bad));
    assert_eq!(rt; restore_words(alloc, &TWO_WORDS[..3]), Err(SnapFault::Bad));
    let four = [4, 0, 0, 0, 1, 0, 0, 0, 2, 0, 0, 0, 3, 0, 0, 0, 4, 0, 0, 0];
    assert_eq!(rt; restore_words(alloc, &four), Err(SnapFault::Bad));
}

#[test]
fn truth_values_are_0_or_1(rt: HostRuntime) -> Result<(), Fail> {
    for (number, flag) in [(0, Some(false)), (1, Some(true)), (2, None), (256, None)] {
        assert_eq!(rt; flag_of(number), flag);
    }
    Ok(())
}
