//! The bytes of a trace line.

ghost use Rattle.std.specs.Prelude.{◌≡◌, ◌+◌, ◌≤◌, ◌<◌, ◌++◌, length};
ghost use Rattle.arrayvec.specs.ArrayVec.{array_vec_len};
ghost use Rattle.iop_base.specs.Text.{line_bytes, line_text as event_text, library_name, kept_name, fault_name};

use arrayvec::ArrayVec;
use iop_base::{Code, GuestFault, KERNEL_LIBRARIES, Kept, Line, Stop, before_zero};
use iop_text::{append, append_hex, append_number};
use itoa::Integer;

/// How many bytes there is room for in a line.
const LINE_ROOM: usize = 128;

/// How many bytes there may be between a line's moment and its end.
const EVENT_ROOM: usize = 40;

/// A line as far as it is written.
type Text = ArrayVec<u8, LINE_ROOM>;

/// The bytes of a line that was given at moment `t`, in ticks. No line is longer than 128 bytes.
#[tactic(auto, unfolding(iop_base::specs::Text::line_bytes))]
pub fn line_text(t: u64, line: &Line) -> ArrayVec<u8, 128>
    ensures { result.items ≡ line_bytes t line.now }
{
    let mut text = ArrayVec::new();
    append_number(&mut text, t);
    append(&mut text, b" ");
    append_event(&mut text, *line);
    append(&mut text, b"\n");
    text
}

/// Appends what the line says, between its moment and its end.
fn append_event(text: &mut Text, line: Line)
    requires { array_vec_len text.old + EVENT_ROOM ≤ LINE_ROOM }
    ensures bytes { text.new.items ≡ text.old.items ++ event_text line }
    ensures short { array_vec_len text.new ≤ array_vec_len text.old + EVENT_ROOM }
{
    match line {
        Line::Load { k, base, len } => append_load(text, k, base, len),
        Line::Refused { k, code } => append_refused(text, k, code),
        Line::Returned { k, value, kept } => append_returned(text, k, value, kept),
        Line::Run(thread) => append_labelled(text, b"run ", thread),
        Line::Irq(number) => append_labelled(text, b"line ", number),
        Line::Alarm(number) => append_labelled(text, b"alarm ", number),
        Line::Due(thread) => append_labelled(text, b"due ", thread),
        Line::Stub(at) => append_stub(text, at),
        Line::Unlisted { lib, index } => append_unlisted(text, lib, index),
        Line::End(stop) => append_end(text, stop),
    }
}

fn append_load(text: &mut Text, k: u32, base: u32, len: u32)
    requires { array_vec_len text.old + EVENT_ROOM ≤ LINE_ROOM }
    ensures bytes { text.new.items ≡ text.old.items ++ event_text (Line.Load k base len) }
    ensures short { array_vec_len text.new ≤ array_vec_len text.old + EVENT_ROOM }
{
    append_labelled(text, b"load ", k);
    append(text, b" ok ");
    append_hex(text, base);
    append(text, b" ");
    append_hex(text, len);
}

fn append_refused(text: &mut Text, k: u32, code: Code)
    requires { array_vec_len text.old + EVENT_ROOM ≤ LINE_ROOM }
    ensures bytes { text.new.items ≡ text.old.items ++ event_text (Line.Refused k code) }
    ensures short { array_vec_len text.new ≤ array_vec_len text.old + EVENT_ROOM }
{
    append_labelled(text, b"load ", k);
    append_labelled(text, b" ", code.0);
}

fn append_returned(text: &mut Text, k: u32, value: u32, kept: Kept)
    requires { array_vec_len text.old + EVENT_ROOM ≤ LINE_ROOM }
    ensures bytes { text.new.items ≡ text.old.items ++ event_text (Line.Returned k value kept) }
    ensures short { array_vec_len text.new ≤ array_vec_len text.old + EVENT_ROOM }
{
    append_labelled(text, b"result ", k);
    append(text, b" ");
    append_number(text, value.cast_signed());
    append(text, b" ");
    append(text, kept_word(kept));
}

fn append_stub(text: &mut Text, at: u32)
    requires { array_vec_len text.old + EVENT_ROOM ≤ LINE_ROOM }
    ensures bytes { text.new.items ≡ text.old.items ++ event_text (Line.Stub at) }
    ensures short { array_vec_len text.new ≤ array_vec_len text.old + EVENT_ROOM }
{
    append(text, b"stub ");
    append_hex(text, at);
}

fn append_unlisted(text: &mut Text, lib: u32, index: u32)
    requires { array_vec_len text.old + EVENT_ROOM ≤ LINE_ROOM }
    ensures bytes { text.new.items ≡ text.old.items ++ event_text (Line.Unlisted lib index) }
    ensures short { array_vec_len text.new ≤ array_vec_len text.old + EVENT_ROOM }
{
    append(text, b"service ");
    append_library(text, lib);
    append_labelled(text, b" ", index);
}

/// Appends the name of a kernel library, or its number where it has no name.
fn append_library(text: &mut Text, lib: u32)
    requires { array_vec_len text.old + 10 ≤ LINE_ROOM }
    ensures bytes { text.new.items ≡ text.old.items ++ library_name lib }
    ensures short { array_vec_len text.new ≤ array_vec_len text.old + 10 }
{
    match KERNEL_LIBRARIES.get(lib as usize) {
        Some(name) => append(text, before_zero(name)),
        None => append_number(text, lib),
    }
}

fn append_end(text: &mut Text, stop: Stop)
    requires { array_vec_len text.old + EVENT_ROOM ≤ LINE_ROOM }
    ensures bytes { text.new.items ≡ text.old.items ++ event_text (Line.End stop) }
    ensures short { array_vec_len text.new ≤ array_vec_len text.old + EVENT_ROOM }
{
    match stop {
        Stop::Quiet => append(text, b"end quiet"),
        Stop::Budget => append(text, b"end budget"),
        Stop::Fault(kind, pc) => append_fault(text, kind, pc),
    }
}

fn append_fault(text: &mut Text, kind: GuestFault, pc: u32)
    requires { array_vec_len text.old + EVENT_ROOM ≤ LINE_ROOM }
    ensures bytes { text.new.items ≡ text.old.items ++ event_text (Line.End (Stop.Fault kind pc)) }
    ensures short { array_vec_len text.new ≤ array_vec_len text.old + EVENT_ROOM }
{
    append(text, b"end fault ");
    append(text, fault_word(kind));
    append(text, b" ");
    append_hex(text, pc);
}

fn kept_word(kept: Kept) -> &'static [u8]
    ensures bytes { result.now ≡ kept_name kept }
    ensures short { length result.now ≤ 9 }
{
    match kept {
        Kept::Resident => b"resident",
        Kept::Removed => b"removed",
        Kept::Removable => b"removable",
    }
}

fn fault_word(kind: GuestFault) -> &'static [u8]
    ensures bytes { result.now ≡ fault_name kind }
    ensures short { length result.now ≤ 8 }
{
    match kind {
        GuestFault::Address => b"address",
        GuestFault::Overflow => b"overflow",
        GuestFault::Reserved => b"reserved",
        GuestFault::Break => b"break",
        GuestFault::BranchInSlot => b"slot",
        GuestFault::Service => b"service",
    }
}

/// Appends a label and then a number in decimal.
fn append_labelled<I: Integer>(text: &mut Text, label: &[u8], number: I)
    requires { array_vec_len text.old + length label.now + I.MAX_STR_LEN ≤ LINE_ROOM }
    ensures bytes { text.new.items ≡ text.old.items ++ (label.now ++ I.text number) }
    ensures short { array_vec_len text.new
        ≤ array_vec_len text.old + length label.now + I.MAX_STR_LEN }
{
    append(text, label);
    append_number(text, number);
}
