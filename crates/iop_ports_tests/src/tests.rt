use iop_ports::{
    CountSink, DiskFiles, Failed, Files, MemFiles, MemSink, Sink, StreamSink, SureFiles,
    TrickleSink, send,
};
use std::alloc::{AllocError, Global};
use std::fs;
use std::process::Abort;
use std::test::Fail;

fn bytes_of(alloc: Global, text: &str) -> Result<Vec<u8>, AllocError> {
    Vec::from_slice(alloc, text.as_bytes())
}

/// Reads once into a buffer of 4 and compares what was read.
fn reads<F: Files>(rt: &impl Abort, files: &mut F, wanted: &str) -> Result<(), Failed> {
    let mut buf = [0; 4];
    let count = files.read(&mut buf)?;
    assert_eq!(rt; &buf[..count], wanted.as_bytes());
    Ok(())
}

/// Writes the piece once and compares the answer.
pub(crate) fn writes<S: Sink>(
    rt: &impl Abort,
    sink: &mut S,
    piece: &str,
    wanted: Result<usize, Failed>,
) {
    assert_eq!(rt; sink.write(piece.as_bytes()), wanted);
}

/// A call of files, and what is wanted of it.
#[derive(Clone, Copy)]
enum Call {
    /// Opens a file.
    Opens(&'static str),
    /// Opens a file in vain.
    Misses(&'static str),
    /// Reads this once into a buffer of 4.
    Reads(&'static str),
    /// Reads in vain.
    Fails,
}

/// Makes calls of files, one after the other.
fn call_all<F: Files>(rt: &impl Abort, files: &mut F, calls: &[Call]) {
    for call in calls {
        match *call {
            Call::Opens(name) => assert_eq!(rt; files.open_file(name), Ok(())),
            Call::Misses(name) => assert_eq!(rt; files.open_file(name), Err(Failed)),
            Call::Reads(wanted) => assert_eq!(rt; reads(rt, files, wanted), Ok(())),
            Call::Fails => assert_eq!(rt; reads(rt, files, ""), Err(Failed)),
        }
    }
}

/// Makes files in memory, of which these calls fail.
fn files_of(
    alloc: Global,
    faults: Vec<u64>,
    added: &[(&'static str, &'static str)],
) -> Result<MemFiles, Fail> {
    let mut files = MemFiles::new(alloc, faults);
    for (name, text) in added {
        files.add(name, bytes_of(alloc, text)?)?;
    }
    Ok(files)
}

/// The file that the test of the host's files writes and removes.
const DISK_FILE: &str = "iop_ports_disk_files_test";

#[test]
fn mem_files_are_read_in_pieces(rt: HostRuntime) -> Result<(), Fail> {
    let added = [("one", "old"), ("two", "second"), ("one", "abcdefghij")];
    let mut files = files_of(rt.alloc(), Vec::new(rt.alloc()), &added)?;
    let calls = [
        Call::Reads(""),
        Call::Opens("one"),
        Call::Reads("abcd"),
        Call::Reads("efgh"),
        Call::Reads("ij"),
        Call::Reads(""),
        Call::Opens("two"),
        Call::Reads("seco"),
    ];
    call_all(&rt, &mut files, &calls);
    assert_eq!(rt; (files.calls(), files.faults(), files.strays()), (8, 0, 0));
    Ok(())
}

#[test]
fn mem_files_fail_where_listed_and_at_strays(rt: HostRuntime) -> Result<(), Fail> {
    let added = [("one", "abcdef")];
    let mut files = files_of(rt.alloc(), vec![in rt.alloc(); 2, 4]?, &added)?;
    let calls = [
        Call::Opens("one"),
        Call::Fails,
        Call::Reads("abcd"),
        Call::Misses("one"),
        Call::Reads(""),
        Call::Misses("other"),
    ];
    call_all(&rt, &mut files, &calls);
    assert_eq!(rt; (files.calls(), files.faults(), files.strays()), (6, 3, 1));
    Ok(())
}

#[test]
fn mem_sinks_take_what_they_have_room_for(rt: HostRuntime) -> Result<(), Fail> {
    let alloc = rt.alloc();
    let mut sink = MemSink::new(alloc, 5, vec![in alloc; 2]?)?;
    let table = [
        ("", Ok(0)),
        ("abc", Ok(3)),
        ("defg", Err(Failed)),
        ("defg", Ok(2)),
        ("fg", Err(Failed)),
        ("", Ok(0)),
    ];
    for (piece, wanted) in table {
        writes(&rt, &mut sink, piece, wanted);
    }
    assert_eq!(rt; sink.bytes(), b"abcde".as_slice());
    assert_eq!(rt; sink.calls(), 4);
    assert_eq!(rt; sink.faults(), 2);
    Ok(())
}

#[test]
fn pieces_are_sent_whole_or_fail(rt: HostRuntime) -> Result<(), Fail> {
    let alloc = rt.alloc();
    let mut sink = MemSink::new(alloc, 5, vec![in alloc; 2]?)?;
    assert!(rt; send(&mut sink, b"ab"));
    assert!(rt; send(&mut sink, b""));
    assert!(rt; !send(&mut sink, b"cd"));
    assert!(rt; !send(&mut sink, b"cdef"));
    assert_eq!(rt; sink.bytes(), b"abcde".as_slice());
    assert_eq!(rt; sink.calls(), 4);
    Ok(())
}

#[test]
fn trickle_sinks_take_one_byte_at_a_time(rt: HostRuntime) -> Result<(), Fail> {
    let alloc = rt.alloc();
    let mut sink = TrickleSink::new(alloc, 3, vec![in alloc; 2]?)?;
    let table = [
        ("", Ok(0)),
        ("abc", Ok(1)),
        ("bc", Err(Failed)),
        ("bc", Ok(1)),
        ("c", Ok(1)),
        ("d", Err(Failed)),
        ("", Ok(0)),
    ];
    for (piece, wanted) in table {
        writes(&rt, &mut sink, piece, wanted);
    }
    assert_eq!(rt; sink.bytes(), b"abc".as_slice());
    assert_eq!(rt; sink.calls(), 5);
    assert_eq!(rt; sink.faults(), 2);
    Ok(())
}

#[test]
fn pieces_are_sent_byte_by_byte(rt: HostRuntime) -> Result<(), Fail> {
    let alloc = rt.alloc();
    let mut sink = TrickleSink::new(alloc, 5, vec![in alloc; 4]?)?;
    assert!(rt; send(&mut sink, b"ab"));
    assert!(rt; send(&mut sink, b""));
    assert!(rt; !send(&mut sink, b"cd"));
    assert!(rt; send(&mut sink, b"de"));
    assert_eq!(rt; sink.bytes(), b"abcde".as_slice());
    assert_eq!(rt; sink.calls(), 6);
    Ok(())
}

#[test]
fn sure_files_read_a_name_that_was_not_added_as_empty(rt: HostRuntime) -> Result<(), Fail> {
    let mut files = SureFiles::new(rt.alloc());
    files.add("one", bytes_of(rt.alloc(), "abcdef")?)?;
    let calls = [
        Call::Opens("one"),
        Call::Reads("abcd"),
        Call::Opens("other"),
        Call::Reads(""),
    ];
    call_all(&rt, &mut files, &calls);
    Ok(())
}

#[test]
fn count_sinks_count(rt: HostRuntime) {
    let mut sink = CountSink::new();
    writes(&rt, &mut sink, "abc", Ok(3));
    writes(&rt, &mut sink, "", Ok(0));
    writes(&rt, &mut sink, "defg", Ok(4));
    assert_eq!(rt; sink.count, 7);
}

#[test]
fn disk_files_are_the_host_s(rt: HostRuntime) -> Result<(), Fail> {
    fs::write(&rt, DISK_FILE, "abcdef")?;
    let mut files = DiskFiles::new(rt.clone()?);
    let calls = [
        Call::Reads(""),
        Call::Opens(DISK_FILE),
        Call::Reads("abcd"),
        Call::Reads("ef"),
        Call::Reads(""),
    ];
    call_all(&rt, &mut files, &calls);
    fs::remove_file(&rt, DISK_FILE)?;
    let calls = [Call::Misses(DISK_FILE), Call::Reads("")];
    call_all(&rt, &mut files, &calls);
    Ok(())
}

#[test]
fn stream_sinks_give_their_bytes_to_the_writer(rt: HostRuntime) -> Result<(), Fail> {
    let mut written = Vec::new(rt.alloc());
    let mut sink = StreamSink::new(&mut written);
    writes(&rt, &mut sink, "", Ok(0));
    writes(&rt, &mut sink, "abc", Ok(3));
    drop(sink);
    assert_eq!(rt; written.as_slice(), b"abc".as_slice());
    Ok(())
}
