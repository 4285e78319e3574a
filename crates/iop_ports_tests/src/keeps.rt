use crate::tests::writes;
use iop_ports::{DiskKeep, Failed, Keep, MemKeep};
use std::process::Abort;
use std::test::Fail;
use std::{fs, str};

/// A call of a keep.
#[derive(Clone, Copy)]
enum Call {
    /// Creates a file of this name.
    Create(&'static str),
    /// Writes this once.
    Write(&'static str),
}

/// Makes a call. A creation that succeeds has the answer 0.
fn make_call<K: Keep>(keep: &mut K, call: Call) -> Result<usize, Failed> {
    match call {
        Call::Create(name) => keep.create(name).map(|()| 0),
        Call::Write(piece) => keep.write(piece.as_bytes()),
    }
}

/// The counts of a keep: calls, faults, creations, and the faults before the last of these.
fn counts_of(keep: &MemKeep) -> [u64; 4] {
    [
        keep.calls(),
        keep.faults(),
        keep.creates(),
        keep.faults_before(),
    ]
}

/// Asks for a file and compares the answer.
fn creates<K: Keep>(rt: &impl Abort, keep: &mut K, name: &str, wanted: Result<(), Failed>) {
    assert_eq!(rt; keep.create(name), wanted);
}

/// The file that the test of the host's files writes and removes.
const DISK_FILE: &str = "iop_ports_disk_keep_test";

#[test]
fn mem_keeps_take_bytes_where_a_file_was_created(rt: HostRuntime) -> Result<(), Fail> {
    let alloc = rt.alloc();
    let mut keep = MemKeep::new(alloc, 5, vec![in alloc; 4, 7]?)?;
    assert_eq!(rt; keep.name(), None);
    let table = [
        (Call::Write(""), Ok(0), "", [0, 0, 0, 0]),
        (Call::Write("ab"), Err(Failed), "", [1, 1, 0, 0]),
        (Call::Create("one"), Ok(0), "", [2, 1, 1, 1]),
        (Call::Write("abc"), Ok(3), "abc", [3, 1, 1, 1]),
        (Call::Write("de"), Err(Failed), "abc", [4, 2, 1, 1]),
        (Call::Write("defg"), Ok(2), "abcde", [5, 2, 1, 1]),
        (Call::Write("fg"), Err(Failed), "abcde", [6, 3, 1, 1]),
        (Call::Create("two"), Err(Failed), "abcde", [7, 4, 2, 3]),
        (Call::Write("x"), Err(Failed), "abcde", [8, 5, 2, 3]),
        (Call::Write(""), Ok(0), "abcde", [8, 5, 2, 3]),
        (Call::Create("three"), Ok(0), "", [9, 5, 3, 5]),
        (Call::Write("xyz"), Ok(3), "xyz", [10, 5, 3, 5]),
    ];
    for (step, answer, bytes, counts) in table {
        assert_eq!(rt; make_call(&mut keep, step), answer);
        assert_eq!(rt; keep.bytes(), bytes.as_bytes());
        assert_eq!(rt; counts_of(&keep), counts);
        if let Call::Create(name) = step {
            assert_eq!(rt; keep.name(), Some(name));
        }
    }
    Ok(())
}

#[test]
fn mem_keeps_refuse_names_that_are_too_long(rt: HostRuntime) -> Result<(), Fail> {
    let alloc = rt.alloc();
    let mut keep = MemKeep::new(alloc, 5, Vec::new(alloc))?;
    let letters = [b'n'; 256];
    let longest = str::from_utf8(&letters[..255])?;
    let too_long = str::from_utf8(&letters)?;
    creates(&rt, &mut keep, longest, Ok(()));
    assert_eq!(rt; keep.name(), Some(longest));
    writes(&rt, &mut keep, "ab", Ok(2));
    creates(&rt, &mut keep, too_long, Err(Failed));
    assert_eq!(rt; keep.name(), None);
    assert_eq!(rt; keep.bytes(), b"ab".as_slice());
    assert_eq!(rt; counts_of(&keep), [3, 1, 2, 0]);
    Ok(())
}

#[test]
fn disk_keeps_write_the_host_s_files(rt: HostRuntime) -> Result<(), Fail> {
    fs::write(&rt, DISK_FILE, "what stood there before")?;
    let mut keep = DiskKeep::new(rt.clone()?);
    writes(&rt, &mut keep, "ab", Err(Failed));
    writes(&rt, &mut keep, "", Ok(0));
    creates(&rt, &mut keep, DISK_FILE, Ok(()));
    writes(&rt, &mut keep, "abcd", Ok(4));
    writes(&rt, &mut keep, "", Ok(0));
    writes(&rt, &mut keep, "ef", Ok(2));
    creates(&rt, &mut keep, "iop_ports_no_such_folder/file", Err(Failed));
    writes(&rt, &mut keep, "gh", Err(Failed));
    assert_eq!(rt; fs::read_to_string(&rt, DISK_FILE)?.as_str(), "abcdef");
    creates(&rt, &mut keep, DISK_FILE, Ok(()));
    assert_eq!(rt; fs::read_to_string(&rt, DISK_FILE)?.as_str(), "");
    fs::remove_file(&rt, DISK_FILE)?;
    Ok(())
}
