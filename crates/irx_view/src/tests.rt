//! Texts of names, versions, libraries, reasons and scripts.

use crate::names::{Library, Name, Version};
use crate::{BadLine, Reason, line_of, version_of, write_script};
use iop_base::Illegal;
use iop_script::{Rule, parse};
use std::test::Fail;

#[test]
fn names_have_texts(rt: HostRuntime) -> Result<(), Fail> {
    let table: [(&[u8], &str); 5] = [
        (b"sysmem", "sysmem"),
        (b"", "\"\""),
        (b"!~\\", "!~\\x5c"),
        (b" a\n", "\\x20a\\x0a"),
        (b"\x7f\x80\xff", "\\x7f\\x80\\xff"),
    ];
    for (bytes, text) in &table {
        let written = format!(in rt.alloc(); "{}", Name(bytes))?;
        assert_eq!(rt; written.as_str(), *text);
    }
    Ok(())
}

#[test]
fn versions_and_libraries_have_texts(rt: HostRuntime) -> Result<(), Fail> {
    let table = [
        (*b"sysmem\0\0", 0x0101, "sysmem 1.1"),
        (*b"loadcore", 0x020A, "loadcore 2.10"),
        (*b"\0rest\0\0\0", 0xFF00, "\"\" 255.0"),
    ];
    for (name, version, text) in &table {
        let library = Library {
            name: *name,
            version: *version,
        };
        let written = format!(in rt.alloc(); "{library}")?;
        assert_eq!(rt; written.as_str(), *text);
    }
    let written = format!(in rt.alloc(); "{}", Version(0x0100))?;
    assert_eq!(rt; written.as_str(), "1.0");
    Ok(())
}

#[test]
fn reasons_have_texts(rt: HostRuntime) -> Result<(), Fail> {
    let table = [
        (1, 0, "breaks rule 1 at byte 0: it has fewer than 52 bytes"),
        (
            12,
            276,
            "breaks rule 12 at byte 276: a section of relocation entries is not in the file, not whole, or names no section",
        ),
        (
            13,
            41,
            "breaks rule 13 at 00000029 of the image: the site of a relocation entry is no word of the image",
        ),
        (
            15,
            40,
            "breaks rule 15 at 00000028 of the image: a relocation entry of type 5 has no later one of type 6 in its section",
        ),
    ];
    for (rule, at, text) in &table {
        let reason = Reason(Illegal {
            rule: *rule,
            at: *at,
        });
        let written = format!(in rt.alloc(); "{reason}")?;
        assert_eq!(rt; written.as_str(), *text);
    }
    Ok(())
}

#[test]
fn bad_lines_have_texts(rt: HostRuntime) -> Result<(), Fail> {
    let reason = BadLine {
        number: 2,
        rule: Rule::FieldCount,
        line: line_of(b"script 1\nat \t\\\xff", 2),
    };
    let written = format!(in rt.alloc(); "{reason}")?;
    assert_eq!(rt;
        written.as_str(),
        "breaks a rule at line 2: it has not four fields: at \\x09\\x5c\\xff"
    );
    Ok(())
}

#[test]
fn scripts_have_texts(rt: HostRuntime) -> Result<(), Fail> {
    let text = b"script 2\nat 36863 line 9\nat 46080 line 3\nat 46081 release 3\nfor a b c\nargs 1";
    let script = parse(rt.alloc(), text)?;
    let mut written = Vec::new(rt.alloc());
    write_script(version_of(text), &script, &mut written)?;
    let wanted = b"version  2
events   3, raised 2, released 1
first    tick 36863, 0.999 ms
last     tick 46081, 1.250 ms
lines    3 9
args     1
for      a b c
";
    assert_eq!(rt; written.as_slice(), wanted.as_slice());
    Ok(())
}
