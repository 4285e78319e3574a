use iop_script::{Raise, Rule, Script, ScriptFault, Version, Word, parse};
use std::alloc::Global;
use std::test::Fail;

/// Reads a text: its first bad line and the rule that it breaks, or None where all are good.
fn bad_line(alloc: Global, text: &[u8]) -> Result<Option<(u32, Rule)>, ScriptFault> {
    match parse(alloc, text) {
        Ok(_) => Ok(None),
        Err(ScriptFault::Line { number, rule }) => Ok(Some((number, rule))),
        Err(ScriptFault::Memory) => Err(ScriptFault::Memory),
    }
}

/// Reads a text: the number of its first bad line, or 0 where all are good.
fn bad_number(alloc: Global, text: &[u8]) -> Result<u32, ScriptFault> {
    match bad_line(alloc, text)? {
        Some((number, _)) => Ok(number),
        None => Ok(0),
    }
}

#[test]
fn bad_lines(rt: HostRuntime) -> Result<(), Fail> {
    let rows = [
        ("", 1),
        ("script 3\n", 1),
        ("script 1 \n", 1),
        ("script 1", 0),
        ("script 1\n", 0),
        ("script 1\n\n# any\u{7f}\rbytes\n#\n\n", 0),
        ("script 1\r\n", 1),
        ("script 1\nat 5 line 0\r\n", 2),
        ("script 1\nat 5 line 64\n", 2),
        ("script 1\nat 5 line 63", 0),
        ("script 1\nat 05 line 1\n", 2),
        ("script 1\nat 0 line 0\nat 0 line 0\n", 0),
        ("script 1\nat  5 line 1\n", 2),
        ("script 1\nat 5 line 1 \n", 2),
        ("script 1\nat 5 line\n", 2),
        ("script 1\nat +5 line 1\n", 2),
        ("script 1\nat 9223372036854775807 line 0\n", 0),
        ("script 1\nat 9223372036854775808 line 0\n", 2),
        ("script 1\nat 18446744073709551621 line 0\n", 2),
        ("script 1\nat 6 line 1\nargs 1\n\nat 5 line 1\n", 5),
        ("script 1\nargs 1\n", 0),
        ("script 1\nargs 1 \n", 2),
        ("script 1\nargs 0 a\n", 2),
        ("script 1\nargs 64 a\n", 0),
        ("script 1\nargs 65\n", 2),
        ("script 1\nargs 2 a  b\n", 2),
        ("script 1\nargs 2 a\tb\n", 2),
        ("script 1\nargs 2 !~\n", 0),
        ("script 1\nargs 2 \u{7f}\n", 2),
        ("script 1\nargs 2 a\nargs 1 a\nargs 2 a\n", 4),
        ("script 1\nargs 1 a b c d e f g h i j k l m n o\n", 0),
        ("script 1\nargs 1 a b c d e f g h i j k l m n o p\n", 2),
        ("script 1\n at 5 line 1\n", 2),
        ("script 1\nscript 1\n", 2),
        ("script 1\nat 5 release 1\n", 2),
        ("script 1\nfor m.irx a\n", 2),
    ];
    for (text, line) in rows {
        assert_eq!(rt; bad_number(rt.alloc(), text.as_bytes())?, line);
    }
    Ok(())
}

#[test]
fn bad_lines_of_version_2(rt: HostRuntime) -> Result<(), Fail> {
    let rows = [
        ("script 2", 0),
        ("script 2\n\n# any\n", 0),
        ("script 2 \n", 1),
        ("script 2\nscript 1\n", 2),
        ("script 2\nat 5 line 0\nat 9 release 0\n", 0),
        (
            "script 2\nat 5 release 63\nat 5 line 63\nat 5 release 63",
            0,
        ),
        ("script 2\nat 5 release 64\n", 2),
        ("script 2\nat 5 released 0\n", 2),
        ("script 2\nat 6 line 0\nat 5 release 0\n", 3),
        ("script 2\nat 6 release 0\nat 5 line 0\n", 3),
        ("script 2\nargs 1 a\nfor m.irx a bc\nargs 2\nfor n.irx\n", 0),
        (
            "script 2\nfor m.irx a\nfor M.irx a\nfor m.ir a\nfor m.irxx a\n",
            0,
        ),
        ("script 2\nfor m.irx a\nfor n.irx b\nfor m.irx\n", 4),
        ("script 2\nfor\n", 2),
        ("script 2\nfor \n", 2),
        ("script 2\nfor  a\n", 2),
        ("script 2\nfor m.irx \n", 2),
        ("script 2\nfor m\tx\n", 2),
        ("script 2\nfor !~ a b c d e f g h i j k l m n o\n", 0),
        ("script 2\nfor !~ a b c d e f g h i j k l m n o p\n", 2),
    ];
    for (text, line) in rows {
        assert_eq!(rt; bad_number(rt.alloc(), text.as_bytes())?, line);
    }
    Ok(())
}

#[test]
fn broken_rules(rt: HostRuntime) -> Result<(), Fail> {
    let rows = [
        ("script 0", 1, Rule::FirstLine),
        ("script 1\nraise 5 line 1", 2, Rule::Keyword),
        ("script 1\nfor m.irx a", 2, Rule::Keyword),
        ("script 1\nat x y", 2, Rule::FieldCount),
        ("script 1\nat x y z w", 2, Rule::FieldCount),
        ("script 1\nat 05 y z", 2, Rule::Tick),
        ("script 1\nat 5 release 64", 2, Rule::Change),
        ("script 1\nat 5 line 64", 2, Rule::InterruptLine),
        (
            "script 1\nat 6 line 0\nat 5 line 64",
            3,
            Rule::InterruptLine,
        ),
        ("script 1\nat 6 line 0\nat 5 line 63", 3, Rule::TickOrder),
        ("script 1\nargs", 2, Rule::Module),
        ("script 1\nargs 65  ", 2, Rule::Module),
        (
            "script 1\nargs 1  b c d e f g h i j k l m n o p",
            2,
            Rule::WordCount,
        ),
        ("script 1\nargs 1 a\nargs 1  b", 3, Rule::WordBytes),
        ("script 1\nargs 1 a\nargs 1 b", 3, Rule::ModuleOnce),
        ("script 2\nraise 5 line 1", 2, Rule::Keyword),
        ("script 2\nat x y", 2, Rule::FieldCount),
        ("script 2\nat 05 y z", 2, Rule::Tick),
        ("script 2\nat 5 y 64", 2, Rule::Change),
        ("script 2\nat 5 release 64", 2, Rule::InterruptLine),
        ("script 2\nat 6 line 0\nat 5 release 63", 3, Rule::TickOrder),
        ("script 2\nargs 65  ", 2, Rule::Module),
        ("script 2\nargs 1 a\nargs 1 b", 3, Rule::ModuleOnce),
        ("script 2\nfor", 2, Rule::Name),
        ("script 2\nfor  ", 2, Rule::Name),
        (
            "script 2\nfor m  b c d e f g h i j k l m n o p",
            2,
            Rule::WordCount,
        ),
        ("script 2\nfor m a\nfor m  b", 3, Rule::WordBytes),
        ("script 2\nfor m a\nfor m b", 3, Rule::NameOnce),
    ];
    for (text, line, rule) in rows {
        assert_eq!(rt; bad_line(rt.alloc(), text.as_bytes())?, Some((line, rule)));
    }
    Ok(())
}

/// Makes a text that begins with these bytes and is this long.
fn long_text(alloc: Global, front: &[u8], len: usize) -> Result<Vec<u8>, Fail> {
    let mut text = Vec::from_slice(alloc, front)?;
    for _ in front.len()..len {
        text.push(b'w')?;
    }
    Ok(text)
}

#[test]
fn longest_lines(rt: HostRuntime) -> Result<(), Fail> {
    let fronts = [
        b"script 1\nargs 1 ".as_slice(),
        b"script 2\nargs 1 ".as_slice(),
        b"script 2\nfor m.irx ".as_slice(),
        b"script 2\nfor ".as_slice(),
    ];
    for front in fronts {
        let text = long_text(rt.alloc(), front, 9 + 2_048)?;
        assert_eq!(rt; bad_line(rt.alloc(), &text)?, None);
        let text = long_text(rt.alloc(), front, 9 + 2_049)?;
        assert_eq!(rt; bad_line(rt.alloc(), &text)?, Some((2, Rule::LineLength)));
    }
    Ok(())
}

/// Tells whether words have these bytes.
fn are_words(words: &[Word], wanted: &[&[u8]]) -> bool {
    words.len() == wanted.len()
        && words
            .iter()
            .zip(wanted)
            .all(|(word, bytes)| word.bytes.as_slice() == *bytes)
}

/// Tells whether a script has these words for a module, at a place among the others.
fn has_args(script: &Script, place: usize, module: u32, words: &[&[u8]]) -> bool {
    match script.args.get(place) {
        Some(args) => args.module == module && are_words(&args.words, words),
        None => false,
    }
}

/// Tells whether a script has these words for a name, at a place among the others.
fn has_named(script: &Script, place: usize, name: &[u8], words: &[&[u8]]) -> bool {
    match script.named.get(place) {
        Some(named) => named.name.as_slice() == name && are_words(&named.words, words),
        None => false,
    }
}

/// Tells whether a script has so many events, and at a place this one.
fn has_event(script: &Script, count: usize, place: usize, event: Raise) -> bool {
    script.events.len() == count && script.events.get(place) == Some(&event)
}

/// Makes an event.
fn event(at: u64, line: u8, up: bool) -> Raise {
    Raise { at, line, up }
}

#[test]
fn what_is_read(rt: HostRuntime) -> Result<(), Fail> {
    let text = b"script 1\nat 7 line 3\nargs 2 a bc\n#\nat 7 line 1\nargs 1";
    let script = parse(rt.alloc(), text)?;
    assert!(rt; has_event(&script, 2, 0, event(7, 3, true)));
    assert!(rt; has_event(&script, 2, 1, event(7, 1, true)));
    assert!(rt; has_args(&script, 0, 2, &[b"a".as_slice(), b"bc".as_slice()]));
    assert!(rt; has_args(&script, 1, 1, &[]));
    assert_eq!(rt; (script.args.len(), script.named.len()), (2, 0));
    Ok(())
}

#[test]
fn what_is_read_of_version_2(rt: HostRuntime) -> Result<(), Fail> {
    let text = b"script 2\nat 7 line 3\nfor m.irx a bc\nat 7 release 3\nargs 1 d\nfor n";
    let script = parse(rt.alloc(), text)?;
    assert!(rt; has_event(&script, 2, 0, event(7, 3, true)));
    assert!(rt; has_event(&script, 2, 1, event(7, 3, false)));
    assert!(rt; has_named(&script, 0, b"m.irx", &[b"a".as_slice(), b"bc".as_slice()]));
    assert!(rt; has_named(&script, 1, b"n", &[]));
    assert_eq!(rt; (script.args.len(), script.named.len()), (1, 2));
    Ok(())
}

#[test]
fn versions(rt: HostRuntime) -> Result<(), Fail> {
    assert_eq!(rt; Version::of_line(b"script 1"), Some(Version::One));
    assert_eq!(rt; Version::of_line(b"script 2"), Some(Version::Two));
    assert_eq!(rt; Version::of_line(b"script 2\n"), None);
    Ok(())
}
