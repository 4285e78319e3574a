use iop_options::{Options, RamSize, WordFault, parse_options};
use std::alloc::Global;
use std::str::Lines;
use std::test::Fail;

/// Command lines, and what each of them chooses.
const TABLE: &str = "\
a|10000000 none [a]
a - b|10000000 none [a] [-] [b]
--script s --budget=5 a|5 s [a]
a --budget 0 b --script - -|0 - [a] [b] [-]
a --script=--b|10000000 --b [a]
a --script=x=y=|10000000 x=y= [a]
--budget 1 -- --budget -x -- =|1 none [--budget] [-x] [--] [=]
--budget 0001000000000000 a|1000000000000 none [a]
--dump 80001000:10 a|10000000 none dump 80001000:10 [a]
--dump a0000000:10000 a|10000000 none dump a0000000:10000 [a]
--dump=0000aBcD:00000001 a|10000000 none dump abcd:1 [a]
--dump 1ffff0:10 a|10000000 none dump 1ffff0:10 [a]
--ram 2 a|10000000 none [a]
--ram=8 a|10000000 none ram 8 [a]
a --ram 8 --budget 1 -- --ram|1 none ram 8 [a] [--ram]
--ram 8 --dump 7ffff0:10 a|10000000 none dump 7ffff0:10 ram 8 [a]
--dump 80200000:10000 a --ram 8|10000000 none dump 80200000:10000 ram 8 [a]
--dump a01ffff0:10 --ram 2 a|10000000 none dump a01ffff0:10 [a]
--ram 8 --generate 2|10000000 none ram 8 generate 2
--generate 250|10000000 none generate 250
--generate=0001 --budget 7 --|7 none generate 1
--script é é|10000000 é [é]
--save s a|10000000 none save s [a]
a --save=-x --script f|10000000 f save -x [a]
--save s --ram 8 --dump 7ffff0:10 a|10000000 none dump 7ffff0:10 ram 8 save s [a]
--generate 3 --save=s|10000000 none generate 3 save s
--restore s|10000000 none restore s
--restore=--x --budget 7 --|7 none restore --x
--save s --restore s|10000000 none save s restore s
--restore - --dump 1ffff0:10|10000000 none dump 1ffff0:10 restore -
-- --restore --save|10000000 none [--restore] [--save]
|bad
--|bad
--budget 5|bad
--budget|bad
a --budget|bad
--budget -- 5 a|bad
--budget -5 a|bad
--budget --script a|bad
--budget=5 --budget 6 a|bad
--script a a --script b|bad
--budget= a|bad
--budget  a|bad
--budget +5 a|bad
--budget 5x a|bad
--budget 1000000000001 a|bad
--budget 18446744073709551621 a|bad
--script= a|bad
--dump 0:0 a|bad
--dump 0:10001 a|bad
--dump 1ffff0:11 a|bad
--dump 200000:1 a|bad
--dump c0000000:1 a|bad
--dump 000000000:1 a|bad
--dump 0x10:1 a|bad
--dump 10 a|bad
--dump 10: a|bad
--dump :10 a|bad
--dump 10:1:1 a|bad
--dump +10:1 a|bad
--ram 8 --dump 7ffff0:11 a|bad
--dump 800000:1 a --ram 8|bad
--dump 1ffff0:11 a --ram 2|bad
--ram 2 --dump 7ffff0:10 a|bad
--ram 4 a|bad
--ram 0 a|bad
--ram 28 a|bad
--ram 08 a|bad
--ram 8M a|bad
--ram= a|bad
--ram  a|bad
--ram|bad
--ram -- 8 a|bad
--ram 8 --ram 8 a|bad
--ram=2 a --ram=8|bad
--generate 0|bad
--generate 251|bad
--generate 4294967297|bad
--generate 1 a|bad
--generate 1 |bad
--save s|bad
--save= a|bad
--save  a|bad
--save --restore s|bad
--save s --save t a|bad
--save -x a|bad
--restore|bad
--restore=|bad
--restore |bad
--restore s --restore s|bad
--restore s --ram 8|bad
--ram 2 --restore s|bad
--restore s --script f|bad
--restore s a.irx|bad
--restore s -- a|bad
--restore s |bad
--restore s --generate 3|bad
--restore s --generate 3 a|bad
--restore s --dump 7ffff0:10|bad
--dump 1ffff0:11 --restore s|bad
a |bad
-a|bad
-é a|bad
a --help|bad
a --saves s|bad
--restores s|bad
-h|bad
--version a|bad
help a|10000000 none [help] [a]
--budge 5 a|bad
--=5 a|bad
--module a|bad
--budget5 a|bad
--dump5 a|bad
--ram8 a|bad
";

/// Gives the lines of the table.
fn rows() -> Lines<'static> {
    TABLE.lines()
}

/// Gives the words of a command line, which are separated by single spaces.
fn words_of(alloc: Global, line: &str) -> Result<Vec<String>, Fail> {
    let mut words = Vec::new(alloc);
    for word in line.split(' ') {
        words.push(String::from_str(alloc, word)?)?;
    }
    Ok(words)
}

/// Tells what a command line chooses, as a line of text.
fn chosen(alloc: Global, line: &str) -> Result<String, Fail> {
    match parse_options(alloc, &words_of(alloc, line)?) {
        Ok(options) => shown(alloc, &options),
        Err(WordFault::Bad) => Ok(String::from_str(alloc, "bad")?),
        Err(WordFault::Memory) => Ok(String::from_str(alloc, "memory")?),
    }
}

/// Writes the options as a line of text.
fn shown(alloc: Global, options: &Options) -> Result<String, Fail> {
    let script = match &options.script {
        Some(name) => name.as_str(),
        None => "none",
    };
    let mut text = format!(in alloc; "{} {}", options.budget, script)?;
    if let Some(range) = options.dump {
        text.push_str(format!(in alloc; " dump {:x}:{:x}", range.from, range.len)?.as_str())?;
    }
    if options.ram == RamSize::EightMiB {
        text.push_str(" ram 8")?;
    }
    if let Some(workers) = options.generate {
        text.push_str(format!(in alloc; " generate {}", workers)?.as_str())?;
    }
    if let Some(name) = &options.save {
        text.push_str(format!(in alloc; " save {}", name.as_str())?.as_str())?;
    }
    if let Some(name) = &options.restore {
        text.push_str(format!(in alloc; " restore {}", name.as_str())?.as_str())?;
    }
    for module in options.modules.iter() {
        text.push_str(format!(in alloc; " [{}]", module.as_str())?.as_str())?;
    }
    Ok(text)
}

#[test]
fn command_lines(rt: HostRuntime) -> Result<(), Fail> {
    for row in rows() {
        let (line, wanted) = row.split_once('|').ok_or("a row")?;
        assert_eq!(rt; chosen(rt.alloc(), line)?.as_str(), wanted, "{line}");
    }
    Ok(())
}

/// Reads a command of modules alone, each with a name of so many bytes.
fn is_command(alloc: Global, modules: usize, bytes: usize) -> Result<bool, Fail> {
    let mut words = Vec::new(alloc);
    for _ in 0..modules {
        words.push("m".repeat(alloc, bytes)?)?;
    }
    Ok(parse_options(alloc, &words).is_ok())
}

#[test]
fn counts_and_lengths(rt: HostRuntime) -> Result<(), Fail> {
    assert!(rt; is_command(rt.alloc(), 64, 255)?);
    assert!(rt; !is_command(rt.alloc(), 65, 1)?);
    assert!(rt; !is_command(rt.alloc(), 1, 256)?);
    Ok(())
}

/// Reads a command line with one more word, which is a text so many times.
fn takes_name(alloc: Global, line: &str, text: &str, times: usize) -> Result<bool, Fail> {
    let mut words = words_of(alloc, line)?;
    words.push(text.repeat(alloc, times)?)?;
    Ok(parse_options(alloc, &words).is_ok())
}

#[test]
fn names_of_snapshots(rt: HostRuntime) -> Result<(), Fail> {
    for line in ["a --save", "--restore"] {
        assert!(rt; takes_name(rt.alloc(), line, "s", 1)?, "{line}");
        assert!(rt; takes_name(rt.alloc(), line, "s", 255)?, "{line}");
        assert!(rt; takes_name(rt.alloc(), line, "é", 127)?, "{line}");
        assert!(rt; !takes_name(rt.alloc(), line, "s", 0)?, "{line}");
        assert!(rt; !takes_name(rt.alloc(), line, "s", 256)?, "{line}");
        assert!(rt; !takes_name(rt.alloc(), line, "é", 128)?, "{line}");
    }
    Ok(())
}
