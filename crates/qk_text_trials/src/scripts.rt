//! Scripts within the grammar, and texts just outside it; symbols, and texts that are none.

use qk_script::{ScriptFault, ScriptItem, parse_script};
use qk_sites::{read_symbol, symbol};
use std::alloc::{AllocError, Global};
use std::test::Fail;

/// The items of a script, one behind another: `KIND@ID`, with `=VALUE` where there is one, or `pause`; else why it is none.
fn told(alloc: Global, text: &str) -> Result<String, AllocError> {
    let mut told = String::new(alloc);
    match parse_script(alloc, text) {
        Ok(items) => {
            for item in items.iter() {
                tell(&mut told, item)?;
            }
        }
        Err(ScriptFault::Line(number)) => told = format!(in alloc; "line {number}")?,
        Err(ScriptFault::TooMany) => told.push_str("too many")?,
        Err(ScriptFault::Memory) => told.push_str("memory")?,
    }
    Ok(told)
}

fn tell(told: &mut String, item: &ScriptItem) -> Result<(), AllocError> {
    match item {
        ScriptItem::Event(event) => {
            told.push_str(event.kind.as_str())?;
            told.push_str("@")?;
            told.push_str(event.id.as_str())?;
            if let Some(value) = &event.value {
                told.push_str("=")?;
                told.push_str(value.as_str())?;
            }
        }
        ScriptItem::Pause => told.push_str("pause")?,
    }
    told.push_str(";")
}

const SCRIPTS: [(&str, &str); 26] = [
    ("", ""),
    ("click b", "click@b;"),
    ("click b\nclick b\n", "click@b;click@b;"),
    (
        "pause\nclick b\npause\npause\n",
        "pause;click@b;pause;pause;",
    ),
    (
        "input p </script>&\"\u{1F600}\npause\ninput p \"\u{1F600}\n",
        "input@p=</script>&\"\u{1F600};pause;input@p=\"\u{1F600};",
    ),
    ("input in milk\r\nclick add\r\n", "input@in=milk;click@add;"),
    ("click b\r", "click@b;"),
    ("click b\r\r\n", "click@b\r;"),
    ("\n\r\n\nclick b\n\n", "click@b;"),
    ("input p ", "input@p=;"),
    ("input p  a b ", "input@p= a b ;"),
    ("pause x", "pause@x;"),
    ("click \u{e9}\u{0}\t", "click@\u{e9}\u{0}\t;"),
    (
        "abcdefghijklmnopqrstuvwxyzabcdef b",
        "abcdefghijklmnopqrstuvwxyzabcdef@b;",
    ),
    // The first line that is none of a script.
    ("click", "line 1"),
    ("click ", "line 1"),
    (" click b", "line 1"),
    ("click  b", "line 1"),
    ("Click b", "line 1"),
    ("click1 b", "line 1"),
    ("pause ", "line 1"),
    ("pauses", "line 1"),
    ("\r\r\n", "line 1"),
    ("click b\n\nclick\nclick\n", "line 3"),
    ("click b\n\u{e9} b", "line 2"),
    ("abcdefghijklmnopqrstuvwxyzabcdefg b", "line 1"),
];

#[test]
fn scripts(rt: HostRuntime) -> Result<(), Fail> {
    for (text, expected) in &SCRIPTS {
        let seen = told(rt.alloc(), text)?;
        assert_eq!(rt; seen.as_str(), *expected, "{text}");
    }
    Ok(())
}

/// So many copies of a text, and another one behind them.
fn copies(alloc: Global, part: &str, count: usize, end: &str) -> Result<String, AllocError> {
    let mut text = String::new(alloc);
    for _ in 0..count {
        text.push_str(part)?;
    }
    text.push_str(end)?;
    Ok(text)
}

/// An id of 256 bytes and one of 257; 65,536 items, one more, and a wrong line behind that many.
#[test]
fn limits(rt: HostRuntime) -> Result<(), Fail> {
    let alloc = rt.alloc();
    let id = copies(alloc, "b", 256, "")?;
    for (front, end, expected) in [("click ", "", "click@"), ("click ", "b", "line 1")] {
        let text = format!(in alloc; "{front}{id}{end}")?;
        assert!(rt; told(alloc, text.as_str())?.starts_with(expected));
    }
    for (end, expected) in [
        ("", "a@b;a@b;"),
        ("pause", "too many"),
        ("pause\nwrong", "line 131074"),
    ] {
        let text = copies(alloc, "a b\n\n", 65_536, end)?;
        assert!(rt; told(alloc, text.as_str())?.starts_with(expected));
    }
    Ok(())
}

/// The module and the number of a symbol; `none` where it is none.
fn site(alloc: Global, text: &str) -> Result<String, AllocError> {
    match read_symbol(text) {
        Some((module, number)) => format!(in alloc; "{module} {number}"),
        None => String::from_str(alloc, "none"),
    }
}

const SYMBOLS: [(&str, &str); 22] = [
    ("root_s1", "root 1"),
    ("a_s4294967295", "a 4294967295"),
    (
        "a23456789012345678901234567890ab_s1",
        "a23456789012345678901234567890ab 1",
    ),
    ("a_s4294967296", "none"),
    ("a_s42949672950", "none"),
    ("a_s0", "none"),
    ("root_s01", "none"),
    ("a_s", "none"),
    ("a_s+1", "none"),
    ("a_s-1", "none"),
    ("a_s1 ", "none"),
    ("A_s1", "none"),
    ("_s1", "none"),
    ("1a_s1", "none"),
    ("a_b_s1", "none"),
    ("a-b_s1", "none"),
    ("a23456789012345678901234567890abc_s1", "none"),
    ("", "none"),
    ("as1", "none"),
    ("a_1", "none"),
    ("a_S1", "none"),
    ("a__s1", "none"),
];

#[test]
fn symbols(rt: HostRuntime) -> Result<(), Fail> {
    let alloc = rt.alloc();
    for (text, expected) in &SYMBOLS {
        let seen = site(alloc, text)?;
        assert_eq!(rt; seen.as_str(), *expected, "{text}");
    }
    assert_eq!(rt; symbol(alloc, "root", 1)?.as_str(), "root_s1");
    assert_eq!(rt; symbol(alloc, "a", 4294967295)?.as_str(), "a_s4294967295");
    Ok(())
}
