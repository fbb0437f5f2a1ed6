use rp_ini::parse;
use std::fmt::Write;
use std::test::Fail;

// A text and what it gives, the sections with their assignments and lines, or the fault. Line feeds are ⏎, carriage
// returns ␍, tabs ⇥, spaces at an end ␣, NUL ␀ and byte order marks ◊.
const ROWS: &str = r"
 => 
⏎⏎ => 
[a] => [a]
[a]⏎k=v => [a]k=v@2;
[a]⏎  k = v ⇥⏎ => [a]k=v@2;
[a]⏎⇥k⇥=⇥v w⇥ => [a]k=v w@2;
[a]⏎k= => [a]k=@2;
[a]⏎k==v => [a]k==v@2;
[a]⏎k=1⏎k=2 => [a]k=1@2;k=2@3;
[a] ⇥ => [a]
[ a ]⏎k=v => [ a ]k=v@2;
[a]⏎x=1⏎[b]⏎y=2⏎[a]⏎z=3 => [a]x=1@2;z=3@6;[b]y=2@4;
[A]⏎x=1⏎[a]⏎x=2 => [A]x=1@2;[a]x=2@4;
[a]⏎# c⏎; d⏎k=v => [a]k=v@4;
[a]⏎  #c=1⏎k=v#x;y => [a]k=v#x;y@3;
;[a] => 
Weight=1 => NoSection { line: 1 }
#⏎⏎ k = v => NoSection { line: 3 }
abc => BadLine { line: 1 }
=x => BadLine { line: 1 }
[a]⏎ = x => BadLine { line: 2 }
[a]⏎k => BadLine { line: 2 }
[a]b => BadLine { line: 1 }
[] => BadLine { line: 1 }
[a][b] => BadLine { line: 1 }
[a => BadLine { line: 1 }
[a]] => BadLine { line: 1 }
[[a] => BadLine { line: 1 }
[a=b => BadLine { line: 1 }
bad⏎k=v => BadLine { line: 1 }
k=v⏎bad => NoSection { line: 1 }
[a]⏎k=v⏎[b⏎x => BadLine { line: 3 }
[a]⏎k=v\⏎w => [a]k=v w@2;
[a]⏎k=v\⏎  w⏎x=1 => [a]k=v w@2;x=1@4;
[a]⏎k=v\\⏎w=x => [a]k=v\\@2;w=x@3;
[a]⏎k=v\\\⏎w => [a]k=v\\ w@2;
[a]⏎k=v\ => [a]k=v@2;
[a]⏎k=v\⏎ => [a]k=v@2;
[a]⏎k=v\⏎⏎w=x => [a]k=v@2;w=x@4;
[a]⏎k=v\⏎ ⇥⏎w=x => [a]k=v@2;w=x@4;
[a]⏎k=v\⏎# c⏎w => [a]k=v w@2;
[a]⏎k=v\⏎;c\⏎w => [a]k=v w@2;
[a]⏎k=v\\␣⏎w=x => [a]k=v\\@2;w=x@3;
\⏎[a] => BadLine { line: 1 }
[a]⏎\⏎k=v => [a]k=v@2;
[a]⏎\⏎\⏎ => [a]
[a\⏎b] => [a b]
[a]⏎k\⏎=\⏎v => [a]k=v@2;
[a]⏎⏎x\⏎⏎y => BadLine { line: 3 }
[a]␍⏎k=v␍⏎ => [a]k=v@2;
[a]⏎k=v␍ => [a]k=v@2;
[a]⏎k=v␍␍⏎ => [a]k=v␍@2;
[a]⏎k=v␍w⏎ => [a]k=v␍w@2;
[a]␍⏎k=v\␍⏎w => [a]k=v w@2;
[a]⏎k=␀x => [a]k=␀x@2;
◊[a]⏎k=v => [a]k=v@2;
[a]⏎k=◊v => [a]k=◊v@2;
◊◊[a] => BadLine { line: 1 }
";

// The text that a row shows.
fn meant(rt: &impl AllocGlobal, row: &str) -> Result<String, Fail> {
    let mut text = String::new(rt.alloc());
    for c in row.chars() {
        text.push(match c {
            '⏎' => '\n',
            '␍' => '\r',
            '⇥' => '\t',
            '␣' => ' ',
            '␀' => '\0',
            '◊' => '\u{feff}',
            other => other,
        })?;
    }
    Ok(text)
}

// A file as its sections with their assignments and lines, or its fault.
fn shown(rt: &impl AllocGlobal, bytes: &[u8]) -> Result<String, Fail> {
    let mut text = String::new(rt.alloc());
    if bytes.len() > 100_000 {
        return Ok(text);
    }
    match parse(rt.alloc(), bytes) {
        Err(fault) => write!(text, "{fault:?}")?,
        Ok(file) => {
            for name in file.names() {
                write!(text, "[{}]", name.as_str())?;
                for assign in file.section(name.as_str()) {
                    write!(
                        text,
                        "{}={}@{};",
                        assign.key.as_str(),
                        assign.value.as_str(),
                        assign.line
                    )?;
                }
            }
        }
    }
    Ok(text)
}

// A text with many of a letter between a front and a back.
fn filled(rt: &impl AllocGlobal, front: &str, count: u16, back: &str) -> Result<String, Fail> {
    let mut text = String::from_str(rt.alloc(), front)?;
    for _ in 0..count {
        text.push('v')?;
    }
    text.push_str(back)?;
    Ok(text)
}

fn gives(rt: &impl AllocGlobal, bytes: &[u8], want: &str) -> Result<bool, Fail> {
    Ok(shown(rt, bytes)?.as_str() == want)
}

#[test]
fn rows(rt: HostRuntime) -> Result<(), Fail> {
    let mut count = 0u64;
    for row in ROWS.lines() {
        if let Some((input, want)) = row.split_once(" => ") {
            let input = meant(&rt, input)?;
            let want = meant(&rt, want)?;
            assert!(rt; gives(&rt, input.as_bytes(), want.as_str())?, "at {row}");
            count = count.saturating_add(1);
        }
    }
    assert_eq!(rt; count, 58);
    Ok(())
}

#[test]
fn bytes_and_lengths(rt: HostRuntime) -> Result<(), Fail> {
    assert!(rt; gives(&rt, b"[a]\nk=\xff", "NotUtf8 { line: 2 }")?);
    assert!(rt; gives(&rt, b"k=v\n\n\n\n\n\n\x80", "NotUtf8 { line: 7 }")?);
    assert!(rt; gives(&rt, b"[a]\nk=v\xc3\n", "NotUtf8 { line: 2 }")?);
    assert!(rt; gives(&rt, b"\xef\xbb[a]", "NotUtf8 { line: 1 }")?);
    let long = "TooLong { line: 2 }";
    assert!(rt; gives(&rt, filled(&rt, "[a]\nk=", 4095, "")?.as_bytes(), long)?);
    assert!(rt;
        gives(
            &rt,
            filled(&rt, "[a]\nk=", 4090, "\\\nw\\\n34567")?.as_bytes(),
            long
        )?
    );
    assert!(rt; gives(&rt, filled(&rt, "[a]\nk=", 4094, " ")?.as_bytes(), long)?);
    assert!(rt; gives(&rt, filled(&rt, "[a]\n#", 5000, "")?.as_bytes(), "[a]")?);
    let want = filled(&rt, "[a]k=", 4094, "@2;")?;
    assert!(rt;
        gives(
            &rt,
            filled(&rt, "[a]\n  k=", 4094, "")?.as_bytes(),
            want.as_str()
        )?
    );
    Ok(())
}
