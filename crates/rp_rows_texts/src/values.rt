use rp_types::Arch;
use rp_values::{LabelFault, read_id, read_kind, read_label, read_path, read_split_name};
use std::alloc::AllocGlobal;
use std::test::Fail;

// Texts, and what they say under each architecture.
#[rattlefmt::skip]
const SAYS: [(&str, &str, &str); 12] = [
    ("abc", "abc", "abc"),
    ("%%", "%", "%"),
    ("%a", "x86-64", "arm64"),
    ("%%a", "%a", "%a"),
    ("%%%a", "%x86-64", "%arm64"),
    ("%a%a", "x86-64x86-64", "arm64arm64"),
    ("%%%%", "%%", "%%"),
    ("a%%b%ac", "a%bx86-64c", "a%barm64c"),
    ("%aa", "x86-64a", "arm64a"),
    ("root-%a", "root-x86-64", "root-arm64"),
    ("%%x", "%x", "%x"),
    ("ä%%\u{1f600}%aß", "ä%\u{1f600}x86-64ß", "ä%\u{1f600}arm64ß"),
];

// Texts in which a percent sign stands before anything else.
const UNKNOWN: [&str; 9] = ["%", "a%", "%x", "%%%", "%A", "%a%", "%ä", "% a", "%a%%%b"];

#[test]
fn specifiers(rt: HostRuntime) -> Result<(), Fail> {
    for (text, on_x86_64, on_arm64) in SAYS {
        let whole = read_path(rt.alloc(), text, Arch::X86_64)?.ok_or("unknown")?;
        assert_eq!(rt; whole.as_str(), on_x86_64);
        let whole = read_path(rt.alloc(), text, Arch::Arm64)?.ok_or("unknown")?;
        assert_eq!(rt; whole.as_str(), on_arm64);
    }
    for text in UNKNOWN {
        assert!(rt;
            read_path(rt.alloc(), text, Arch::X86_64)?.is_none(),
            "at {text}"
        );
        let label = read_label(rt.alloc(), text, Arch::X86_64);
        assert!(rt; label == Err(LabelFault::BadLabel), "at {text}");
    }
    Ok(())
}

// So many letters, and a text behind them.
fn letters(rt: &impl AllocGlobal, count: u16, back: &str) -> Result<String, Fail> {
    let mut text = String::new(rt.alloc());
    for _ in 0..count {
        text.push('v')?;
    }
    text.push_str(back)?;
    Ok(text)
}

// How many letters, the text behind them, the architecture, and the fault of that label, if it has one.
#[rattlefmt::skip]
const LABELS: [(u16, &str, Arch, Option<LabelFault>); 17] = [
    (0, "", Arch::X86_64, None),
    (36, "", Arch::X86_64, None),
    (37, "", Arch::X86_64, Some(LabelFault::TooLong)),
    (34, "\u{1f600}", Arch::X86_64, None),
    (35, "\u{1f600}", Arch::X86_64, Some(LabelFault::TooLong)),
    (35, "ß", Arch::X86_64, None),
    (36, "ß", Arch::X86_64, Some(LabelFault::TooLong)),
    (30, "%a", Arch::X86_64, None),
    (31, "%a", Arch::X86_64, Some(LabelFault::TooLong)),
    (31, "%a", Arch::Arm64, None),
    (32, "%a", Arch::Arm64, Some(LabelFault::TooLong)),
    (35, "%%", Arch::X86_64, None),
    (36, "%%", Arch::X86_64, Some(LabelFault::TooLong)),
    (1, "\0v", Arch::X86_64, Some(LabelFault::BadLabel)),
    (35, "\0", Arch::X86_64, Some(LabelFault::BadLabel)),
    (38, "\0v", Arch::X86_64, Some(LabelFault::TooLong)),
    (40, "%x", Arch::X86_64, Some(LabelFault::BadLabel)),
];

#[test]
fn labels(rt: HostRuntime) -> Result<(), Fail> {
    for (count, back, arch, fault) in LABELS {
        let text = letters(&rt, count, back)?;
        let label = read_label(rt.alloc(), text.as_str(), arch);
        assert!(rt; label.err() == fault, "at {count} letters and {back}");
    }
    Ok(())
}

// The units behind the given ones are zeros.
fn is_name(units: &[u16; 36], front: &[u16]) -> bool {
    units.starts_with(front) && units.iter().skip(front.len()).all(|unit| *unit == 0)
}

#[test]
fn units_of_labels(rt: HostRuntime) -> Result<(), Fail> {
    let label = |text, arch| read_label(rt.alloc(), text, arch);
    assert!(rt; is_name(&label("", Arch::X86_64)?, &[]));
    assert!(rt; is_name(&label("EFI", Arch::X86_64)?, &[0x45, 0x46, 0x49]));
    assert!(rt;
        is_name(
            &label("%a%%", Arch::Arm64)?,
            &[0x61, 0x72, 0x6d, 0x36, 0x34, 0x25]
        )
    );
    assert!(rt; is_name(&label("ß\u{1f600}", Arch::Arm64)?, &[0xdf, 0xd83d, 0xde00]));
    let full = label(letters(&rt, 34, "\u{1f600}")?.as_str(), Arch::X86_64)?;
    assert_eq!(rt; full[33], 0x76);
    assert_eq!(rt; full[34], 0xd83d);
    assert_eq!(rt; full[35], 0xde00);
    Ok(())
}

// How many letters, the text behind them, and whether that is a path.
#[rattlefmt::skip]
const PATHS: [(u16, &str, bool); 10] = [
    (0, "", false),
    (1, "", true),
    (4095, "", true),
    (4096, "", false),
    (4094, "%%", true),
    (4095, "%%", false),
    (4089, "%a", true),
    (4090, "%a", false),
    (0, "a\0b", false),
    (4094, "\0", false),
];

#[test]
fn paths(rt: HostRuntime) -> Result<(), Fail> {
    for (count, back, is_path) in PATHS {
        let text = letters(&rt, count, back)?;
        let path = read_path(rt.alloc(), text.as_str(), Arch::X86_64)?;
        assert_eq!(rt; path.is_some(), is_path, "at {count} letters and {back}");
    }
    let path = read_path(rt.alloc(), "/boot/%a/100%%", Arch::Arm64)?.ok_or("no path")?;
    assert_eq!(rt; path.as_str(), "/boot/arm64/100%");
    Ok(())
}

// How many letters, the text behind them, and whether that names a split file; `-` is unset.
#[rattlefmt::skip]
const SPLIT_NAMES: [(u16, &str, Option<bool>); 13] = [
    (1, "", Some(true)),
    (128, "", Some(true)),
    (129, "", None),
    (121, ".%a", Some(true)),
    (122, ".%a", None),
    (0, "-", Some(false)),
    (0, "--", Some(true)),
    (0, ".", None),
    (0, "..", None),
    (0, "...", Some(true)),
    (1, "/", None),
    (1, "\0", None),
    (1, "%x", None),
];

#[test]
fn split_names(rt: HostRuntime) -> Result<(), Fail> {
    for (count, back, named) in SPLIT_NAMES {
        let text = letters(&rt, count, back)?;
        match read_split_name(rt.alloc(), text.as_str(), Arch::X86_64) {
            Ok(name) => assert_eq!(rt;
                Some(name.is_some()),
                named,
                "at {count} letters and {back}"
            ),
            Err(_) => assert_eq!(rt; named, None, "at {count} letters and {back}"),
        }
    }
    let name = read_split_name(rt.alloc(), "usr-%a.raw", Arch::Arm64)?.ok_or("no name")?;
    assert_eq!(rt; name.as_str(), "usr-arm64.raw");
    Ok(())
}

#[test]
fn types_and_identifiers(rt: HostRuntime) {
    let esp = read_kind("C12A7328F81F11D2BA4B00A0C93EC93B", Arch::X86_64);
    assert!(rt; esp.is_some());
    assert_eq!(rt; read_kind("esp", Arch::Arm64), esp);
    assert_eq!(rt;
        read_kind("root", Arch::Arm64),
        read_kind("root-arm64", Arch::X86_64)
    );
    assert_eq!(rt;
        read_kind("00000000-0000-0000-0000-000000000000", Arch::X86_64),
        None
    );
    assert_eq!(rt; read_id("c12a7328-f81f-11d2-ba4b-00a0c93ec93b"), esp);
    assert_eq!(rt; read_id("esp"), None);
}
