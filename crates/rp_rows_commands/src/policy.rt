use rp_policy::{Counter, Flags, Found, Judged, Kind, compare, flags_for, judge, parse, write};
use rp_types::Designator;
use std::test::Fail;

#[test]
fn writes_what_it_reads(rt: HostRuntime) -> Result<(), Fail> {
    let texts = [
        ("", "-"),
        ("*", "*"),
        ("root=", "root=open"),
        (
            "usr=absent:root=unused+verity:=growfs-on",
            "root=verity+unused:usr=absent:=open+growfs-on",
        ),
    ];
    for (text, canonical) in texts {
        match parse(text) {
            Ok(policy) => {
                let written = write(rt.alloc(), &policy)?;
                assert_eq!(rt; written.as_str(), canonical);
            }
            Err(fault) => assert!(rt; false, "{fault} of {text}"),
        }
    }
    Ok(())
}

#[test]
fn judges_and_compares(rt: HostRuntime) {
    let signed = parse("root=signed").expect(&rt, "signed");
    let both = parse("root=signed+verity").expect(&rt, "both");
    let verity = Found {
        kinds: Flags::VERITY,
        read_only: false,
        growfs: false,
    };
    let flags = flags_for(&both, Designator::Root);
    assert_eq!(rt; judge(flags, Some(verity)), Judged::Use(Kind::Verity));
    assert_eq!(rt; compare(&signed, &both), None);
    let beyond = Counter {
        designator: Designator::Root,
        found: Some(verity),
    };
    assert_eq!(rt; compare(&both, &signed), Some(beyond));
}
