use rp_base::Guid;
use rp_types::{
    Arch, Designator, GROW_FILE_SYSTEM, NO_AUTO, READ_ONLY, bits, by_guid, by_name, designator_of,
    label_of, read_guid, write_guid,
};
use std::test::Fail;

// Some types' names, GUIDs and attribute bits, as the Discoverable Partitions Specification prints them.
#[rattlefmt::skip]
const ROWS: [(&str, &str, u64); 3] = [
    ("esp", "c12a7328-f81f-11d2-ba4b-00a0c93ec93b", 0),
    ("root-arm64", "b921b045-1df0-41c3-af44-4c6f280d3fae", NO_AUTO | READ_ONLY | GROW_FILE_SYSTEM),
    ("usr-x86-64-verity-sig", "e7bb33fb-06cf-4e81-8273-e543b413e2e2", NO_AUTO | READ_ONLY),
];

#[test]
fn types_by_name_and_guid(rt: HostRuntime) -> Result<(), Fail> {
    for (name, text, supported) in ROWS {
        let kind = read_guid(text).ok_or("no GUID")?;
        assert_eq!(rt; by_name(name, Arch::X86_64), Some(kind));
        assert_eq!(rt; by_name(name, Arch::Arm64), Some(kind));
        assert_eq!(rt; by_guid(kind), Some(name));
        assert_eq!(rt; bits(kind), supported);
        assert_eq!(rt; write_guid(kind).as_slice(), text.as_bytes());
    }
    Ok(())
}

// Designators' names, and the types that they have under each architecture.
#[rattlefmt::skip]
const DESIGNATORS: [(&str, Designator, &str, &str); 13] = [
    ("root", Designator::Root, "root-x86-64", "root-arm64"),
    ("usr", Designator::Usr, "usr-x86-64", "usr-arm64"),
    ("home", Designator::Home, "home", "home"),
    ("srv", Designator::Srv, "srv", "srv"),
    ("esp", Designator::Esp, "esp", "esp"),
    ("xbootldr", Designator::Xbootldr, "xbootldr", "xbootldr"),
    ("swap", Designator::Swap, "swap", "swap"),
    ("root-verity", Designator::RootVerity, "root-x86-64-verity", "root-arm64-verity"),
    ("root-verity-sig", Designator::RootVeritySig, "root-x86-64-verity-sig", "root-arm64-verity-sig"),
    ("usr-verity", Designator::UsrVerity, "usr-x86-64-verity", "usr-arm64-verity"),
    ("usr-verity-sig", Designator::UsrVeritySig, "usr-x86-64-verity-sig", "usr-arm64-verity-sig"),
    ("tmp", Designator::Tmp, "tmp", "tmp"),
    ("var", Designator::Var, "var", "var"),
];

#[test]
fn designators_by_architecture(rt: HostRuntime) -> Result<(), Fail> {
    for (name, designator, x86_64, arm64) in DESIGNATORS {
        assert_eq!(rt; designator.name(), name);
        let on_x86_64 = by_name(name, Arch::X86_64).ok_or("no type")?;
        let on_arm64 = by_name(name, Arch::Arm64).ok_or("no type")?;
        assert_eq!(rt; by_guid(on_x86_64), Some(x86_64));
        assert_eq!(rt; by_guid(on_arm64), Some(arm64));
        assert_eq!(rt; designator_of(on_x86_64, Arch::X86_64), Some(designator));
        assert_eq!(rt; designator_of(on_arm64, Arch::Arm64), Some(designator));
    }
    let generic = by_name("linux-generic", Arch::X86_64).ok_or("no type")?;
    assert_eq!(rt; designator_of(generic, Arch::X86_64), None);
    let other = by_name("root-arm64", Arch::X86_64).ok_or("no type")?;
    assert_eq!(rt; designator_of(other, Arch::X86_64), None);
    Ok(())
}

// A type that has no name.
const UNKNOWN: Guid = Guid([
    0x01, 0x23, 0x45, 0x67, 0x89, 0xab, 0xcd, 0xef, 0x01, 0x23, 0x45, 0x67, 0x89, 0xab, 0xcd, 0xef,
]);

const UNKNOWN_TEXTS: [&str; 6] = [
    "0123456789abcdef0123456789abcdef",
    "01234567-89ab-cdef-0123-456789abcdef",
    "01234567-89AB-CDEF-0123-456789abcdef",
    "{01234567-89ab-cdef-0123-456789abcdef}",
    "urn:uuid:01234567-89ab-cdef-0123-456789abcdef",
    "URN:UUID:01234567-89ab-cdef-0123-456789abcdef",
];

const NO_GUIDS: [&str; 6] = [
    "",
    "esp",
    "0123456789abcdef0123456789abcde",
    "01234567-89ab-cdef-0123-456789abcdeg",
    "{0123456789abcdef0123456789abcdef}",
    "urn:uuid:0123456789abcdef0123456789abcdef",
];

#[test]
fn a_type_without_name(rt: HostRuntime) {
    for text in UNKNOWN_TEXTS {
        assert_eq!(rt; read_guid(text), Some(UNKNOWN));
    }
    for text in NO_GUIDS {
        assert_eq!(rt; read_guid(text), None);
    }
    assert_eq!(rt; by_name("root-", Arch::X86_64), None);
    assert_eq!(rt; by_guid(UNKNOWN), None);
    assert_eq!(rt; bits(UNKNOWN), 0);
    assert_eq!(rt; designator_of(UNKNOWN, Arch::X86_64), None);
    for (unit, byte) in label_of(UNKNOWN)
        .iter()
        .zip(b"01234567-89ab-cdef-0123-456789abcdef")
    {
        assert_eq!(rt; *unit, u16::from(*byte));
    }
}

#[test]
fn a_label_is_the_name_and_zeros(rt: HostRuntime) -> Result<(), Fail> {
    let label = label_of(by_name("root", Arch::X86_64).ok_or("no type")?);
    for (unit, byte) in label.iter().zip(b"root-x86-64") {
        assert_eq!(rt; *unit, u16::from(*byte));
    }
    for unit in &label[11..] {
        assert_eq!(rt; *unit, 0);
    }
    Ok(())
}
