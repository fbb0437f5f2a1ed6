//! Definitions as texts, for tests.

ghost use Rattle.std.specs.Prelude.{◌<◌};
ghost use Rattle.rp_defs.specs.Faults.{IsKnown};

use rp_base::{Guid, UNLIMITED, Want};
use rp_defs::{DefFault, DefKind, Definition, Verity, key_name};
use rp_ini::IniFault;
use rp_types::{by_guid, write_guid};
use std::alloc::AllocError;
use std::fmt::Write;
use std::test::Fail;

// What a definition that is no half of a pair has where it sets no size.
const MIN: u64 = 2560;

const WEIGHT: u64 = 1000;

/// The place of a fault and what is wrong.
pub fn push_fault(text: &mut String, fault: &DefFault) -> Result<(), Fail>
    requires { IsKnown fault.now.kind }
{
    text.push_str(fault.file.as_str())?;
    if fault.part.as_str() != "" {
        write!(text, ".d/{}", fault.part.as_str())?;
    }
    write!(text, ":{} ", fault.line)?;
    match fault.kind {
        DefKind::Ini(IniFault::NotUtf8 { line: _ }) => text.push_str("NotUtf8")?,
        DefKind::Ini(IniFault::TooLong { line: _ }) => text.push_str("TooLong")?,
        DefKind::Ini(IniFault::BadLine { line: _ }) => text.push_str("BadLine")?,
        DefKind::Ini(IniFault::NoSection { line: _ }) => text.push_str("NoSection")?,
        DefKind::Ini(IniFault::Memory) => text.push_str("Ini Memory")?,
        DefKind::NoType => text.push_str("NoType")?,
        DefKind::BadValue { key } => push_key(text, "BadValue", key)?,
        DefKind::Unsupported { key } => push_key(text, "Unsupported", key)?,
        DefKind::LabelTooLong => text.push_str("LabelTooLong")?,
        DefKind::Limits => text.push_str("Limits")?,
        DefKind::VerityPair => text.push_str("VerityPair")?,
        DefKind::Memory => text.push_str("Memory")?,
    }
    Ok(())
}

fn push_key(text: &mut String, kind: &str, key: u8) -> Result<(), AllocError>
    requires { key < 26 }
{
    text.push_str(kind)?;
    text.push_str(" ")?;
    text.push_str(key_name(key))
}

/// A definition's type, and what it has that isn't the default; attributes are always shown but where there are none.
pub fn push_definition(text: &mut String, definition: &Definition) -> Result<(), Fail> {
    push_kind(text, definition.kind)?;
    if let Some(label) = definition.label {
        text.push_str(" label ")?;
        push_label(text, &label)?;
    }
    if let Some(id) = definition.id {
        text.push_str(" id ")?;
        push_guid(text, id)?;
    }
    if definition.priority != 0 {
        write!(text, " priority {}", definition.priority)?;
    }
    push_want(text, definition.want)?;
    if definition.attrs != 0 {
        write!(text, " attrs {:016x}", definition.attrs)?;
    }
    if let Some(source) = &definition.source {
        write!(text, " source {}", source.as_str())?;
    }
    match definition.verity {
        Verity::Off => {}
        Verity::Data { partner } => write!(text, " data {partner}")?,
        Verity::Hash { partner } => write!(text, " hash {partner}")?,
    }
    if definition.factory_reset {
        text.push_str(" reset")?;
    }
    if let Some(name) = &definition.split {
        write!(text, " split {}", name.as_str())?;
    }
    Ok(())
}

fn push_want(text: &mut String, want: Want) -> Result<(), Fail> {
    if want.min != MIN {
        write!(text, " min {}", want.min)?;
    }
    if want.max != UNLIMITED {
        write!(text, " max {}", want.max)?;
    }
    if want.weight != WEIGHT {
        write!(text, " weight {}", want.weight)?;
    }
    if want.pad_min != 0 || want.pad_max != UNLIMITED || want.pad_weight != 0 {
        write!(
            text,
            " padding {}-{} weight {}",
            want.pad_min, want.pad_max, want.pad_weight
        )?;
    }
    Ok(())
}

fn push_kind(text: &mut String, kind: Guid) -> Result<(), AllocError> {
    match by_guid(kind) {
        Some(name) => text.push_str(name),
        None => push_guid(text, kind),
    }
}

fn push_guid(text: &mut String, id: Guid) -> Result<(), AllocError> {
    for byte in write_guid(id) {
        text.push(char::from(byte))?;
    }
    Ok(())
}

// The units before the first zero, those that aren't printable ASCII by their numbers.
fn push_label(text: &mut String, label: &[u16; 36]) -> Result<(), Fail> {
    for unit in label {
        match u8::try_from(*unit) {
            Ok(0) => return Ok(()),
            Ok(byte) if byte.is_ascii_graphic() || byte == b' ' => text.push(char::from(byte))?,
            _ => write!(text, "\\u{unit:04x}")?,
        }
    }
    Ok(())
}
