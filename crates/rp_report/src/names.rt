ghost use Rattle.std.specs.Prelude.{◌≡◌, ◌++◌, OnOk, string_bytes};
ghost use Rattle.hex.specs.Hex.{encode_lower};
ghost use Rattle.rp_types.specs.Guids.{guid_text};
ghost use Rattle.rp_report.specs.Names.{is_plain as is_plain_unit};
ghost use Rattle.rp_report.specs.Names.{is_nonzero, name_text, unit_text};
ghost use Rattle.rp_report.specs.Tables.{kind_text};

use rp_base::Guid;
use rp_types::by_guid;
use std::alloc::AllocError;
use uuid::Uuid;

// Appends a GUID as lower-case digits with hyphens.
#[tactic(auto, unfolding(rp_types::specs::Guids::guid_text))]
pub fn push_guid(text: &mut String, guid: Guid) -> Result<(), AllocError>
    ensures { OnOk result (string_bytes text.new ≡ string_bytes text.old ++ guid_text guid) }
{
    let mut buffer = Uuid::encode_buffer();
    text.push_str(
        Uuid::from_bytes(guid.0)
            .hyphenated()
            .encode_lower(&mut buffer),
    )
}

// Appends a partition's type by its name, or as a GUID where it has none.
#[tactic(auto, unfolding(crate::specs::Tables::kind_text))]
pub fn push_kind(text: &mut String, kind: Guid) -> Result<(), AllocError>
    ensures { OnOk result (string_bytes text.new ≡ string_bytes text.old ++ kind_text kind) }
{
    match by_guid(kind) {
        Some(name) => text.push_str(name),
        None => push_guid(text, kind),
    }
}

// Appends bytes as lower-case hexadecimal digits.
pub fn push_hex(text: &mut String, bytes: &[u8]) -> Result<(), AllocError>
    ensures { OnOk result (string_bytes text.new ≡ string_bytes text.old ++ encode_lower bytes.now) }
{
    let digits = hex::encode(*text.allocator(), bytes)?;
    text.push_str(digits.as_str())
}

// Appends a partition's name.
pub fn push_name(text: &mut String, name: &[u16]) -> Result<(), AllocError>
    ensures { OnOk result (string_bytes text.new ≡ string_bytes text.old ++ name_text name.now) }
{
    for &unit in name {
        if unit == 0 {
            break;
        }
        push_unit(text, unit)?;
    }
    Ok(())
}

#[tactic(auto, unfolding(crate::specs::Names::unit_text))]
fn push_unit(text: &mut String, unit: u16) -> Result<(), AllocError>
    ensures { OnOk result (string_bytes text.new ≡ string_bytes text.old ++ unit_text unit) }
{
    if is_plain(unit) {
        return text.push(char::from(unit as u8));
    }
    text.push_str("\\u")?;
    push_hex(text, &unit.to_be_bytes())
}

fn is_plain(unit: u16) -> bool
    ensures { result ≡ is_plain_unit unit }
{
    (0x20..=0x7e).contains(&unit) && unit != 0x22 && unit != 0x5c
}
