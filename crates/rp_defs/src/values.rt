ghost use Rattle.std.specs.Prelude.{◌≡◌, ◌≢◌, ◌<◌, All, IfErr, IfOk, IfSome, None, replicate, slice_index_or};
ghost use Rattle.std.specs.Option.{option_and_then, option_copied};
ghost use Rattle.rp_base.specs.Answers.{Gives};
ghost use Rattle.rp_defs.specs.Faults.{no_memory, IsFault, IsKnown, IsSoundFault};
ghost use Rattle.rp_defs.specs.Kept.{IsSet};
ghost use Rattle.rp_defs.specs.Value as said;
ghost use Rattle.rp_defs.specs.Value.{IsBounded};
ghost use Rattle.rp_defs.specs.Values as grammar;

use crate::keys::{KEYS, Key, reader_of};
use crate::readers::read_value;
use crate::setting::Setting;
use crate::value::Value;
use crate::{DefFault, DefKind};
use rp_base::{Guid, List};
use rp_types::Arch;
use std::alloc::Global;

/// The partition type, which has to be set. `file` is the name of the definition's main file.
#[tactic(auto, unfolding(crate::specs::Values::type_of))]
pub(crate) fn type_of(
    alloc: Global,
    file: &str,
    counting: &[Option<Setting>],
    arch: Arch,
) -> Result<Guid, DefFault>
    requires { All IsSet counting.now }
    ensures answer { Gives no_memory (grammar.type_of arch file.now counting.now) result }
    ensures used { IfOk result (λ kind. kind.0 ≢ replicate 16 0) }
    ensures sound { IfErr result IsSoundFault }
{
    let value = value_at(alloc, file, counting, Key::Type as u8, arch)?;
    match id_of(&value) {
        Some(kind) => Ok(kind),
        None => Err(DefFault::placed(alloc, file, "", 0, DefKind::NoType)),
    }
}

// The identifier that a value is, if it is set.
#[tactic(auto, using(crate::proofs::BoundLemmas::id_bounded))]
fn id_of(value: &Option<Value>) -> Option<Guid>
    requires { IfSome value.now IsBounded }
    ensures id { result ≡ option_and_then said.id_of value.now }
    ensures used { IfSome result (λ id. id.0 ≢ replicate 16 0) }
{
    value.as_ref()?.id()
}

/// The values of all keys, by number, or the first fault in the order of the keys.
pub(crate) fn values_of(
    alloc: Global,
    file: &str,
    counting: &[Option<Setting>],
    arch: Arch,
) -> Result<List<Option<Value>>, DefFault>
    requires { All IsSet counting.now }
    ensures answer { Gives no_memory (grammar.values_of arch file.now counting.now) result }
    ensures bounded { IfOk result (λ values. All (λ value. IfSome value IsBounded) values) }
    ensures sound { IfErr result IsSoundFault }
{
    let mut values = List::new(alloc);
    for key in 0..KEYS as u8 {
        let value = value_at(alloc, file, counting, key, arch)?;
        if values.push(value).is_err() {
            return Err(DefFault::starved(alloc));
        }
    }
    Ok(values)
}

// The value of a key, none where it is unset, or the fault of the setting that counts.
#[tactic(auto, unfolding(crate::specs::Values::value_at))]
fn value_at(
    alloc: Global,
    file: &str,
    counting: &[Option<Setting>],
    key: u8,
    arch: Arch,
) -> Result<Option<Value>, DefFault>
    requires known { key < 26 }
    requires set { All IsSet counting.now }
    ensures answer { Gives no_memory (grammar.value_at arch file.now counting.now key) result }
    ensures bounded { IfOk result (λ value. IfSome value IsBounded) }
    ensures sound { IfErr result IsSoundFault }
{
    let Some(setting) = setting_at(counting, key) else {
        return Ok(None);
    };
    match read_value(alloc, key, reader_of(key), setting.value.as_str(), arch) {
        Ok(value) => Ok(value),
        Err(kind) => Err(fault_of(alloc, file, setting, kind)),
    }
}

// The setting of a key that counts.
fn setting_at(counting: &[Option<Setting>], key: u8) -> Option<&Setting>
    ensures { option_copied result ≡ slice_index_or counting.now key None }
{
    counting.get(usize::from(key))?.as_ref()
}

// The fault of a setting; want of memory has no place.
fn fault_of(alloc: Global, file: &str, setting: &Setting, kind: DefKind) -> DefFault
    requires { IsKnown kind }
    ensures fault { IsFault (grammar.setting_fault file.now setting.now kind) result }
    ensures sound { IsSoundFault result }
{
    match kind {
        DefKind::Memory => DefFault::starved(alloc),
        _ => DefFault::placed(alloc, file, setting.part.as_str(), setting.line, kind),
    }
}
