ghost use Rattle.std.specs.Prelude.{◌≡◌, ◌≢◌, All, IfErr, IfOk, IfSome, replicate};
ghost use Rattle.rp_base.specs.Answers.{Gives};
ghost use Rattle.rp_defs.specs.Faults.{no_memory, IsSoundFault};
ghost use Rattle.rp_defs.specs.Drafts.{draft_from, draft_of, half_said, priority_said, want_of, within_limits};
ghost use Rattle.rp_defs.specs.Limits.{has_no_size};
ghost use Rattle.rp_defs.specs.Kept.{IsSet};
ghost use Rattle.rp_defs.specs.Value.{IsBounded};
ghost use Rattle.rp_defs.specs.SoundDraft.{IsSoundDraft};

use crate::attrs::attrs_of;
use crate::keys::Key;
use crate::setting::Setting;
use crate::value::{Value, half_in, id_in, label_in, priority_in, switch_in, take_text};
use crate::values::{type_of, values_of};
use crate::want::want_of;
use crate::{DefFault, DefKind, Definition, Verity};
use rp_base::{Guid, List, Text, Want};
use rp_types::Arch;
use std::alloc::Global;

/// Which half of a verity pair a definition says that it is.
#[derive(Clone, Copy, Debug, PartialEq, Eq)]
pub(crate) enum Half {
    Off,
    Data,
    Hash,
}

/// A definition before its partner is known: its verity is off until then.
#[derive(Drop)]
pub(crate) struct Draft {
    pub(crate) definition: Definition,
    pub(crate) half: Half,
    /// `VerityMatchKey=`, whatever the half.
    pub(crate) match_key: Option<Text>,
}

/// Drafts in order, and how many assignments were ignored.
#[derive(Drop)]
pub(crate) struct Drafts {
    pub(crate) list: List<Draft>,
    pub(crate) ignored: u32,
}

/// The draft of a definition from the settings that count, or its first fault: values in the order of the keys, then
/// the limits.
#[tactic(auto, unfolding(crate::specs::Drafts::draft_of))]
pub(crate) fn draft_of(
    alloc: Global,
    file: &str,
    counting: &[Option<Setting>],
    arch: Arch,
) -> Result<Draft, DefFault>
    requires { All IsSet counting.now }
    ensures answer { Gives no_memory (draft_of arch file.now counting.now) result }
    ensures sound { IfOk result IsSoundDraft }
    ensures fault { IfErr result IsSoundFault }
{
    let kind = type_of(alloc, file, counting, arch)?;
    let values = values_of(alloc, file, counting, arch)?;
    within_limits(alloc, file, kind, values)
}

// The draft of a definition from its type and the values of its keys, or the fault of its limits.
fn within_limits(
    alloc: Global,
    file: &str,
    kind: Guid,
    values: List<Option<Value>>,
) -> Result<Draft, DefFault>
    requires used { kind.0 ≢ replicate 16 0 }
    requires bounded { All (λ value. IfSome value IsBounded) values }
    ensures answer { Gives no_memory (within_limits file.now (draft_from file.now kind values)) result }
    ensures sound { IfOk result IsSoundDraft }
    ensures fault { IfErr result IsSoundFault }
{
    let mut values = values;
    let half = half_said(values.as_slice());
    let want = want_of(half, values.as_slice());
    if has_no_size(want) {
        return Err(DefFault::placed(alloc, file, "", 0, DefKind::Limits));
    }
    match Text::from_str(alloc, file) {
        Ok(file) => Ok(draft_from(file, kind, half, want, values.as_mut_slice())),
        Err(_) => Err(DefFault::starved(alloc)),
    }
}

// Which half of a verity pair the values of its keys make a definition.
fn half_said(values: &[Option<Value>]) -> Half
    ensures { result ≡ half_said values.now }
{
    half_in(values, Key::Verity).unwrap_or(Half::Off)
}

// The priority that the values of its keys give a definition.
fn priority_said(values: &[Option<Value>]) -> i32
    ensures { result ≡ priority_said values.now }
{
    priority_in(values, Key::Priority).unwrap_or(0)
}

// The draft of a definition; its texts are taken out of the values of its keys.
fn draft_from(file: Text, kind: Guid, half: Half, want: Want, values: &mut [Option<Value>]) -> Draft
    requires half { half ≡ half_said values.old }
    requires want { want ≡ want_of half values.old }
    ensures { result ≡ draft_from file kind values.old }
{
    let label = label_in(values, Key::Label);
    let id = id_in(values, Key::Uuid);
    let priority = priority_said(values);
    let attrs = attrs_of(kind, values);
    let factory_reset = switch_in(values, Key::FactoryReset).unwrap_or(false);
    let source = take_text(values, Key::CopyBlocks);
    let split = take_text(values, Key::SplitName);
    let match_key = take_text(values, Key::VerityMatchKey);
    let definition = Definition {
        file,
        kind,
        label,
        id,
        priority,
        want,
        attrs,
        source,
        verity: Verity::Off,
        factory_reset,
        split,
    };
    Draft {
        definition,
        half,
        match_key,
    }
}

// A minimum is above its maximum.
fn has_no_size(want: Want) -> bool
    ensures { result ≡ has_no_size want }
{
    want.max < want.min || want.pad_max < want.pad_min
}
