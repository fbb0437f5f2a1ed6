ghost use Rattle.std.specs.Prelude.{◌≡◌, ◌≢◌, ◌<◌, [], IfErr, IfOk, IfSome};
ghost use Rattle.rp_base.specs.Answers.{Gives};
ghost use Rattle.rp_defs.specs.Faults.{IsKnown};
ghost use Rattle.rp_defs.specs.Value.{IsBounded};
ghost use Rattle.rp_defs.specs.Said as typed;
ghost use Rattle.rp_defs.specs.Values as grammar;
ghost use Rattle.rp_defs.specs.declared.fault.DefKind.TheVariants.{Memory as no_memory};

use crate::DefKind;
use crate::draft::Half;
use crate::keys::Reader;
use crate::value::Value;
use rp_base::{Memory, Text};
use rp_types::Arch;
use rp_values::{
    LabelFault, SplitFault, read_id, read_kind, read_label, read_path, read_priority, read_size,
    read_split_name, read_switch, read_weight,
};
use std::alloc::Global;

/// The most bytes of a match key.
const LONGEST_MATCH_KEY: usize = 64;

/// What the text of a key says, none where that is as good as unset, or what is wrong with it.
#[tactic(auto, unfolding(crate::specs::Values::value_of))]
pub(crate) fn read_value(
    alloc: Global,
    key: u8,
    reader: Reader,
    text: &str,
    arch: Arch,
) -> Result<Option<Value>, DefKind>
    requires known { key < 26 }
    requires set { text.now ≢ [] }
    ensures answer { Gives no_memory (grammar.value_of arch reader key text.now) result }
    ensures bounded { IfOk result (λ value. IfSome value IsBounded) }
    ensures told { IfErr result IsKnown }
{
    match reader {
        Reader::Type => kind(key, text, arch),
        Reader::Label => label(alloc, key, text, arch),
        Reader::Id => id(key, text),
        Reader::Priority => priority(key, text),
        Reader::Weight => weight(key, text),
        Reader::Size => size(key, text),
        Reader::Path => path(alloc, key, text, arch),
        Reader::Half => half(key, text),
        Reader::MatchKey => match_key(alloc, key, text),
        Reader::Switch => switch(key, text),
        Reader::SplitName => split_name(alloc, key, text, arch),
        Reader::Refused => Err(DefKind::Unsupported { key }),
        Reader::Off => off(key, text),
    }
}

fn kind(key: u8, text: &str, arch: Arch) -> Result<Option<Value>, DefKind>
    requires { key < 26 }
    ensures answer { result ≡ grammar.kind_value arch key text.now }
    ensures bounded { IfOk result (λ value. IfSome value IsBounded) }
    ensures told { IfErr result IsKnown }
{
    match read_kind(text, arch) {
        Some(kind) => Ok(Some(Value::Id(kind))),
        None => Err(DefKind::BadValue { key }),
    }
}

fn label(alloc: Global, key: u8, text: &str, arch: Arch) -> Result<Option<Value>, DefKind>
    requires known { key < 26 }
    requires set { text.now ≢ [] }
    ensures answer { Gives no_memory (grammar.label_value arch key text.now) result }
    ensures bounded { IfOk result (λ value. IfSome value IsBounded) }
    ensures told { IfErr result IsKnown }
{
    match read_label(alloc, text, arch) {
        Ok(units) => Ok(Some(Value::Label(units))),
        Err(fault) => Err(label_kind(key, fault)),
    }
}

// What the fault of a label is as one of its key.
fn label_kind(key: u8, fault: LabelFault) -> DefKind
    requires { key < 26 }
    ensures kind { result ≡ typed.label_kind key fault }
    ensures told { IsKnown result }
{
    match fault {
        LabelFault::BadLabel => DefKind::BadValue { key },
        LabelFault::TooLong => DefKind::LabelTooLong,
        LabelFault::Memory => DefKind::Memory,
    }
}

// A fixed identifier; `null` isn't supported.
fn id(key: u8, text: &str) -> Result<Option<Value>, DefKind>
    requires { key < 26 }
    ensures answer { result ≡ grammar.id_value key text.now }
    ensures bounded { IfOk result (λ value. IfSome value IsBounded) }
    ensures told { IfErr result IsKnown }
{
    if text == "null" {
        return Err(DefKind::Unsupported { key });
    }
    match read_id(text) {
        Some(id) => Ok(Some(Value::Id(id))),
        None => Err(DefKind::BadValue { key }),
    }
}

fn priority(key: u8, text: &str) -> Result<Option<Value>, DefKind>
    requires { key < 26 }
    ensures answer { result ≡ grammar.priority_value key text.now }
    ensures bounded { IfOk result (λ value. IfSome value IsBounded) }
    ensures told { IfErr result IsKnown }
{
    match read_priority(text) {
        Some(priority) => Ok(Some(Value::Priority(priority))),
        None => Err(DefKind::BadValue { key }),
    }
}

#[tactic(auto, using(crate::proofs::BoundLemmas::weight_of_bound))]
fn weight(key: u8, text: &str) -> Result<Option<Value>, DefKind>
    requires { key < 26 }
    ensures answer { result ≡ grammar.weight_value key text.now }
    ensures bounded { IfOk result (λ value. IfSome value IsBounded) }
    ensures told { IfErr result IsKnown }
{
    match read_weight(text) {
        Some(weight) => Ok(Some(Value::Weight(weight))),
        None => Err(DefKind::BadValue { key }),
    }
}

#[tactic(auto, using(crate::proofs::BoundLemmas::size_of_bound))]
fn size(key: u8, text: &str) -> Result<Option<Value>, DefKind>
    requires { key < 26 }
    ensures answer { result ≡ grammar.size_value key text.now }
    ensures bounded { IfOk result (λ value. IfSome value IsBounded) }
    ensures told { IfErr result IsKnown }
{
    match read_size(text) {
        Some(size) => Ok(Some(Value::Size(size))),
        None => Err(DefKind::BadValue { key }),
    }
}

// The path of a file whose blocks are copied; `auto` isn't supported.
fn path(alloc: Global, key: u8, text: &str, arch: Arch) -> Result<Option<Value>, DefKind>
    requires { key < 26 }
    ensures answer { Gives no_memory (grammar.path_value arch key text.now) result }
    ensures bounded { IfOk result (λ value. IfSome value IsBounded) }
    ensures told { IfErr result IsKnown }
{
    if text == "auto" {
        return Err(DefKind::Unsupported { key });
    }
    match read_path(alloc, text, arch) {
        Ok(Some(path)) => Ok(Some(Value::Text(path))),
        Ok(None) => Err(DefKind::BadValue { key }),
        Err(Memory) => Err(DefKind::Memory),
    }
}

// Which half of a verity pair a definition is; a signature isn't supported.
fn half(key: u8, text: &str) -> Result<Option<Value>, DefKind>
    requires { key < 26 }
    ensures answer { result ≡ grammar.half_value key text.now }
    ensures bounded { IfOk result (λ value. IfSome value IsBounded) }
    ensures told { IfErr result IsKnown }
{
    match text {
        "off" => Ok(Some(Value::Half(Half::Off))),
        "data" => Ok(Some(Value::Half(Half::Data))),
        "hash" => Ok(Some(Value::Half(Half::Hash))),
        "signature" => Err(DefKind::Unsupported { key }),
        _ => Err(DefKind::BadValue { key }),
    }
}

// What joins the halves of a verity pair.
fn match_key(alloc: Global, key: u8, text: &str) -> Result<Option<Value>, DefKind>
    requires { key < 26 }
    ensures answer { Gives no_memory (grammar.match_value key text.now) result }
    ensures bounded { IfOk result (λ value. IfSome value IsBounded) }
    ensures told { IfErr result IsKnown }
{
    if text.is_empty() || text.len() > LONGEST_MATCH_KEY {
        return Err(DefKind::BadValue { key });
    }
    match Text::from_str(alloc, text) {
        Ok(copy) => Ok(Some(Value::Text(copy))),
        Err(Memory) => Err(DefKind::Memory),
    }
}

fn switch(key: u8, text: &str) -> Result<Option<Value>, DefKind>
    requires { key < 26 }
    ensures answer { result ≡ grammar.switch_value key text.now }
    ensures bounded { IfOk result (λ value. IfSome value IsBounded) }
    ensures told { IfErr result IsKnown }
{
    match read_switch(text) {
        Some(on) => Ok(Some(Value::Switch(on))),
        None => Err(DefKind::BadValue { key }),
    }
}

// The name of the file that the partition is split into; `-` is as good as unset.
fn split_name(alloc: Global, key: u8, text: &str, arch: Arch) -> Result<Option<Value>, DefKind>
    requires { key < 26 }
    ensures answer { Gives no_memory (grammar.split_value arch key text.now) result }
    ensures bounded { IfOk result (λ value. IfSome value IsBounded) }
    ensures told { IfErr result IsKnown }
{
    match read_split_name(alloc, text, arch) {
        Ok(Some(name)) => Ok(Some(Value::Text(name))),
        Ok(None) => Ok(None),
        Err(fault) => Err(split_kind(key, fault)),
    }
}

// What the fault of a split file's name is as one of its key.
fn split_kind(key: u8, fault: SplitFault) -> DefKind
    requires { key < 26 }
    ensures kind { result ≡ typed.split_kind key fault }
    ensures told { IsKnown result }
{
    match fault {
        SplitFault::BadName => DefKind::BadValue { key },
        SplitFault::Memory => DefKind::Memory,
    }
}

// A key that isn't supported but where it is off.
fn off(key: u8, text: &str) -> Result<Option<Value>, DefKind>
    requires { key < 26 }
    ensures answer { result ≡ grammar.off_value key text.now }
    ensures bounded { IfOk result (λ value. IfSome value IsBounded) }
    ensures told { IfErr result IsKnown }
{
    if text == "off" {
        Ok(None)
    } else {
        Err(DefKind::Unsupported { key })
    }
}
