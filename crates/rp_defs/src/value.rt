ghost use Rattle.std.specs.Prelude.{◌≡◌, None, slice_index_or, slice_set};
ghost use Rattle.std.specs.Option.{option_and_then, option_copied};
ghost use Rattle.rp_defs.specs.Readers.{number_of};
ghost use Rattle.rp_defs.specs.Value as said;

use crate::draft::Half;
use crate::keys::Key;
use rp_base::{Guid, Text};

/// What the value of a key says. Weights are at most 1,000,000, and sizes at most 2^60 bytes.
#[derive(Drop)]
pub(crate) enum Value {
    Id(Guid),
    Label([u16; 36]),
    Priority(i32),
    Weight(u64),
    Size(u64),
    Half(Half),
    Switch(bool),
    Text(Text),
}

impl Value {
    pub(crate) fn id(&self) -> Option<Guid>
        ensures { result ≡ said.id_of self.now }
    {
        match self {
            Value::Id(id) => Some(*id),
            _ => None,
        }
    }

    fn label(&self) -> Option<[u16; 36]>
        ensures { result ≡ said.as_label self.now }
    {
        match self {
            Value::Label(units) => Some(*units),
            _ => None,
        }
    }

    fn priority(&self) -> Option<i32>
        ensures { result ≡ said.priority_of self.now }
    {
        match self {
            Value::Priority(priority) => Some(*priority),
            _ => None,
        }
    }

    fn weight(&self) -> Option<u64>
        ensures { result ≡ said.weight_of self.now }
    {
        match self {
            Value::Weight(weight) => Some(*weight),
            _ => None,
        }
    }

    fn size(&self) -> Option<u64>
        ensures { result ≡ said.size_of self.now }
    {
        match self {
            Value::Size(size) => Some(*size),
            _ => None,
        }
    }

    fn half(&self) -> Option<Half>
        ensures { result ≡ said.half_of self.now }
    {
        match self {
            Value::Half(half) => Some(*half),
            _ => None,
        }
    }

    fn switch(&self) -> Option<bool>
        ensures { result ≡ said.switch_of self.now }
    {
        match self {
            Value::Switch(on) => Some(*on),
            _ => None,
        }
    }

    fn into_text(self) -> Option<Text>
        ensures { result ≡ said.text_of self }
    {
        match self {
            Value::Text(text) => Some(text),
            _ => None,
        }
    }
}

// The value of a key among the values of all keys, none where it is unset.
fn value_in(values: &[Option<Value>], key: Key) -> Option<&Value>
    ensures { option_copied result ≡ slice_index_or values.now (number_of key) None }
{
    values.get(key.number())?.as_ref()
}

pub(crate) fn id_in(values: &[Option<Value>], key: Key) -> Option<Guid>
    ensures { result ≡ option_and_then said.id_of (slice_index_or values.now (number_of key) None) }
{
    value_in(values, key)?.id()
}

pub(crate) fn label_in(values: &[Option<Value>], key: Key) -> Option<[u16; 36]>
    ensures { result ≡ option_and_then said.as_label (slice_index_or values.now (number_of key) None) }
{
    value_in(values, key)?.label()
}

pub(crate) fn priority_in(values: &[Option<Value>], key: Key) -> Option<i32>
    ensures { result ≡ option_and_then said.priority_of (slice_index_or values.now (number_of key) None) }
{
    value_in(values, key)?.priority()
}

pub(crate) fn weight_in(values: &[Option<Value>], key: Key) -> Option<u64>
    ensures { result ≡ option_and_then said.weight_of (slice_index_or values.now (number_of key) None) }
{
    value_in(values, key)?.weight()
}

pub(crate) fn size_in(values: &[Option<Value>], key: Key) -> Option<u64>
    ensures { result ≡ option_and_then said.size_of (slice_index_or values.now (number_of key) None) }
{
    value_in(values, key)?.size()
}

pub(crate) fn half_in(values: &[Option<Value>], key: Key) -> Option<Half>
    ensures { result ≡ option_and_then said.half_of (slice_index_or values.now (number_of key) None) }
{
    value_in(values, key)?.half()
}

pub(crate) fn switch_in(values: &[Option<Value>], key: Key) -> Option<bool>
    ensures { result ≡ option_and_then said.switch_of (slice_index_or values.now (number_of key) None) }
{
    value_in(values, key)?.switch()
}

/// The text of a key, which is taken out of the values.
pub(crate) fn take_text(values: &mut [Option<Value>], key: Key) -> Option<Text>
    ensures text { result ≡ option_and_then said.text_of (slice_index_or values.old (number_of key) None) }
    ensures rest { values.new ≡ slice_set values.old (number_of key) None }
{
    let place = key.number();
    if place < values.len() {
        values[place].take()?.into_text()
    } else {
        None
    }
}
