//! One label, and how it is read from its text.
ghost use Rattle.std.specs.Prelude.{◌≡◌, ◌↔◌, IsTrue, IfOk, IsErrOf, None, Some, length};
ghost use Rattle.std.specs.List.{list_all};
ghost use Rattle.std.specs.Char.{is_ascii_graphic};
ghost use Rattle.pol_labels.specs.LabelText.{read_label, name_part, value_part, source_part, key_part, allows_source};
ghost use Rattle.pol_labels.specs.Order.{same_place};
ghost use Rattle.pol_labels.specs.declared.label.LabelError.TheVariants.{Memory as WantOfMemory};

use pol_data::{Memory, Text, TryCopy};
use std::alloc::Global;
use thiserror::Error;

/// The source of a label whose text names none.
const NO_SOURCE: &str = "unspec";

/// The source that stands for every source in a selector's key, and that no label has.
const ANY_SOURCE: &str = "any";

/// Why no label was read.
#[derive(Debug, PartialEq, Eq, Drop, Error)]
pub enum LabelError {
    /// The text isn't that of a label.
    #[error("not a label text")]
    Bad,
    /// Want of memory.
    #[error("out of memory")]
    Memory,
}

impl From<Memory> for LabelError {
    ghost from_gives = { λ _ error. error ≡ WantOfMemory };

    fn from(_memory: Memory) -> LabelError {
        LabelError::Memory
    }
}

/// A label: `source:key=value`. Labels are ordered by source, then key, then value, each by bytes.
#[derive(Debug, PartialEq, Eq, PartialOrd, Ord, Hash, Drop)]
pub struct Label {
    /// Who made the label, as `k8s` or `reserved`.
    pub source: Text,
    /// The key, as `app`.
    pub key: Text,
    /// The value, which may be empty.
    pub value: Text,
}

impl Label {
    /// The label of the text `source:key=value` (Cilium, "Terminology", labels).
    ///
    /// The value starts after the first `=`, and is empty without one. The source stands before the
    /// first `:` that precedes the first `=`, and is `unspec` without one.
    /// `Bad` comes exactly where a byte is outside 0x21 to 0x7E, the key is empty, the source before
    /// a `:` is empty, or the source is `any` (profile). `Memory` is want of memory.
    pub fn parse(alloc: Global, text: &str) -> Result<Label, LabelError>
        ensures label { IfOk result (λ label. read_label text.now ≡ Some label) }
        ensures bad { IsErrOf result LabelError.Bad ↔ (read_label text.now ≡ None) }
    {
        let (name, value) = split_value(text);
        let (source, key) = split_source(name);
        if !is_graphic(text) || key.is_empty() || !is_source(source) {
            return Err(LabelError::Bad);
        }
        Ok(Label {
            source: Text::from_str(alloc, source)?,
            key: Text::from_str(alloc, key)?,
            value: Text::from_str(alloc, value)?,
        })
    }

    /// Whether the labels share source and key.
    pub(crate) fn shares_place(&self, other: &Label) -> bool
        ensures { result ≡ same_place self.now other.now }
    {
        self.source == other.source && self.key == other.key
    }

    /// A label equal to this one. The one error is want of memory.
    pub fn copy(&self, alloc: Global) -> Result<Label, Memory>
        ensures equal { IfOk result (λ copy. copy ≡ self.now) }
    {
        Ok(Label {
            source: self.source.copy(alloc)?,
            key: self.key.copy(alloc)?,
            value: self.value.copy(alloc)?,
        })
    }
}

impl TryCopy for Label {
    fn try_copy(&self, alloc: Global) -> Result<Label, Memory> {
        self.copy(alloc)
    }
}

/// What stands before and after the first `=`.
fn split_value(text: &str) -> (&str, &str)
    ensures name { result.0.now ≡ name_part text.now }
    ensures value { result.1.now ≡ value_part text.now }
{
    match text.split_once('=') {
        Some(parts) => parts,
        None => (text, ""),
    }
}

/// The source and the key of what stands before the value.
fn split_source(name: &str) -> (&str, &str)
    ensures source { result.0.now ≡ source_part name.now }
    ensures key { result.1.now ≡ key_part name.now }
{
    match name.split_once(':') {
        Some(parts) => parts,
        None => (NO_SOURCE, name),
    }
}

/// Whether each byte is from 0x21 to 0x7E.
fn is_graphic(text: &str) -> bool
    ensures { result ≡ list_all is_ascii_graphic text.now }
{
    text.bytes().all(|byte| byte.is_ascii_graphic())
}

/// Whether a label may have the source.
fn is_source(source: &str) -> bool
    ensures { result ≡ allows_source source.now }
{
    !source.is_empty() && source != ANY_SOURCE
}
