//! Label sets against labels and selectors, for callers that count no steps.
ghost use Rattle.std.specs.Prelude.{◌≡◌};
ghost use Rattle.pol_labels.specs.Match.{carries, matches};

use crate::{Label, LabelSet, Selector};

impl LabelSet {
    /// Whether the label is one of these.
    pub fn carries(&self, label: &Label) -> bool
        ensures label { result ≡ carries self.now label.now }
    {
        self.as_slice().iter().any(|own| *label == *own)
    }

    /// Whether the label `source:key=value` is one of these.
    pub fn carries_parts(&self, source: &str, key: &str, value: &str) -> bool
        ensures label { result ≡ carries self.now (record { source = source.now; key = key.now; value = value.now }) }
    {
        self.as_slice().iter().any(|own| {
            source == own.source.as_str()
                && (key == own.key.as_str() && value == own.value.as_str())
        })
    }
}

impl Selector {
    /// Whether the labels match: they meet each requirement. It takes no memory.
    pub fn is_met_by(&self, labels: &LabelSet) -> bool
        ensures answer { result ≡ matches self.now labels.now }
    {
        let labels = labels.as_slice();
        self.as_slice()
            .iter()
            .all(|requirement| requirement.is_met_by(labels))
    }
}
