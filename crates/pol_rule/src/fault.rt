//! What a policy is refused for, once its document is read.
ghost use Rattle.std.specs.Prelude.{◌≡◌, Ok};

use crate::policy::Section;
use pol_data::{Memory, TryCopy};
use std::alloc::Global;

/// A fault of a policy's rules ('profile').
#[derive(Clone, Copy, Debug, PartialEq, Eq)]
pub struct RuleFault {
    /// The number of its cause: 15 to 24 or 26 to 28, which `RuleCause` names.
    pub number: u8,
    /// The rule's place in the policy, from 0.
    pub rule: u32,
    /// The section and the entry's place in it, from 0; `None` for a fault of the rule's subject.
    pub at: Option<(Section, u32)>,
}

impl RuleFault {
    /// The fault again. It takes no memory, and so has no error.
    pub fn copy(&self, _alloc: Global) -> Result<RuleFault, Memory>
        ensures { result ≡ Ok self.now }
    {
        Ok(*self)
    }
}

impl TryCopy for RuleFault {
    fn try_copy(&self, alloc: Global) -> Result<RuleFault, Memory> {
        self.copy(alloc)
    }
}
