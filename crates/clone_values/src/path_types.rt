// What a key path is read from (Indexed Database API 3.0, 2.5).
ghost use Rattle.std.specs.Prelude.{◌≡◌, IfOk};

use crate::small_lists::{Text, Texts};
use std::alloc::Global;
use value_trees::NoMemory;

/// A key path as a script writes it: one string, or a list of strings.
#[derive(Debug, Drop)]
pub enum PathSpec {
    One(Text),
    Many(Texts),
}

impl PathSpec {
    /// An equal string or list of strings.
    pub fn copy(&self, alloc: Global) -> Result<PathSpec, NoMemory>
        ensures { IfOk result (λ s. s ≡ self.now) }
    {
        match self {
            PathSpec::One(string) => Ok(PathSpec::One(string.copy(alloc)?)),
            PathSpec::Many(strings) => Ok(PathSpec::Many(strings.copy(alloc)?)),
        }
    }
}
