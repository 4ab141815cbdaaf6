//! Copies of what stands in lists.
ghost use Rattle.std.specs.Prelude.{◌≡◌, IfOk};

use crate::OutOfMemory;
use std::alloc::Global;

/// A value of which a second one can be made, where memory is had.
pub trait Duplicate: Drop + Sized {
    /// A second value, the same as this one.
    fn duplicate(&self, alloc: Global) -> Result<Self, OutOfMemory>
        ensures { IfOk result (λ second. second ≡ self.now) };
}

/// The same items in a `Vec` of their own.
pub fn duplicate_all<T: Duplicate>(alloc: Global, items: &[T]) -> Result<Vec<T>, OutOfMemory>
    ensures { IfOk result (λ second. second.items ≡ items.now) }
{
    let mut copies = Vec::new(alloc);
    for item in items {
        let copy = item.duplicate(alloc)?;
        copies.push(copy)?;
    }
    Ok(copies)
}
