//! A growable list whose growth may be refused. Contracts see it as the list of its items.
ghost use Rattle.std.specs.Prelude.{
  ◌≡◌,
  ◌≢◌,
  ◌<◌,
  ◌≤◌,
  ◌↔◌,
  [],
  ◌∷◌,
  ◌++◌,
  length,
  take,
  slice_get,
  IsTrue,
  IfOk,
  OnOk,
  OnErr,
};

use crate::{OutOfMemory, Same};
use std::alloc::Global;
use std::marker::Model;

/// Items in order, over a `Vec`.
#[derive(Debug, Drop)]
pub struct List<T> {
    inner: Vec<T>,
}

impl<T> Model for List<T> {
    ghost use Rattle.std.specs.Prelude as prelude;

    ghost Value = { prelude.List T };

    ghost view = { λ l. l.inner.items };
}

impl<T> List<T> {
    /// An empty list, which takes no memory yet.
    pub fn new(alloc: Global) -> List<T>
        ensures { result ≡ [] }
    {
        List {
            inner: Vec::new(alloc),
        }
    }

    /// Adds an item at the end. Want of memory leaves the list as it was.
    pub fn push(&mut self, item: T) -> Result<(), OutOfMemory>
    where
        T: Drop,
        ensures ok { OnOk result (self.new ≡ self.old ++ item ∷ []) }
        ensures err { OnErr result (self.new ≡ self.old) }
    {
        self.inner.push(item)?;
        Ok(())
    }

    /// The number of items.
    pub fn len(&self) -> usize
        ensures { result ≡ length self.now }
    {
        self.inner.len()
    }

    /// Whether there is no item.
    pub fn is_empty(&self) -> bool
        ensures { IsTrue result ↔ (self.now ≡ []) }
    {
        self.inner.is_empty()
    }

    /// Lends the items in order.
    pub fn as_slice(&self) -> &[T]
        ensures { result.now ≡ self.now }
    {
        self.inner.as_slice()
    }

    /// Gives the items back as a `Vec`, which takes no memory.
    pub fn into_vec(self) -> Vec<T>
        ensures { result.items ≡ self }
    {
        self.inner
    }
}

impl<T: Copy> List<T> {
    /// A list of the same items.
    pub fn copy(&self) -> Result<List<T>, OutOfMemory>
        ensures { IfOk result (λ l. l ≡ self.now) }
    {
        let alloc = *self.inner.allocator();
        Ok(List {
            inner: Vec::from_slice(alloc, &self.inner)?,
        })
    }
}

impl<T: PartialEq> PartialEq for List<T> {
    ghost use Rattle.std.specs.Cmp.Lexicographic.{pointwise, lists_per};

    ghost eq = { pointwise T.eq };

    ghost laws = { lists_per T.laws };

    fn eq(&self, other: &List<T>) -> bool {
        self.as_slice() == other.as_slice()
    }
}

impl<T: Eq> Eq for List<T> {
    ghost use Rattle.std.specs.Cmp.Lexicographic.{lists_equiv};

    ghost laws = { lists_equiv T.Eq.laws };
}

/// How many items the lists have in common, from the front on.
fn common<T: Same>(xs: &[T], ys: &[T]) -> usize
    ensures in_first { result ≤ length xs.now }
    ensures in_second { result ≤ length ys.now }
    ensures same { take result xs.now ≡ take result ys.now }
    ensures differ { result < length xs.now → slice_get xs.now result ≢ slice_get ys.now result }
{
    let mut count = 0;
    while count < xs.len() && count < ys.len() && xs[count].is_same(&ys[count]) {
        count += 1;
    }
    count
}

impl<T: Same> Same for List<T> {
    fn is_same(&self, other: &List<T>) -> bool {
        self.len() == other.len() && common(self.as_slice(), other.as_slice()) == self.len()
    }
}

impl<T> From<Vec<T>> for List<T> {
    ghost from_gives = { λ v l. l ≡ v.items };

    fn from(inner: Vec<T>) -> List<T> {
        List { inner }
    }
}
