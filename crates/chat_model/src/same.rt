//! Whether two values are the same.
ghost use Rattle.std.specs.Prelude.{◌≡◌, ◌↔◌, IsTrue};

/// A value that can be told from each other one of its type.
pub trait Same {
    /// Whether the two are the same, as `==` says.
    fn is_same(&self, other: &Self) -> bool
        ensures { IsTrue result ↔ (self.now ≡ other.now) };
}
