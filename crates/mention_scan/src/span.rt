//! A place in a text that mentions someone.
ghost use Rattle.std.specs.Prelude.{◌≡◌};
ghost use Rattle.mention_scan.specs.Mentions.{is_group_span, is_user_span};

/// The bytes from `start` up to `end`. The inner text lies between the stars.
#[derive(Clone, Copy, Debug, PartialEq, Eq)]
pub struct Span {
    pub start: usize,
    pub end: usize,
    pub silent: bool,
    pub group: bool,
}

impl Span {
    /// Whether the span is of a user and not silent.
    pub fn is_of_user(&self) -> bool
        ensures { result ≡ is_user_span self.now }
    {
        !self.silent && !self.group
    }

    /// Whether the span is of a group and not silent.
    pub fn is_of_group(&self) -> bool
        ensures { result ≡ is_group_span self.now }
    {
        !self.silent && self.group
    }
}
