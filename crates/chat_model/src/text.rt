//! A text whose growth may be refused. Contracts see it as the list of its UTF-8 bytes.
ghost use Rattle.std.specs.Prelude.{◌≡◌, ℕ, List, IfOk};
ghost use Rattle.std.specs.String.{string_bytes};
ghost use Rattle.chat_model.specs.Texts.{beginning};

use crate::{OutOfMemory, Same};
use std::alloc::Global;
use std::marker::Model;

/// UTF-8 text, over a `String`.
#[derive(Debug, Drop)]
pub struct Text {
    inner: String,
}

impl Model for Text {
    ghost Value = { List ℕ };

    ghost view = { λ t. string_bytes t.inner };
}

impl Text {
    /// A text of the same characters.
    pub fn from_str(alloc: Global, text: &str) -> Result<Text, OutOfMemory>
        ensures { IfOk result (λ t. t ≡ text.now) }
    {
        Ok(Text {
            inner: String::from_str(alloc, text)?,
        })
    }

    /// Lends the text.
    pub fn as_str(&self) -> &str
        ensures { result.now ≡ self.now }
    {
        self.inner.as_str()
    }

    /// The first so many characters, which are Unicode scalar values and not bytes, or all where there are fewer.
    pub fn beginning(&self, most: usize) -> Result<Text, OutOfMemory>
        ensures { IfOk result (λ t. t ≡ beginning most self.now) }
    {
        let alloc = *self.inner.allocator();
        let inner: String = self.as_str().chars().take(most).collect(alloc)?;
        Ok(Text { inner })
    }

    /// A second text of the same characters.
    pub fn copy(&self) -> Result<Text, OutOfMemory>
        ensures { IfOk result (λ t. t ≡ self.now) }
    {
        let alloc = *self.inner.allocator();
        Text::from_str(alloc, self.inner.as_str())
    }
}

impl PartialEq for Text {
    ghost use Rattle.std.specs.Prelude.{nat_eq};
    ghost use Rattle.std.specs.Cmp as cmp;
    ghost use Rattle.std.specs.Cmp.Lexicographic.{pointwise, nat_list_eq_equiv};

    ghost eq = { pointwise nat_eq };

    ghost laws = { cmp.partial_equiv_from_equiv nat_list_eq_equiv };

    fn eq(&self, other: &Text) -> bool {
        self.as_str() == other.as_str()
    }
}

impl Eq for Text {
    ghost use Rattle.std.specs.Cmp.Lexicographic.{nat_list_eq_equiv};

    ghost laws = { nat_list_eq_equiv };
}

impl Same for Text {
    fn is_same(&self, other: &Text) -> bool {
        self == other
    }
}

impl From<String> for Text {
    ghost from_gives = { λ s t. t ≡ string_bytes s };

    fn from(inner: String) -> Text {
        Text { inner }
    }
}
