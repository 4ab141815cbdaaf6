//! The four forms of a span.
ghost use Rattle.std.specs.Prelude.{◌≡◌, ◌+◌, ◌≤◌, ◌||◌, length, true};
ghost use Rattle.std.specs.List.{prefix_len};
ghost use Rattle.std.specs.Option.{option_map};
ghost use Rattle.mention_scan.specs.Division.{opening, closing, is_inner, form_with, has_form, form_of, inner_in};

/// How many bytes an Inner has at least.
const LEAST_INNER: usize = 1;

/// A form of a span: of a user or of a group, silent or not. The stars stand round its Inner.
#[derive(Clone, Copy)]
pub struct Form {
    pub silent: bool,
    pub group: bool,
}

impl Form {
    /// The form with which these bytes begin.
    pub fn of(bytes: &[u8]) -> Option<Form>
        ensures { option_map (λ form. form_with form.silent form.group) result ≡ form_of bytes.now }
    {
        let user = Form {
            silent: false,
            group: false,
        };
        if user.begins(bytes) {
            return Some(user);
        }
        let silent_user = Form {
            silent: true,
            group: false,
        };
        if silent_user.begins(bytes) {
            return Some(silent_user);
        }
        let group = Form {
            silent: false,
            group: true,
        };
        if group.begins(bytes) {
            return Some(group);
        }
        let silent_group = Form {
            silent: true,
            group: true,
        };
        if silent_group.begins(bytes) {
            return Some(silent_group);
        }
        None
    }

    /// Whether these bytes begin with this form.
    fn begins(self, bytes: &[u8]) -> bool
        ensures { result ≡ has_form (form_with self.silent self.group) bytes.now }
    {
        let opening = self.opening();
        if !bytes.starts_with(opening) {
            return false;
        }
        let length = inner_length(&bytes[opening.len()..]);
        length >= LEAST_INNER && bytes[opening.len() + length..].starts_with(self.closing())
    }

    /// How many bytes the span has that begins these bytes in this form.
    pub fn length(self, bytes: &[u8]) -> usize
        requires begins { has_form (form_with self.silent self.group) bytes.now ≡ true }
        ensures value { let form = form_with self.silent self.group in
            result ≡ length (opening form) + length (inner_in form bytes.now) + length (closing form) }
        ensures bound { result ≤ length bytes.now }
    {
        let opening = self.opening().len();
        opening + inner_length(&bytes[opening..]) + self.closing().len()
    }

    /// Whether the span mentions nobody by its form, or since its line is quoted.
    pub fn is_silent_in(self, quoted: bool) -> bool
        ensures { result ≡ (quoted || self.silent) }
    {
        quoted || self.silent
    }

    /// What stands before the Inner.
    fn opening(self) -> &'static [u8]
        ensures { result.now ≡ opening (form_with self.silent self.group) }
    {
        match (self.silent, self.group) {
            (false, false) => b"@**",
            (true, false) => b"@_**",
            (false, true) => b"@*",
            (true, true) => b"@_*",
        }
    }

    /// What stands behind the Inner.
    fn closing(self) -> &'static [u8]
        ensures { result.now ≡ closing (form_with self.silent self.group) }
    {
        if self.group { b"*" } else { b"**" }
    }
}

/// How many bytes come before the next `*` or line feed.
fn inner_length(bytes: &[u8]) -> usize
    ensures value { result ≡ prefix_len is_inner bytes.now }
    ensures bound { result ≤ length bytes.now }
{
    for (i, b) in bytes.iter().enumerate() {
        if *b == b'*' || *b == b'\n' {
            return i;
        }
    }
    bytes.len()
}
