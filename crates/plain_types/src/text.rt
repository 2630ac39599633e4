//! Texts.
ghost use Rattle.std.specs.Prelude.{◌≡◌, ◌↔◌, [], IsTrue, IfOk, length, string_bytes};

use crate::short_text::ShortText;
use std::alloc::{AllocError, Global};
use std::hash::{Hash, Hasher};
use std::marker::Model;
use std::rc::RcStr;

/// A short text lies in the value itself. A longer one is shared by its copies.
#[derive(Drop)]
enum Kept {
    Short(ShortText),
    Shared(RcStr),
}

/// A string that contracts see as the list of its bytes.
pub struct Text {
    kept: Kept,
}

// Each scope that drops a text calls this, where a derived `Drop` would have both forms proved there.
impl Drop for Text {
    fn drop(self) {
        let Text { kept: _ } = self;
    }
}

impl Model for Text {
    ghost use Rattle.std.specs.Prelude.{ℕ, List};
    ghost use Rattle.plain_types.specs.Texts.{bytes_kept};

    ghost Value = { List ℕ };

    ghost view = { λ t. bytes_kept t.kept };
}

impl Text {
    /// An empty text.
    pub fn new() -> Text
        ensures { result ≡ [] }
    {
        Text {
            kept: Kept::Short(ShortText::new()),
        }
    }

    /// Copies a text into a value of its own.
    pub fn from_str(alloc: Global, text: &str) -> Result<Text, AllocError>
        ensures { IfOk result (λ t. t ≡ text.now) }
    {
        let kept = match ShortText::from(text) {
            Some(short) => Kept::Short(short),
            None => Kept::Shared(RcStr::from_str(alloc, text)?),
        };
        Ok(Text { kept })
    }

    /// The text that the string holds, whose bytes stay where they are unless they are few.
    pub fn from_string(text: String) -> Result<Text, AllocError>
        ensures { IfOk result (λ t. t ≡ string_bytes text) }
    {
        let kept = match ShortText::from(text.as_str()) {
            Some(short) => Kept::Short(short),
            None => Kept::Shared(RcStr::from_string(text)?),
        };
        Ok(Text { kept })
    }

    pub fn as_str(&self) -> &str
        ensures { result.now ≡ self.now }
    {
        match &self.kept {
            Kept::Short(text) => text.as_str(),
            Kept::Shared(text) => text.as_str(),
        }
    }

    /// The number of bytes of the text in UTF-8.
    pub fn len(&self) -> usize
        ensures { result ≡ length self.now }
    {
        self.as_str().len()
    }

    pub fn is_empty(&self) -> bool
        ensures { IsTrue result ↔ (self.now ≡ []) }
    {
        self.as_str().is_empty()
    }

    /// An equal text. A short one is copied; a longer one is shared, and is copied only where its owners
    /// are too many to be counted.
    pub fn copy(&self, alloc: Global) -> Result<Text, AllocError>
        ensures { IfOk result (λ t. t ≡ self.now) }
    {
        let kept = match &self.kept {
            Kept::Short(text) => Kept::Short(*text),
            Kept::Shared(text) => match text.clone() {
                Ok(text) => Kept::Shared(text),
                Err(_) => return Text::from_str(alloc, text.as_str()),
            },
        };
        Ok(Text { kept })
    }
}

impl PartialEq for Text {
    ghost use Rattle.std.specs.Prelude.{bytes_eq};
    ghost use Rattle.std.specs.Cmp.{partial_equiv_from_equiv};
    ghost use Rattle.std.specs.Cmp.Lexicographic.{nat_list_eq_equiv};

    ghost eq = { bytes_eq };

    ghost laws = { partial_equiv_from_equiv nat_list_eq_equiv };

    fn eq(&self, other: &Text) -> bool {
        self.as_str() == other.as_str()
    }
}

impl Eq for Text {
    ghost use Rattle.std.specs.Cmp.Lexicographic.{nat_list_eq_equiv};

    ghost laws = { nat_list_eq_equiv };
}

impl Hash for Text {
    ghost use Rattle.std.specs.Hash as fed;
    ghost use Rattle.std.proofs.Common.{rules};
    ghost use Rattle.std.specs.Cmp.Rules.{hashing};

    ghost hash_input = { λ t. fed.str t };

    ghost respects_eq = { Prim.search (hashing, rules) };

    fn hash<H: Hasher>(&self, state: &mut H) {
        self.as_str().hash(state);
    }
}
