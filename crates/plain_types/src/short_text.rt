//! Short texts.
ghost use Rattle.std.specs.Prelude.{◌≡◌, ◌≤◌, [], IfSome, take};
ghost use Rattle.std.specs.Str.{IsUtf8};

use std::str;

/// A text of so many bytes, or fewer, is kept in the value itself and takes no memory.
const SHORT_BYTES: usize = 22;

/// A text of a few bytes. Its length takes one byte, so that every text takes 24.
#[derive(Clone, Copy)]
pub(crate) struct ShortText {
    bytes: [u8; SHORT_BYTES],
    len: u8,
    ghost fits: { len ≤ 22 },
    ghost text: { ∥ IsUtf8 (take len bytes) ∥₁ },
}

impl ShortText {
    ghost use Rattle.plain_types.specs.ShortText.{short_bytes};

    /// An empty text.
    pub(crate) fn new() -> ShortText
        ensures { short_bytes result ≡ [] }
    {
        ShortText {
            bytes: [0; SHORT_BYTES],
            len: 0,
        }
    }

    /// Returns the text as a short one, if it is short.
    pub(crate) fn from(text: &str) -> Option<ShortText>
        ensures { IfSome result (λ short. short_bytes short ≡ text.now) }
    {
        let len = text.len();
        if len > SHORT_BYTES {
            return None;
        }
        let mut bytes = [0; SHORT_BYTES];
        bytes[..len].copy_from_slice(text.as_bytes());
        Some(ShortText {
            bytes,
            len: len as u8,
        })
    }

    pub(crate) fn as_str(&self) -> &str
        ensures { result.now ≡ short_bytes self.now }
    {
        // The bytes are UTF-8, as `from` copied them from a text; the proof shows it.
        unsafe { str::from_utf8_unchecked(&self.bytes[..self.len as usize]) }
    }
}
