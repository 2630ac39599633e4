//! Names.
ghost use Rattle.std.specs.Prelude.{◌≡◌};
ghost use Rattle.std.specs.List.{list_all};
ghost use Rattle.plain_types.specs.Names.{is_name, is_name_start, is_name_byte};

/// The most bytes that a name may have.
pub const NAME_BYTES: usize = 64;

/// Whether a text is a name: a letter or `_`, then letters, digits and `_`, all of them ASCII, at most
/// [`NAME_BYTES`] bytes. Sessions, classes, properties, signals and slots have such names. The limit
/// is our own; the letters are those of a C++ identifier.
pub fn is_name(text: &str) -> bool
    ensures { result ≡ is_name text.now }
{
    match text.as_bytes().split_first() {
        None => false,
        Some((first, rest)) => is_name_start(*first)
            && are_name_bytes(rest)
            && rest.len() < NAME_BYTES,
    }
}

fn are_name_bytes(bytes: &[u8]) -> bool
    ensures { result ≡ list_all is_name_byte bytes.now }
{
    bytes.iter().all(|byte| is_name_byte(*byte))
}

fn is_name_start(byte: u8) -> bool
    ensures { result ≡ is_name_start byte }
{
    byte == b'_' || byte.is_ascii_alphabetic()
}

fn is_name_byte(byte: u8) -> bool
    ensures { result ≡ is_name_byte byte }
{
    byte == b'_' || byte.is_ascii_alphanumeric()
}
