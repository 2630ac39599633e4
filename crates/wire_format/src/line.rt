//! Lines as bytes.
ghost use Rattle.std.specs.Prelude.{◌≡◌};
ghost use Rattle.wire_format.specs.Command.{is_blank, is_blank_byte};
ghost use Rattle.std.specs.List.{list_all};

/// The most bytes that a line may have, its end not counted. The limit is our own.
pub const LINE_BYTES: usize = 65_536;

/// Whether a line is passed over: it is not too long, and has nothing but spaces, tabs and carriage
/// returns.
#[tactic(auto, unfolding(crate::specs::Command::is_blank))]
pub fn is_blank(line: &[u8]) -> bool
    ensures { result ≡ is_blank line.now }
{
    line.len() <= LINE_BYTES && has_only_blanks(line)
}

fn has_only_blanks(line: &[u8]) -> bool
    ensures { result ≡ list_all is_blank_byte line.now }
{
    line.iter().all(|byte| is_blank_byte(*byte))
}

fn is_blank_byte(byte: u8) -> bool
    ensures { result ≡ is_blank_byte byte }
{
    byte == b' ' || byte == b'\t' || byte == b'\r'
}
