//! Reading a signature's text from the front.
ghost use Rattle.std.specs.Prelude.{◌≡◌, ◌≤◌, IfOk, Some, None, if◌then◌else◌, length, option_map};
ghost use Rattle.std.specs.Option.{option_copied};
ghost use Rattle.std.specs.List.{prefix_len};
ghost use Rattle.plain_types.specs.Names.{is_name, is_name_byte};
ghost use Rattle.signature_core.specs.Grammar.{is_blank};
ghost use Rattle.signature_core.specs.Reading.{skip, word, behind_word, behind_mark, behind_reference, param_at, params_at, inside_at, is_end, signature_of};
ghost use Rattle.signature_core.specs.Kinds.{kind_named};

use crate::kind::Kind;
use crate::signature::{PARAMS, Signature};
use plain_types::{Items, Text, is_name};
use std::alloc::{AllocError, Global};

fn is_blank(byte: u8) -> bool
    ensures { result ≡ is_blank byte }
{
    matches!(byte, b' ' | b'\t' | b'\n' | b'\r')
}

fn is_name_byte(byte: u8) -> bool
    ensures { result ≡ is_name_byte byte }
{
    byte.is_ascii_alphanumeric() || byte == b'_'
}

/// How many bytes of white space the text begins with.
fn blanks(text: &[u8]) -> usize
    ensures count { result ≡ prefix_len is_blank text.now }
    ensures within { result ≤ length text.now }
{
    text.iter().take_while(|byte| is_blank(**byte)).count()
}

/// How many bytes the word has that the text begins with.
fn word_len(text: &[u8]) -> usize
    ensures count { result ≡ prefix_len is_name_byte text.now }
    ensures within { result ≤ length text.now }
{
    text.iter().take_while(|byte| is_name_byte(**byte)).count()
}

/// The text after its leading white space.
#[tactic(auto, using(std::proofs::lemmas::List::take_rest), unfolding(crate::specs::Reading::skip))]
fn skip(text: &[u8]) -> &[u8]
    ensures { result.now ≡ skip text.now }
{
    &text[blanks(text)..]
}

/// The word that the text begins with, and the text after that word and the white space that follows it.
#[tactic(auto, unfolding(crate::specs::Reading::word, crate::specs::Reading::behind_word))]
fn word(text: &[u8]) -> (&[u8], &[u8])
    ensures word { result.0.now ≡ word text.now }
    ensures rest { result.1.now ≡ behind_word text.now }
{
    let (word, rest) = text.split_at(word_len(text));
    (word, skip(rest))
}

/// The text after this mark and the white space that follows it, where the text begins with the mark.
#[tactic(auto, unfolding(crate::specs::Reading::behind_mark))]
fn mark(text: &[u8], mark: u8) -> Option<&[u8]>
    ensures { option_copied result ≡ behind_mark mark text.now }
{
    match text {
        [first, rest @ ..] if *first == mark => Some(skip(rest)),
        _ => None,
    }
}

/// The text after a leading `&` and the white space that follows it, or all of the text where it begins otherwise.
#[tactic(auto, unfolding(crate::specs::Reading::behind_reference))]
fn reference(text: &[u8]) -> &[u8]
    ensures { result.now ≡ behind_reference text.now }
{
    mark(text, b'&').unwrap_or(text)
}

/// The kind of the parameter that the text begins with, and the text after that parameter.
#[tactic(auto, unfolding(crate::specs::Reading::param_at))]
fn param(text: &[u8]) -> Option<(Kind, &[u8])>
    ensures { option_map (λ read. (read.0, read.1.now)) result ≡ param_at text.now }
{
    let (first, behind_first) = word(text);
    let (second, behind_second) = word(behind_first);
    if first == "const".as_bytes() {
        return Some((Kind::from_bytes(second)?, reference(behind_second)));
    }
    let kind = Kind::from_bytes(first)?;
    if second == "const".as_bytes() {
        return Some((kind, reference(behind_second)));
    }
    Some((kind, behind_first))
}

/// The kinds of the parameters that the text begins with, and the text after them.
fn params(alloc: Global, text: &[u8]) -> Result<Option<(Vec<Kind>, &[u8])>, AllocError>
    ensures { IfOk result (λ found. option_map (λ read. (read.0.items, read.1.now)) found
        ≡ params_at PARAMS text.now) }
{
    let mut kinds = Vec::new(alloc);
    let mut rest = text;
    for _ in 0..PARAMS {
        let Some((kind, behind)) = param(rest) else {
            return Ok(None);
        };
        kinds.push(kind)?;
        let Some(next) = mark(behind, b',') else {
            return Ok(Some((kinds, behind)));
        };
        rest = next;
    }
    Ok(None)
}

/// The kinds of the parameters between the parentheses, and the text after them.
#[tactic(auto, unfolding(crate::specs::Reading::inside_at))]
fn inside(alloc: Global, text: &[u8]) -> Result<Option<(Vec<Kind>, &[u8])>, AllocError>
    ensures { IfOk result (λ found. option_map (λ read. (read.0.items, read.1.now)) found
        ≡ inside_at text.now) }
{
    let (first, rest) = word(text);
    if first.is_empty() || first == "void".as_bytes() {
        return Ok(Some((Vec::new(alloc), rest)));
    }
    params(alloc, text)
}

/// Whether only a `)` and white space are left.
#[tactic(auto, unfolding(crate::specs::Reading::is_end))]
fn is_end(text: &[u8]) -> bool
    ensures { result ≡ is_end text.now }
{
    match mark(text, b')') {
        Some(rest) => rest.is_empty(),
        None => false,
    }
}

/// The name that the bytes are.
fn name(bytes: &[u8]) -> Option<&str>
    ensures { option_map (λ name. name.now) result
        ≡ (if is_name bytes.now then Some bytes.now else None) }
{
    let Ok(name) = str::from_utf8(bytes) else {
        return None;
    };
    if is_name(name) { Some(name) } else { None }
}

/// The signature that the text is.
#[tactic(auto, unfolding(crate::specs::Reading::signature_of))]
pub(crate) fn signature(alloc: Global, text: &[u8]) -> Result<Option<Signature>, AllocError>
    ensures { IfOk result (λ read. read ≡ signature_of text.now) }
{
    let (word, rest) = word(skip(text));
    let Some(name) = name(word) else {
        return Ok(None);
    };
    let Some(rest) = mark(rest, b'(') else {
        return Ok(None);
    };
    let Some((kinds, rest)) = inside(alloc, rest)? else {
        return Ok(None);
    };
    if !is_end(rest) {
        return Ok(None);
    }
    Ok(Some(Signature {
        name: Text::from_str(alloc, name)?,
        kinds: Items::from_vec(kinds),
    }))
}
