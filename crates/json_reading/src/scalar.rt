//! Reading one value without parts, byte by byte.
ghost use Rattle.std.specs.Prelude.{FitsSigned, ◌≡◌, ◌+◌, ◌≤◌, ◌<◌, ◌^◌, length, drop, get_or, codes, decimal, map, true, IfOk, IfSome};
ghost use Rattle.std.specs.Int.{w64};
ghost use Rattle.std.specs.Fmt.{signed_decimal};
ghost use Rattle.std.specs.List.{prefix_len};
ghost use Rattle.std.specs.Simd.Lanes.{mask_l};
ghost use Rattle.json.specs.Run.{is_plain, is_stop};
ghost use Rattle.json.specs.Print.{quoted, token_text};
ghost use Rattle.json_reading.specs.Spelling.{scalar_token, Fits, StandsAt};

use crate::field::Scalar;
use crate::real::Real;
use crate::stop::Stop;
use fast_float::Numeral;
use std::simd::prelude::*;

/// The byte at a place, or 0 past the end.
#[inline(always)]
pub(crate) fn byte_at(bytes: &[u8], at: usize) -> u8
    ensures { result ≡ get_or bytes.now at 0 }
{
    if at < bytes.len() { bytes[at] } else { 0 }
}

/// How many bytes are looked at together.
const TOGETHER: usize = 16;

/// Which of the bytes are quotes, backslashes or control bytes, one bit for each.
#[inline(always)]
fn stops(bytes: u8x16) -> u64
    ensures { result ≡ mask_l (map is_stop bytes) }
{
    let quotes = bytes.simd_eq(u8x16::splat(b'"'));
    let backslashes = bytes.simd_eq(u8x16::splat(b'\\'));
    let controls = bytes.simd_lt(u8x16::splat(b' '));
    (quotes | backslashes | controls).to_bitmask()
}

/// Where the first quote, backslash or control byte is from a place on, or the end.
#[inline(always)]
fn plain_end(bytes: &[u8], from: usize) -> usize
    requires { from ≤ length bytes.now }
    ensures value { result ≡ from + prefix_len is_plain (drop from bytes.now) }
    ensures bounds { (from ≤ result) × (result ≤ length bytes.now) }
{
    let mut end = from;
    'chunks: while bytes.len() - end >= TOGETHER {
        let found = stops(u8x16::from_slice(&bytes[end..]));
        if found != 0 {
            return end + found.trailing_zeros() as usize;
        }
        end += TOGETHER;
    }
    last_plain_end(bytes, end)
}

/// Finds the end of plain bytes one by one: for the last bytes of a text.
fn last_plain_end(bytes: &[u8], from: usize) -> usize
    requires { from ≤ length bytes.now }
    ensures value { result ≡ from + prefix_len is_plain (drop from bytes.now) }
    ensures bounds { (from ≤ result) × (result ≤ length bytes.now) }
{
    let mut end = from;
    'plain: while end < bytes.len() && is_plain(bytes[end]) {
        end += 1;
    }
    end
}

/// Whether a byte stands for itself in a text. Most are above the backslash, which is asked first.
fn is_plain(byte: u8) -> bool
    ensures { result ≡ is_plain byte }
{
    byte > b'\\' || (byte >= b' ' && byte != b'"' && byte != b'\\')
}

/// The text in quotes that begins at a place and has no escapes, and where it ends.
#[inline(always)]
pub(crate) fn scan_text<'a>(text: &'a str, at: usize) -> Result<(&'a str, usize), Stop>
    ensures { IfOk result (λ found. StandsAt text.now at (quoted found.0.now) found.1) }
{
    let bytes = text.as_bytes();
    if byte_at(bytes, at) != b'"' {
        return Err(Stop::Form);
    }
    let end = plain_end(bytes, at + 1);
    if byte_at(bytes, end) != b'"' {
        return Err(Stop::Form);
    }
    Ok((&text[at + 1..end], end + 1))
}

/// The number that the bytes begin with, as `decimal` writes it, and where it ends.
#[inline(always)]
pub(crate) fn scan_number(bytes: &[u8]) -> Option<(u64, usize)>
    ensures { IfSome result
        (λ found. StandsAt bytes.now 0 (decimal found.0) found.1 × (found.0 < 2 ^ 64)) }
{
    let mut number: u64 = 0;
    let mut end = 0;
    'digits: while end < bytes.len() && bytes[end].is_ascii_digit() {
        let digit = (bytes[end] - b'0') as u64;
        number = number.checked_mul(10)?.checked_add(digit)?;
        end += 1;
    }
    if end == 0 || (bytes[0] == b'0' && end > 1) {
        return None;
    }
    Some((number, end))
}

/// The number below 0 that the bytes begin with, and where it ends. The least of 64 bits is left to `serde_json`.
#[inline(never)]
pub(crate) fn scan_negative(bytes: &[u8]) -> Option<(i64, usize)>
    ensures { IfSome result (λ found. StandsAt bytes.now 0 (signed_decimal found.0) found.1 × FitsSigned w64 found.0) }
{
    if byte_at(bytes, 0) != b'-' {
        return None;
    }
    let (number, len) = scan_number(&bytes[1..])?;
    if number == 0 {
        return None;
    }
    Some((-i64::try_from(number).ok()?, len + 1))
}

/// The number with a sign that begins at a place, and where it ends.
#[inline(never)]
fn scan_signed<'a>(text: &'a str, at: usize) -> Result<(Scalar<'a>, usize), Stop>
    requires { at < length text.now }
    ensures { IfOk result
        (λ found. StandsAt text.now at (token_text (scalar_token found.0)) found.1
        × Fits found.0) }
{
    let bytes = text.as_bytes();
    if let Some((number, len)) = scan_negative(&bytes[at..]) {
        let end = at + len;
        if !matches!(byte_at(bytes, end), b'.' | b'e' | b'E') {
            return Ok((Scalar::Signed(number), end));
        }
    }
    let (real, end) = scan_real(text, at).ok_or(Stop::Form)?;
    Ok((Scalar::Real(real), end))
}

/// The number with a sign, and a fraction or an exponent, that begins at a place, and where it ends.
fn scan_real<'a>(text: &'a str, at: usize) -> Option<(Real<'a>, usize)>
    requires { at < length text.now }
    ensures { IfSome result (λ found. StandsAt text.now at found.0.text.now found.1) }
{
    let bytes = text.as_bytes();
    if bytes[at] != b'-' {
        return None;
    }
    let end = at + 1 + Numeral::scan(&bytes[at + 1..]).len();
    let next = byte_at(bytes, end);
    if next == 0 || next >= 128 {
        return None;
    }
    Some((Real::from_text(&text[at..end])?, end))
}

/// A word that the bytes begin with, and where it ends.
#[inline(never)]
fn scan_word<'a>(bytes: &[u8]) -> Option<(Scalar<'a>, usize)>
    ensures { IfSome result
        (λ found. StandsAt bytes.now 0 (token_text (scalar_token found.0)) found.1 × Fits found.0) }
{
    if bytes.starts_with(b"true") {
        Some((Scalar::Truth(true), 4))
    } else if bytes.starts_with(b"false") {
        Some((Scalar::Truth(false), 5))
    } else if bytes.starts_with(b"null") {
        Some((Scalar::Null, 4))
    } else {
        None
    }
}

/// The value without parts that begins at a place, and where it ends.
#[inline(always)]
pub(crate) fn scan_scalar<'a>(text: &'a str, at: usize) -> Result<(Scalar<'a>, usize), Stop>
    ensures { IfOk result
        (λ found. StandsAt text.now at (token_text (scalar_token found.0)) found.1
        × Fits found.0) }
{
    let bytes = text.as_bytes();
    match byte_at(bytes, at) {
        b'"' => {
            let (found, end) = scan_text(text, at)?;
            Ok((Scalar::Text(found), end))
        }
        b'0'..=b'9' => {
            let (number, len) = scan_number(&bytes[at..]).ok_or(Stop::Form)?;
            Ok((Scalar::Number(number), at + len))
        }
        b'-' => scan_signed(text, at),
        b't' | b'f' | b'n' => {
            let (word, len) = scan_word(&bytes[at..]).ok_or(Stop::Form)?;
            Ok((word, at + len))
        }
        b'{' | b'[' => Err(Stop::Nested),
        _ => Err(Stop::Form),
    }
}
