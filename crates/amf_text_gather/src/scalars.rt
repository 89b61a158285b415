//! What tokens are that are scalars.

ghost use Rattle.std.specs.Prelude.{◌≡◌, IfOk, option_map, option_and_then};
ghost use Rattle.json.specs.Reads.{token_of};
ghost use Rattle.amf_graph.specs.Graph as graph;
ghost use Rattle.amf_wire.specs.WholeNumbers.{whole_of};
ghost use Rattle.amf_text.specs.Scalars.{read_number};
ghost use Rattle.amf_text.specs.Meant.{as_integer, if_text, bytes_meant, pattern_meant, whole_meant, fits_int, fits_uint, flag_meant};
ghost use Rattle.amf_text.specs.Accepted.{form_meant, file_version, packet_version};
ghost use Rattle.amf_text_trees.specs.Sheets.{leaf};
ghost use Rattle.amf_text_trees.specs.Gathering.{json_of};
ghost use Rattle.amf_text_pages.specs.Entries.{entry_of};
ghost use Rattle.amf_text_pages.specs.Written.{form_named, version_named};

use amf_text_pages::{Entry, FileVersion, PacketForm};
use amf_text_read::{
    as_int, as_integer, as_uint, hex_bytes, number_pattern, number_whole, word_pattern,
};
use amf_wire::{Memory, Pattern, is_amf_text, whole_of};
use json::Token;
use std::alloc::Global;

/// The value that a double is: an integer where it is a whole one in the range of AMF 3.
fn number_value(pattern: Pattern) -> Entry
    ensures { entry_of result ≡ leaf (as_integer pattern.0 (whole_of pattern.0)) }
{
    match whole_of(pattern) {
        Some(whole) => match as_integer(whole) {
            Some(integer) => Entry::Integer(integer),
            None => Entry::Double(pattern),
        },
        None => Entry::Double(pattern),
    }
}

/// The value that a number is, where it is finite.
pub(crate) fn number_entry(number: &str) -> Option<Entry>
    ensures { option_map entry_of result ≡ option_map (λ p. leaf (as_integer p (whole_of p))) (read_number number.now) }
{
    match number_pattern(number) {
        Some(pattern) => Some(number_value(pattern)),
        None => None,
    }
}

/// The bytes of pairs of hexadecimal digits.
pub(crate) fn token_bytes(alloc: Global, token: &Token<'_>) -> Result<Option<Vec<u8>>, Memory>
    ensures { IfOk result (λ bytes. option_map (λ v. v.items) bytes ≡ bytes_meant (json_of (token_of token.now))) }
{
    match token {
        Token::String(digits) => hex_bytes(alloc, digits),
        _ => Ok(None),
    }
}

/// The text of pairs of hexadecimal digits.
pub(crate) fn token_text(alloc: Global, token: &Token<'_>) -> Result<Option<Vec<u8>>, Memory>
    ensures { IfOk result (λ bytes. option_map (λ v. v.items) bytes ≡ option_and_then if_text (bytes_meant (json_of (token_of token.now)))) }
{
    match token_bytes(alloc, token)? {
        Some(bytes) => {
            if is_amf_text(&bytes) {
                Ok(Some(bytes))
            } else {
                Ok(None)
            }
        }
        None => Ok(None),
    }
}

/// The bits of a double, by a number or a word.
pub(crate) fn token_pattern(token: &Token<'_>) -> Option<u64>
    ensures { result ≡ pattern_meant read_number (json_of (token_of token.now)) }
{
    let pattern = match token {
        Token::Number(number) => number_pattern(number),
        Token::String(word) => word_pattern(word),
        _ => None,
    };
    match pattern {
        Some(pattern) => Some(pattern.0),
        None => None,
    }
}

/// The whole number that a number is.
fn token_whole(token: &Token<'_>) -> Option<i64>
    ensures { result ≡ whole_meant read_number (json_of (token_of token.now)) }
{
    match token {
        Token::Number(number) => number_whole(number),
        _ => None,
    }
}

/// An integer of a vector.
pub(crate) fn token_int(token: &Token<'_>) -> Option<i32>
    ensures { result ≡ option_and_then fits_int (whole_meant read_number (json_of (token_of token.now))) }
{
    as_int(token_whole(token)?)
}

/// An unsigned integer of a vector.
pub(crate) fn token_uint(token: &Token<'_>) -> Option<u32>
    ensures { result ≡ option_and_then fits_uint (whole_meant read_number (json_of (token_of token.now))) }
{
    as_uint(token_whole(token)?)
}

/// A flag.
pub(crate) fn token_flag(token: &Token<'_>) -> Option<bool>
    ensures { result ≡ flag_meant (json_of (token_of token.now)) }
{
    match token {
        Token::Bool(flag) => Some(*flag),
        _ => None,
    }
}

/// The form of a header or a message.
pub(crate) fn token_form(token: &Token<'_>) -> Option<PacketForm>
    ensures { option_map form_named result ≡ form_meant (json_of (token_of token.now)) }
{
    match token {
        Token::String(word) => match *word {
            "plain" => Some(PacketForm::Plain),
            "amf3" => Some(PacketForm::Amf3),
            "call" => Some(PacketForm::Call),
            _ => None,
        },
        _ => None,
    }
}

/// The version of a file.
pub(crate) fn token_file_version(token: &Token<'_>) -> Option<FileVersion>
    ensures { option_map version_named result ≡ option_and_then file_version (whole_meant read_number (json_of (token_of token.now))) }
{
    match token_whole(token) {
        Some(0) => Some(FileVersion::Amf0),
        Some(3) => Some(FileVersion::Amf3),
        _ => None,
    }
}

/// The version of a packet.
pub(crate) fn token_packet_version(token: &Token<'_>) -> Option<u16>
    ensures { result ≡ option_and_then packet_version (whole_meant read_number (json_of (token_of token.now))) }
{
    match token_whole(token) {
        Some(0) => Some(0),
        Some(1) => Some(1),
        Some(3) => Some(3),
        _ => None,
    }
}
