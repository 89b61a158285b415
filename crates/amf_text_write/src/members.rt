//! Lists and named values that are still to be told.

ghost use Rattle.std.specs.Prelude.{OnOk};
ghost use Rattle.amf_graph.specs.Arena.{Arena};
ghost use Rattle.amf_graph.specs.Graph.{Graph};
ghost use Rattle.amf_iso.specs.Contents.{ArePairs};
ghost use Rattle.amf_text_write.specs.Flags.{flag_tokens};
ghost use Rattle.amf_text_write.specs.PartsInWay.{PutsIn, by_name_in};
ghost use Rattle.amf_text_write.specs.Pieces.{Puts};
ghost use Rattle.amf_text_write.specs.PutParts.{PutsList, PutsEntryList, PutsTold};
ghost use Rattle.amf_text_write.specs.Ways.{arena_in};

use crate::names::are_keys;
use crate::waiting::{Piece, put, put_entries, put_members, put_pairs, put_values};
use crate::way::Way;
use amf_graph::{TextId, Value};
use amf_iso::ids_by_name;
use amf_wire::Memory;
use json::Token;

/// Puts values onto the stack, as a list.
pub(crate) fn put_list(levels: u8, values: &[Value], waiting: &mut Vec<Piece>) -> Result<(), Memory>
    ensures { PutsList levels values.now result waiting.old.items waiting.new.items }
{
    put(Piece::Token(Token::EndArray), waiting)?;
    put_values(levels, values, waiting)?;
    put(Piece::Token(Token::BeginArray), waiting)
}

/// Puts the keys and values of a dictionary onto the stack, as a list.
pub(crate) fn put_entry_list(
    levels: u8,
    entries: &[(Value, Value)],
    waiting: &mut Vec<Piece>,
) -> Result<(), Memory>
    ensures { PutsEntryList levels entries.now result waiting.old.items waiting.new.items }
{
    put(Piece::Token(Token::EndArray), waiting)?;
    put_entries(levels, entries, waiting)?;
    put(Piece::Token(Token::BeginArray), waiting)
}

/// Puts a member that stands where its flag holds onto the stack.
pub(crate) fn put_flag(
    name: &'static str,
    flag: bool,
    waiting: &mut Vec<Piece>,
) -> Result<(), Memory>
    ensures { (g : Graph) (a : Arena) → OnOk result (Puts g a (λ w. flag_tokens name.now flag) waiting.old.items waiting.new.items) }
{
    if !flag {
        return Ok(());
    }
    put(Piece::Token(Token::Bool(true)), waiting)?;
    put(Piece::Token(Token::Key(name)), waiting)
}

/// Puts named values onto the stack, as an object, whose keys they are, or as a list of pairs.
pub(crate) fn put_told(
    are_keys: bool,
    levels: u8,
    pairs: &[(TextId, Value)],
    waiting: &mut Vec<Piece>,
) -> Result<(), Memory>
    ensures { PutsTold are_keys levels pairs.now result waiting.old.items waiting.new.items }
{
    if are_keys {
        put(Piece::Token(Token::EndObject), waiting)?;
        put_members(levels, pairs, waiting)?;
        return put(Piece::Token(Token::BeginObject), waiting);
    }
    put(Piece::Token(Token::EndArray), waiting)?;
    put_pairs(levels, pairs, waiting)?;
    put(Piece::Token(Token::BeginArray), waiting)
}

/// Puts named values in by-name order onto the stack, as an object where their names are keys.
pub(crate) fn put_by_name(
    levels: u8,
    pairs: &[(TextId, Value)],
    way: &Way<'_>,
    waiting: &mut Vec<Piece>,
) -> Result<(), Memory>
    requires { ArePairs (arena_in way.now) pairs.now }
    ensures { OnOk result (PutsIn way.now (by_name_in way.now levels pairs.now) waiting.old.items waiting.new.items) }
{
    let sorted = ids_by_name(way.alloc, pairs, way.graph)?;
    put_told(are_keys(&sorted, way.graph), levels, &sorted, waiting)
}
