//! What is still to be told, on a stack.

ghost use Rattle.std.specs.Prelude.{◌≡◌, ◌++◌, ◌∷◌, [], OnOk};
ghost use Rattle.amf_text_write.specs.PutParts.{PutsValues, PutsTwo, PutsNamed, PutsEntries, PutsMembers, PutsPairs, PutsNames};

use amf_graph::{TextId, Value};
use amf_wire::Memory;
use json::Token;

/// A piece of what is still to be told.
#[derive(Clone, Copy)]
pub(crate) enum Piece {
    /// A token as it is.
    Token(Token<'static>),
    /// A name that is UTF-8, as the key of a member.
    Key(TextId),
    /// A name as a text.
    Name(TextId),
    /// A value, with the levels of nodes that are left for it.
    Value(u8, Value),
}

/// Puts a piece onto the stack.
pub(crate) fn put(piece: Piece, waiting: &mut Vec<Piece>) -> Result<(), Memory>
    ensures { OnOk result (waiting.new.items ≡ waiting.old.items ++ piece ∷ []) }
{
    waiting.push(piece)?;
    Ok(())
}

/// Puts values onto the stack, the first on top.
pub(crate) fn put_values(
    levels: u8,
    values: &[Value],
    waiting: &mut Vec<Piece>,
) -> Result<(), Memory>
    ensures { PutsValues levels values.now result waiting.old.items waiting.new.items }
{
    for index in (0..values.len()).rev() {
        put(Piece::Value(levels, values[index]), waiting)?;
    }
    Ok(())
}

/// Puts a piece and a value onto the stack, as a list of two.
fn put_two(levels: u8, first: Piece, second: Value, waiting: &mut Vec<Piece>) -> Result<(), Memory>
    ensures { PutsTwo levels first second result waiting.old.items waiting.new.items }
{
    put(Piece::Token(Token::EndArray), waiting)?;
    put(Piece::Value(levels, second), waiting)?;
    put(first, waiting)?;
    put(Piece::Token(Token::BeginArray), waiting)
}

/// Puts a named value onto the stack, as a member of an object.
fn put_named(levels: u8, name: TextId, value: Value, waiting: &mut Vec<Piece>) -> Result<(), Memory>
    ensures { PutsNamed levels name value result waiting.old.items waiting.new.items }
{
    put(Piece::Value(levels, value), waiting)?;
    put(Piece::Key(name), waiting)
}

/// Puts the keys and values of a dictionary onto the stack, as lists of two.
pub(crate) fn put_entries(
    levels: u8,
    entries: &[(Value, Value)],
    waiting: &mut Vec<Piece>,
) -> Result<(), Memory>
    ensures { PutsEntries levels entries.now result waiting.old.items waiting.new.items }
{
    for index in (0..entries.len()).rev() {
        let (key, value) = entries[index];
        put_two(levels, Piece::Value(levels, key), value, waiting)?;
    }
    Ok(())
}

/// Puts named values onto the stack, as members of an object.
pub(crate) fn put_members(
    levels: u8,
    pairs: &[(TextId, Value)],
    waiting: &mut Vec<Piece>,
) -> Result<(), Memory>
    ensures { PutsMembers levels pairs.now result waiting.old.items waiting.new.items }
{
    for index in (0..pairs.len()).rev() {
        let (name, value) = pairs[index];
        put_named(levels, name, value, waiting)?;
    }
    Ok(())
}

/// Puts named values onto the stack, as lists of two.
pub(crate) fn put_pairs(
    levels: u8,
    pairs: &[(TextId, Value)],
    waiting: &mut Vec<Piece>,
) -> Result<(), Memory>
    ensures { PutsPairs levels pairs.now result waiting.old.items waiting.new.items }
{
    for index in (0..pairs.len()).rev() {
        let (name, value) = pairs[index];
        put_two(levels, Piece::Name(name), value, waiting)?;
    }
    Ok(())
}

/// Puts the names of pairs onto the stack.
pub(crate) fn put_names(pairs: &[(TextId, Value)], waiting: &mut Vec<Piece>) -> Result<(), Memory>
    ensures { PutsNames pairs.now result waiting.old.items waiting.new.items }
{
    for index in (0..pairs.len()).rev() {
        put(Piece::Name(pairs[index].0), waiting)?;
    }
    Ok(())
}
