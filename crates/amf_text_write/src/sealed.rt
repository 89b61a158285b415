//! Members of objects that are still to be told.

ghost use Rattle.std.specs.Prelude.{◌≡◌, length, OnOk, IfOk};
ghost use Rattle.std.specs.List.{zip};
ghost use Rattle.amf_graph.specs.Graph.{Graph};
ghost use Rattle.amf_iso.specs.Contents.{AreValues, ArePairs};
ghost use Rattle.amf_text_write.specs.Names.{names_of, HavePlainNames};
ghost use Rattle.amf_text_write.specs.Objects.{name_list};
ghost use Rattle.amf_text_write.specs.Opening.{AreIds};
ghost use Rattle.amf_text_write.specs.PartsInWay.{PutsIn, sealed_in};
ghost use Rattle.amf_text_write.specs.Pieces.{Puts};
ghost use Rattle.amf_text_write.specs.PutParts.{PutsDynamic};
ghost use Rattle.amf_text_write.specs.Ways.{arena_in};

use crate::members::put_told;
use crate::names::{are_keys, is_rising};
use crate::waiting::{Piece, put, put_names};
use crate::way::Way;
use amf_graph::{Rooted, TextId, Value};
use amf_iso::ids_by_name;
use amf_wire::Memory;
use json::Token;
use std::alloc::Global;

/// Names, each with the value at its place.
fn zipped(alloc: Global, names: &[TextId], values: &[Value]) -> Result<Vec<(TextId, Value)>, Memory>
    requires { length values.now ≡ length names.now }
    ensures { IfOk result (λ pairs. pairs.items ≡ zip names.now values.now) }
{
    let mut pairs = Vec::new(alloc);
    for (place, name) in names.iter().enumerate() {
        pairs.push((*name, values[place]))?;
    }
    Ok(pairs)
}

/// Puts the list of the names onto the stack, where they do not rise. The names are UTF-8.
fn put_name_list(
    pairs: &[(TextId, Value)],
    graph: &Rooted,
    waiting: &mut Vec<Piece>,
) -> Result<(), Memory>
    requires pairs { ArePairs graph.now.arena pairs.now }
    requires plain { HavePlainNames graph.now.arena pairs.now }
    ensures { (g : Graph) → OnOk result (Puts g graph.now.arena (λ w. name_list (names_of graph.now.arena pairs.now)) waiting.old.items waiting.new.items) }
{
    if is_rising(pairs, graph) {
        return Ok(());
    }
    put(Piece::Token(Token::EndArray), waiting)?;
    put_names(pairs, waiting)?;
    put(Piece::Token(Token::BeginArray), waiting)?;
    put(Piece::Token(Token::Key("$names")), waiting)
}

/// Puts sealed members onto the stack: an object by their names, if these are keys, with the list of the names where they do
/// not rise; else a list of pairs.
pub(crate) fn put_sealed(
    names: &[TextId],
    values: &[Value],
    levels: u8,
    way: &Way<'_>,
    waiting: &mut Vec<Piece>,
) -> Result<(), Memory>
    requires names { AreIds (arena_in way.now) names.now }
    requires values { AreValues (arena_in way.now) values.now }
    requires each { length values.now ≡ length names.now }
    ensures { OnOk result (PutsIn way.now (sealed_in way.now levels names.now values.now) waiting.old.items waiting.new.items) }
{
    if names.is_empty() {
        return Ok(());
    }
    let pairs = zipped(way.alloc, names, values)?;
    let sorted = ids_by_name(way.alloc, &pairs, way.graph)?;
    if !are_keys(&sorted, way.graph) {
        put_told(false, levels, &pairs, waiting)?;
        return put(Piece::Token(Token::Key("$sealed")), waiting);
    }
    put_told(true, levels, &sorted, waiting)?;
    put(Piece::Token(Token::Key("$sealed")), waiting)?;
    put_name_list(&pairs, way.graph, waiting)
}

/// Puts the further members of an object onto the stack, where its class takes them.
pub(crate) fn put_dynamic(
    dynamic: bool,
    are_keys: bool,
    pairs: &[(TextId, Value)],
    levels: u8,
    waiting: &mut Vec<Piece>,
) -> Result<(), Memory>
    ensures { PutsDynamic dynamic are_keys levels pairs.now result waiting.old.items waiting.new.items }
{
    if !dynamic {
        return Ok(());
    }
    put_told(are_keys, levels, pairs, waiting)?;
    put(Piece::Token(Token::Key("$dynamic")), waiting)
}
