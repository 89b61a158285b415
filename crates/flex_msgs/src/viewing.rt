//! Graphs viewed as requests.

ghost use Rattle.std.specs.Prelude.{◌≡◌, List, ℕ, Some, IfOk, IfErr, IfSome};
ghost use Rattle.std.specs.List.{AllByRecursion};
ghost use Rattle.amf_wire.specs.Text.{IsText};
ghost use Rattle.amf_graph.specs.Arena.{Names, value_content};
ghost use Rattle.amf_graph.specs.Rooted.{content};
ghost use Rattle.amf_graph.specs.Views.{named};
ghost use Rattle.flex_msgs.specs.Asked.{Told, Viewed, told, request, asked, IsCommon, IsRequest};
ghost use Rattle.flex_msgs.specs.Lookup.{value_named};
ghost use Rattle.flex_msgs.specs.KeptPairs.{pairs_content, IsPairIn};
ghost use Rattle.flex_msgs.specs.Viewing.{text_or_null, text_alone, common_view, GoesOnWith, served_view, value_view, view, Refuses};
ghost use Rattle.flex_msgs.specs.Wrong.{IsWrong};

use crate::class::Served;
use crate::lookup::{members_of, pairs_of, value_named};
use crate::number::whole_number;
use crate::{Common, Member, NotAMessage, Request};
use amf_graph::{NodeView, Rooted, TextId, Value};
use amf_wire::{Memory, Name};
use std::alloc::Global;

/// The text that a value is; null is the empty one.
fn text_or_null(alloc: Global, graph: &Rooted, value: Value) -> Result<Option<Name>, Memory>
    requires { Names graph.now.arena value }
    ensures text { IfOk result (λ found. found ≡ text_or_null (value_content graph.now.arena value)) }
    ensures is_text { IfOk result (λ found. IfSome found (λ x. IsText x)) }
{
    graph.is_finished();
    Ok(match value {
        Value::Text(text) => Some(Name::of_bytes(alloc, graph.text(text))?),
        Value::Null => Some(Name::of_bytes(alloc, b"")?),
        _ => None,
    })
}

/// The text that a value is. It gives up where there is no memory.
pub fn text_alone(alloc: Global, graph: &Rooted, value: Value) -> Result<Option<Name>, Memory>
    requires { Names graph.now.arena value }
    ensures text { IfOk result (λ found. found ≡ text_alone (value_content graph.now.arena value)) }
    ensures is_text { IfOk result (λ found. IfSome found (λ x. IsText x)) }
{
    graph.is_finished();
    Ok(match value {
        Value::Text(text) => Some(Name::of_bytes(alloc, graph.text(text))?),
        _ => None,
    })
}

/// The member of this name, which is a text or null.
fn text_named(
    alloc: Global,
    graph: &Rooted,
    pairs: &[(TextId, Value)],
    name: &[u8],
    member: Member,
) -> Result<Name, NotAMessage>
    requires { AllByRecursion (IsPairIn graph.now.arena) (named pairs.now) }
    ensures ok { IfOk result (λ x. text_or_null (value_named name.now (pairs_content graph.now.arena (named pairs.now))) ≡ Some x) }
    ensures text { IfOk result (λ x. IsText x) }
    ensures err { IfErr result (λ e. IsWrong e member (text_or_null (value_named name.now (pairs_content graph.now.arena (named pairs.now))))) }
{
    match text_or_null(alloc, graph, value_named(graph, pairs, name))? {
        Some(text) => Ok(text),
        None => Err(NotAMessage::WrongKind(member)),
    }
}

/// What every message has.
fn members_told(
    alloc: Global,
    graph: &Rooted,
    pairs: &[(TextId, Value)],
) -> Result<Common, NotAMessage>
    requires { AllByRecursion (IsPairIn graph.now.arena) (named pairs.now) }
    ensures ok { IfOk result (λ c. GoesOnWith (content graph.now) (pairs_content graph.now.arena (named pairs.now)) (told graph.now.arena c)) }
    ensures names { IfOk result (λ c. IsCommon graph.now.arena c) }
    ensures err { IfErr result (λ e. (next : Told → Viewed) → Refuses (common_view (content graph.now) (pairs_content graph.now.arena (named pairs.now)) next) e) }
{
    let headers = value_named(graph, pairs, b"headers");
    let Some(found) = pairs_of(alloc, graph, headers)? else {
        return Err(NotAMessage::WrongKind(Member::Headers));
    };
    let ds_id = text_named(alloc, graph, &found, b"DSId", Member::DsId)?;
    let subtopic = text_named(alloc, graph, &found, b"DSSubtopic", Member::DsSubtopic)?;
    let destination = text_named(alloc, graph, pairs, b"destination", Member::Destination)?;
    let message = text_named(alloc, graph, pairs, b"messageId", Member::MessageId)?;
    let client = text_named(alloc, graph, pairs, b"clientId", Member::ClientId)?;
    let body = value_named(graph, pairs, b"body");
    Ok(Common {
        message,
        destination,
        client,
        ds_id,
        subtopic,
        body,
        headers,
    })
}

/// A message of a class that is served, by its members.
fn request_of(
    alloc: Global,
    graph: &Rooted,
    class: Served,
    pairs: &[(TextId, Value)],
) -> Result<Request, NotAMessage>
    requires { AllByRecursion (IsPairIn graph.now.arena) (named pairs.now) }
    ensures ok { IfOk result (λ r. served_view (content graph.now) (Some class) (pairs_content graph.now.arena (named pairs.now)) ≡ request (asked graph.now.arena r)) }
    ensures names { IfOk result (λ r. IsRequest graph.now.arena r) }
    ensures err { IfErr result (Refuses (served_view (content graph.now) (Some class) (pairs_content graph.now.arena (named pairs.now)))) }
{
    let common = members_told(alloc, graph, pairs)?;
    match class {
        Served::Remoting => {
            let operation = value_named(graph, pairs, b"operation");
            match text_alone(alloc, graph, operation)? {
                Some(operation) => Ok(Request::Remoting { common, operation }),
                None => Err(NotAMessage::WrongKind(Member::Operation)),
            }
        }
        Served::Command => match whole_number(value_named(graph, pairs, b"operation")) {
            Some(operation) => Ok(Request::Command { common, operation }),
            None => Err(NotAMessage::WrongKind(Member::Operation)),
        },
        Served::Async => {
            let correlation = text_named(
                alloc,
                graph,
                pairs,
                b"correlationId",
                Member::CorrelationId,
            )?;
            Ok(Request::Async {
                common,
                correlation,
            })
        }
    }
}

/// The request that a value of a graph is.
///
/// A member is looked up by its name among the sealed and then the dynamic ones: the last one counts, and an absent one is
/// null. `NotObject` comes exactly where the value is no object, `NotServed` exactly where its class is none of RemotingMessage,
/// CommandMessage and AsyncMessage, and `WrongKind` exactly for the first member, in the order of [`Member`], that is of
/// another kind than its class asks for. `Memory` comes where there is no room for its names.
pub fn view_value(alloc: Global, graph: &Rooted, value: Value) -> Result<Request, NotAMessage>
    requires { Names graph.now.arena value }
    ensures ok { IfOk result (λ r. value_view (content graph.now) (value_content graph.now.arena value) ≡ request (asked graph.now.arena r)) }
    ensures names { IfOk result (λ r. IsRequest graph.now.arena r) }
    ensures err { IfErr result (Refuses (value_view (content graph.now) (value_content graph.now.arena value))) }
{
    graph.is_finished();
    let Value::Node(node) = value else {
        return Err(NotAMessage::NotObject);
    };
    let NodeView::Object {
        traits,
        sealed,
        members,
    } = graph.node(node)
    else {
        return Err(NotAMessage::NotObject);
    };
    let Some(class) = Served::named(graph.text(graph.traits(traits).class)) else {
        return Err(NotAMessage::NotServed);
    };
    let pairs = members_of(alloc, graph, traits, sealed, members)?;
    request_of(alloc, graph, class, &pairs)
}

/// The request that a graph is. Its answers are those of [`view_value`] on the root.
pub fn view(alloc: Global, graph: &Rooted) -> Result<Request, NotAMessage>
    ensures ok { IfOk result (λ r. view (content graph.now) ≡ request (asked graph.now.arena r)) }
    ensures names { IfOk result (λ r. IsRequest graph.now.arena r) }
    ensures err { IfErr result (Refuses (view (content graph.now))) }
{
    graph.is_finished();
    view_value(alloc, graph, graph.root())
}
