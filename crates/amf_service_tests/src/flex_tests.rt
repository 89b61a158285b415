ghost use Rattle.std.specs.Prelude.{◌≡◌, IfOk};
ghost use Rattle.amf_wire.specs.Text.{IsText};
ghost use Rattle.amf_graph.specs.Arena.{Names};
ghost use Rattle.amf_graph.specs.declared.value.Value.TheVariants.{Null};
ghost use Rattle.flex_msgs.specs.Built.{IsReply, IsStored};

use crate::checks::{holds, is};
use amf_fixtures::graph3;
use amf_graph::{Builder, Rooted, Value};
use amf_test_rows::{Row, Table};
use amf_wire::Name;
use flex_msgs::{
    Common, FaultText, Member, NotAMessage, Reply, Request, acknowledge, delivered, error,
    invalidate, is_stored, published, sync, view,
};
use std::alloc::{AllocError, Global};
use std::fmt::Display;
use std::process::Abort;
use std::str;

/// Messages in AMF 3, and what they say, or why they are none.
static MESSAGES: Table = Table {
    rows: 13,
    fields: 2,
    text: r"
# A member that is undefined.
0A 0B 49 'flex.messaging.messages.AsyncMessage' 0F 'headers' 00 01 | headers is of another kind
0A 0B 49 'flex.messaging.messages.AsyncMessage' 17 'destination' 00 01 | destination is of another kind
0A 0B 49 'flex.messaging.messages.AsyncMessage' 13 'messageId' 00 01 | messageId is of another kind
0A 0B 49 'flex.messaging.messages.AsyncMessage' 11 'clientId' 00 01 | clientId is of another kind
0A 0B 49 'flex.messaging.messages.AsyncMessage' 1B 'correlationId' 00 01 | correlationId is of another kind
0A 0B 49 'flex.messaging.messages.AsyncMessage' 13 'operation' 00 01 | async of ()
0A 0B 4D 'flex.messaging.messages.CommandMessage' 13 'operation' 00 01 | operation is of another kind
0A 0B 4F 'flex.messaging.messages.RemotingMessage' 13 'operation' 00 01 | operation is of another kind
# A header that is undefined.
0A 0B 49 'flex.messaging.messages.AsyncMessage' 0F 'headers' 09 01 09 'DSId' 00 01 01 | DSId is of another kind
0A 0B 49 'flex.messaging.messages.AsyncMessage' 0F 'headers' 09 01 15 'DSSubtopic' 00 01 01 | DSSubtopic is of another kind
0A 0B 49 'flex.messaging.messages.AsyncMessage' 0F 'headers' 09 01 0B 'other' 00 01 01 | async of ()
# The operation is 5 among the sealed members and 2 among the others.
0A 1B 4D 'flex.messaging.messages.CommandMessage' 13 'operation' 04 05 13 'operation' 04 02 01 | command 2 of () to () by () as ()
# An array.
09 01 01 | no object
",
};

/// An object of nine sealed members, with the class and the names of a CommandMessage.
const COMMAND: &[u8] = b"\x0A\x81\x13\x4Dflex.messaging.messages.CommandMessage\
    \x09body\x11clientId\x17destination\x0Fheaders\x13messageId\
    \x15timeToLive\x13timestamp\x1BcorrelationId\x13operation";

/// The members of such an object, and what it says.
static COMMANDS: Table = Table {
    rows: 3,
    fields: 2,
    text: r"
01 01 06 01 0A 0B 01 09 'DSId' 06 07 'nil' 01 06 05 'm1' 04 00 05 0000000000000000 06 03 'c' 04 05 | command 5 of () to () by (nil) as (m1)
01 01 06 09 'chat' 0A 0B 01 09 'DSId' 06 03 '1' 01 06 05 'm2' 04 00 05 0000000000000000 06 03 'c' 04 00 | command 0 of () to (chat) by (1) as (m2)
01 01 06 01 0A 0B 01 09 'DSId' 06 03 '1' 01 06 05 'm4' 04 00 05 0000000000000000 06 03 'c' 04 02 | command 2 of () to () by (1) as (m4)
",
};

/// Messages that are made for a client, and what they say where they are viewed. A batch has a stored message.
static MADE: Table = Table {
    rows: 6,
    fields: 2,
    text: r"
sync | command 4 of (7) to (chat) by (1) as (m)
invalidate | command 10 of (7) to (chat) by (1) as (m)
acknowledge | a class that is not served
error | a class that is not served
delivered | async of (9)
batch | command 4 of (7) to (chat) by (1) as (m)
",
};

/// The characters of a name.
fn characters(name: &Name) -> &str {
    str::from_utf8(name.as_bytes()).unwrap_or("?")
}

fn command_said(alloc: Global, operation: i64, common: &Common) -> Result<String, AllocError> {
    let client = characters(&common.client);
    let destination = characters(&common.destination);
    let ds_id = characters(&common.ds_id);
    let message = characters(&common.message);
    format!(in alloc;
        "command {operation} of ({client}) to ({destination}) by ({ds_id}) as ({message})"
    )
}

fn async_said(alloc: Global, common: &Common) -> Result<String, AllocError> {
    let client = characters(&common.client);
    format!(in alloc; "async of ({client})")
}

fn request_said(alloc: Global, request: &Request) -> Result<String, AllocError> {
    match request {
        Request::Command { common, operation } => command_said(alloc, *operation, common),
        Request::Async { common, .. } => async_said(alloc, common),
        Request::Remoting { .. } => String::from_str(alloc, "a call"),
    }
}

/// What a graph says as a message, or why it is none.
fn said(alloc: Global, graph: &Rooted) -> Result<String, AllocError> {
    match view(alloc, graph) {
        Ok(request) => request_said(alloc, &request),
        Err(end) => format!(in alloc; "{end}"),
    }
}

/// Ends the test where a graph says something else.
fn says(rt: &impl Abort, alloc: Global, graph: &Rooted, want: &str) {
    let got = said(alloc, graph).expect(rt, "memory");
    is(rt, &got, want);
}

/// These bytes, and then those of a row.
fn bytes_in(rt: &impl Abort, alloc: Global, front: &[u8], row: Row<'_>) -> Vec<u8> {
    let mut bytes = front.to_vec(alloc).expect(rt, "memory");
    let rest = row.bytes(alloc, 0).expect(rt, "bytes");
    bytes.extend_from_slice(&rest).expect(rt, "memory");
    bytes
}

fn is_viewed(rt: &impl Abort, alloc: Global, front: &[u8], row: Row<'_>) {
    let bytes = bytes_in(rt, alloc, front, row);
    let graph = graph3(alloc, &bytes).expect(rt, "a graph");
    says(rt, alloc, &graph, row.field(1).expect(rt, "what it says"));
}

fn are_viewed(rt: &impl Abort, alloc: Global, front: &[u8], table: &Table) {
    for row in table.rows(alloc).expect(rt, "rows").iter() {
        is_viewed(rt, alloc, front, *row);
    }
}

#[test]
fn views_messages(rt: HostRuntime) {
    are_viewed(&rt, rt.alloc(), b"", &MESSAGES);
    are_viewed(&rt, rt.alloc(), COMMAND, &COMMANDS);
}

/// The name of these characters.
fn name(rt: &impl Abort, alloc: Global, text: &str) -> Name
    ensures { IsText result }
{
    Name::from_bytes(alloc, text.as_bytes()).expect(rt, "a name")
}

/// What an answer is told.
fn told(rt: &impl Abort, alloc: Global) -> Reply
    ensures texts { IsReply result }
    ensures body { result.body ≡ Null }
{
    Reply {
        body: Value::Null,
        client: name(rt, alloc, "7"),
        destination: name(rt, alloc, "chat"),
        ds_id: name(rt, alloc, "1"),
        message: name(rt, alloc, "m"),
        moment: 0,
        correlation: name(rt, alloc, "c"),
    }
}

fn add_error(rt: &impl Abort, alloc: Global, builder: &mut Builder, reply: &Reply) -> Value
    requires { IsReply reply.now }
    ensures { Names builder.new result }
{
    let fault = FaultText {
        code: name(rt, alloc, "Client.NoClient"),
        text: name(rt, alloc, "no such client"),
    };
    error(alloc, builder, reply, &fault).expect(rt, "an error")
}

/// Adds the answer of this kind, which is a sync without messages where it is no other.
fn add_answer(
    rt: &impl Abort,
    alloc: Global,
    builder: &mut Builder,
    reply: &Reply,
    kind: &str,
) -> Value
    requires reply { IsReply reply.now }
    requires body { reply.now.body ≡ Null }
    ensures { Names builder.new result }
{
    match kind {
        "invalidate" => invalidate(alloc, builder, reply).expect(rt, "an answer"),
        "acknowledge" => acknowledge(alloc, builder, reply).expect(rt, "an answer"),
        "error" => add_error(rt, alloc, builder, reply),
        _ => sync(alloc, builder, reply, Vec::new(alloc)).expect(rt, "an answer"),
    }
}

/// The graph with this root.
fn finished(rt: &impl Abort, builder: Builder, root: Value) -> Rooted
    requires { Names builder root }
{
    match builder.finish(root) {
        Ok(graph) => graph,
        Err(_) => panic!(rt; "an open node"),
    }
}

/// The answer of this kind.
fn answered(rt: &impl Abort, alloc: Global, kind: &str) -> Rooted {
    let reply = told(rt, alloc);
    let mut builder = Builder::new(alloc).expect(rt, "a builder");
    let root = add_answer(rt, alloc, &mut builder, &reply, kind);
    finished(rt, builder, root)
}

/// An AsyncMessage with headers that are an array.
const PLAIN: &[u8] =
    b"\x0A\x0B\x49flex.messaging.messages.AsyncMessage\x0Fheaders\x09\x01\x0Bother\x00\x01\x01";

/// Adds the message that is stored of an AsyncMessage.
fn add_stored(rt: &impl Abort, alloc: Global, builder: &mut Builder, graph: &Rooted) -> Value
    ensures { Names builder.new result }
{
    match view(alloc, graph) {
        Ok(
            Request::Async {
                common,
                correlation,
            },
        ) => { published(alloc, builder, &common, graph, &correlation, 0).expect(rt, "a message") }
        _ => panic!(rt; "no message"),
    }
}

/// The stored message of an AsyncMessage, which is none itself.
fn stored(rt: &impl Abort, alloc: Global) -> Rooted {
    let graph = graph3(alloc, PLAIN).expect(rt, "a graph");
    holds(rt, !is_stored(&graph), "no stored message");
    let mut builder = Builder::new(alloc).expect(rt, "a builder");
    let root = add_stored(rt, alloc, &mut builder, &graph);
    finished(rt, builder, root)
}

/// Adds a stored message, as it is delivered.
fn add_delivered(rt: &impl Abort, alloc: Global, builder: &mut Builder, stored: &Rooted) -> Value
    requires { IsStored stored.now }
    ensures { Names builder.new result }
{
    let client = name(rt, alloc, "9");
    delivered(alloc, builder, stored, &client).expect(rt, "a message")
}

/// Adds a sync whose batch is this stored message.
fn add_batch(rt: &impl Abort, alloc: Global, builder: &mut Builder, stored: &Rooted) -> Value
    requires { IsStored stored.now }
    ensures { Names builder.new result }
{
    let reply = told(rt, alloc);
    let message = delivered(alloc, builder, stored, &reply.client).expect(rt, "a message");
    let batch = [message].to_vec(alloc).expect(rt, "memory");
    sync(alloc, builder, &reply, batch).expect(rt, "a batch")
}

/// Adds what is made of a stored message: it is delivered, by itself or in a batch.
fn add_of_stored(
    rt: &impl Abort,
    alloc: Global,
    builder: &mut Builder,
    stored: &Rooted,
    kind: &str,
) -> Value
    ensures { Names builder.new result }
{
    assert!(rt; is_stored(stored), "a stored message");
    match kind {
        "batch" => add_batch(rt, alloc, builder, stored),
        _ => add_delivered(rt, alloc, builder, stored),
    }
}

fn of_stored(rt: &impl Abort, alloc: Global, kind: &str) -> Rooted {
    let stored = stored(rt, alloc);
    let mut builder = Builder::new(alloc).expect(rt, "a builder");
    let root = add_of_stored(rt, alloc, &mut builder, &stored, kind);
    finished(rt, builder, root)
}

/// The message of this kind.
fn made(rt: &impl Abort, alloc: Global, kind: &str) -> Rooted {
    match kind {
        "batch" | "delivered" => of_stored(rt, alloc, kind),
        _ => answered(rt, alloc, kind),
    }
}

fn is_made(rt: &impl Abort, alloc: Global, row: Row<'_>) {
    let graph = made(rt, alloc, row.field(0).expect(rt, "a kind"));
    says(rt, alloc, &graph, row.field(1).expect(rt, "what it says"));
}

#[test]
fn makes_messages(rt: HostRuntime) {
    for row in MADE.rows(rt.alloc()).expect(&rt, "rows").iter() {
        is_made(&rt, rt.alloc(), *row);
    }
}

/// Looks at how an end or a member is told.
fn is_told(rt: &impl Abort, alloc: Global, it: &impl Display, words: &str) {
    let said = format!(in alloc; "{it}").expect(rt, "memory");
    is(rt, &said, words);
}

static ENDS: [(NotAMessage, &str); 4] = [
    (NotAMessage::NotObject, "no object"),
    (NotAMessage::NotServed, "a class that is not served"),
    (
        NotAMessage::WrongKind(Member::DsId),
        "DSId is of another kind",
    ),
    (NotAMessage::Memory, "no memory"),
];

static NAMES: [(Member, &str); 8] = [
    (Member::Headers, "headers"),
    (Member::DsId, "DSId"),
    (Member::DsSubtopic, "DSSubtopic"),
    (Member::Destination, "destination"),
    (Member::MessageId, "messageId"),
    (Member::ClientId, "clientId"),
    (Member::CorrelationId, "correlationId"),
    (Member::Operation, "operation"),
];

#[test]
fn says_why(rt: HostRuntime) {
    for (end, words) in ENDS.iter() {
        is_told(&rt, rt.alloc(), end, words);
    }
    for (member, words) in NAMES.iter() {
        is_told(&rt, rt.alloc(), member, words);
    }
}
