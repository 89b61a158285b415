ghost use Rattle.std.specs.Prelude.{◌≡◌, ◌<◌, ◌⊎◌, ◌^◌, length, false};
ghost use Rattle.amf_graph.specs.Rooted.{content};
ghost use Rattle.amf_wire.specs.Text.{IsText};
ghost use Rattle.amf_client.specs.Asking.{are_arguments};
ghost use Rattle.amf_dial_and_call.specs.Called.{Dialled, Calls, Counts, IsNumbered, HasNames};

use crate::CallAnswer;
use crate::over_link::exchange;
use crate::request::request;
use amf_client::{AskEnd, ReplyBuffer};
use amf_graph::Rooted;
use amf_io::{Dial, OpenEnd};
use amf_wire::Name;
use std::alloc::Global;
use std::hash::RandomState;

/// Dials the port, makes the call of these bytes over the link, and gives the link back.
fn dialled<D: Dial>(
    alloc: Global,
    keys: Option<RandomState>,
    dial: &mut D,
    port: u16,
    call: &[u8],
) -> CallAnswer
    requires none_out { D.is_out dial.old ≡ false }
    ensures dialled { Dialled D.Dial D.Link.Link port dial.old dial.new call.now result }
    ensures none_out { D.is_out dial.new ≡ false }
    ensures cause { Counts (D.faults dial.old) (D.faults dial.new) result }
    ensures numbered { IsNumbered result }
    ensures named { HasNames result }
{
    let Ok(mut buffer) = ReplyBuffer::new(alloc) else {
        return CallAnswer::Memory;
    };
    let mut link = match dial.dial(port) {
        Ok(link) => link,
        Err(OpenEnd::Failed) => return CallAnswer::LinkFault,
        Err(OpenEnd::Memory) => return CallAnswer::Memory,
    };
    let answer = exchange(alloc, keys, &mut link, &mut buffer, call);
    dial.back(link);
    answer
}

/// Calls the operation that the target names of the gateway at this port of 127.0.0.1, with these arguments: dials it, writes the
/// call, reads the answer, and gives the link back. The target is a text of at most 65,535 bytes. No link
/// of the dial is out: each that it gave has been taken back.
///
/// The call is made before anything is dialled: `NotArgs` and `NoSpelling` tell what the arguments lack. `Graph`, `Fault` and `BadReply` are what
/// the bytes that the peer sends come to (`amf_client::read_result` has the numbers of a bad reply); no call of the dial or the link
/// failed. `LinkFault` comes only where one did, and the dial has counted it: the dial itself, or a write, a flush or a read of the
/// link before the bytes that came fixed an answer. With `Memory` the link is given back too.
///
/// Texts are looked up by fixed keys, so whoever knows them can send an answer that takes long: `call_keyed` is passed others.
pub fn call<D: Dial>(
    alloc: Global,
    dial: &mut D,
    port: u16,
    target: &Name,
    args: &Rooted,
) -> CallAnswer
    requires text { IsText target.now }
    requires short { length target.now < 2 ^ 16 }
    requires none_out { D.is_out dial.old ≡ false }
    ensures calls { Calls D.Dial D.Link.Link port dial.old dial.new target.now (content args.now) result }
    ensures arguments { are_arguments (content args.now) ≡ false → (result ≡ CallAnswer.NotArgs) ⊎ (result ≡ CallAnswer.Memory) }
    ensures none_out { D.is_out dial.new ≡ false }
    ensures cause { Counts (D.faults dial.old) (D.faults dial.new) result }
    ensures numbered { IsNumbered result }
    ensures named { HasNames result }
{
    call_keyed(alloc, None, dial, port, target, args)
}

/// Does what `call` does, with texts that are looked up by these keys, or by fixed ones where there are none. What it comes to is
/// the same for all keys.
pub fn call_keyed<D: Dial>(
    alloc: Global,
    keys: Option<RandomState>,
    dial: &mut D,
    port: u16,
    target: &Name,
    args: &Rooted,
) -> CallAnswer
    requires text { IsText target.now }
    requires short { length target.now < 2 ^ 16 }
    requires none_out { D.is_out dial.old ≡ false }
    ensures calls { Calls D.Dial D.Link.Link port dial.old dial.new target.now (content args.now) result }
    ensures arguments { are_arguments (content args.now) ≡ false → (result ≡ CallAnswer.NotArgs) ⊎ (result ≡ CallAnswer.Memory) }
    ensures none_out { D.is_out dial.new ≡ false }
    ensures cause { Counts (D.faults dial.old) (D.faults dial.new) result }
    ensures numbered { IsNumbered result }
    ensures named { HasNames result }
{
    match request(alloc, keys, port, target, args) {
        Ok(link) => dialled(alloc, keys, dial, port, link.sink.as_bytes()),
        Err(AskEnd::NotArgs) => CallAnswer::NotArgs,
        Err(AskEnd::NoSpelling(lack)) => CallAnswer::NoSpelling(lack),
        Err(_) => CallAnswer::Memory,
    }
}
