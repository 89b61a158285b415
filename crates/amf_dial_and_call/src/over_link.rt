ghost use Rattle.std.specs.Prelude.{◌≡◌, []};
ghost use Rattle.amf_dial_and_call.specs.Called.{IsNumbered, HasNames};
ghost use Rattle.amf_dial_and_call.specs.Exchanged.{Exchanged};
ghost use Rattle.amf_dial_and_call.specs.Steps.{answer_of};

use crate::CallAnswer;
use amf_client::{AnswerFault, ReplyBuffer, read_result_keyed};
use amf_graph::Rooted;
use amf_io::Link;
use http_link::send;
use std::alloc::Global;
use std::hash::RandomState;

/// The answer to a call that was read so.
fn answer_of(read: Result<Rooted, AnswerFault>) -> CallAnswer
    ensures { result ≡ answer_of read }
{
    match read {
        Ok(graph) => CallAnswer::Graph(graph),
        Err(AnswerFault::Fault { code, text }) => CallAnswer::Fault { code, text },
        Err(AnswerFault::BadReply(number)) => CallAnswer::BadReply(number),
        Err(AnswerFault::ReadFault) => CallAnswer::LinkFault,
        Err(AnswerFault::Memory) => CallAnswer::Memory,
    }
}

/// Writes the bytes of a call to a link, and reads what answers it.
pub(crate) fn exchange<L: Link>(
    alloc: Global,
    keys: Option<RandomState>,
    link: &mut L,
    buffer: &mut ReplyBuffer,
    call: &[u8],
) -> CallAnswer
    requires { buffer.old ≡ [] }
    ensures exchanged { Exchanged L.Link link.old link.new call.now result }
    ensures numbered { IsNumbered result }
    ensures named { HasNames result }
{
    let Ok(()) = send(link, call) else {
        return CallAnswer::LinkFault;
    };
    answer_of(read_result_keyed(alloc, keys, link, buffer))
}
