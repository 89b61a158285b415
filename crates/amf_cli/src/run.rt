ghost use Rattle.std.specs.Prelude.{◌≡◌, false};
ghost use Rattle.amf_answer_plan.specs.Services.{services_of};
ghost use Rattle.amf_cli.specs.CallsWords.{CallsWords};
ghost use Rattle.amf_cli.specs.Ends.{Ends};
ghost use Rattle.amf_cli.specs.ListensWords.{ListensWords};
ghost use Rattle.amf_cli.specs.ServesWords.{ServesWords};

use crate::calling::run_call;
use crate::data::{LinkTask, run_data};
use crate::ending::status_with;
use crate::listening::run_listen;
use crate::serving::serve_links;
pub use amf_commands::LIMIT;
use amf_io::{Dial, Front, Gate, Hall, Sink, Source};
use amf_service::Registry;
use amf_wire::Name;
use std::alloc::Global;
use std::hash::RandomState;
use std::random::RandomSource;
use std::sync::Wait;
use std::thread::Threads;

/// Does what the words say, and gives the status of the program.
///
/// `words` are those after the program's name. The first is the command, and the others are its options, each at most once, in
/// any order, as `--x v` or `--x=v`. The formats are `amf3`, `amf0`, `packet` and `sol`; without `--from` it is `amf3`, and
/// without `--to` the one of the input. A value goes to `amf3` and `amf0`, a packet to `packet` alone, and a shared object file
/// to `sol` alone.
///
/// With `canon` the input is one value, packet or file in the format that `--from` names, and the output is its canonical
/// spelling in the format that `--to` names. With `check` and `show` the input is so too; the output is the line `ok nodes N`,
/// where N is how many nodes the root of the value leads to, added over the values of a packet, or for a file that of its pairs,
/// and its listing. With `json` the input is so too, and the output is its JSON text (RFC 8259), in the kinds of nodes and values that
/// its format has, with a line for each item and member, or without spaces, as `--layout` says: `lines`, which it is without it, or
/// `compact`. With `bytes`, which has no options, the input is such a text, of at most 268,435,456 bytes, with any white space and
/// escapes and labels of any kind, and the output is the canonical spelling of the value, the packet or the file that it means, in
/// the format that it names. With `same`, which has no options either, the input is two AMF 3 values, one after the other, and the output is the
/// line `same` or `different`. With `gen` nothing is read: the output is the line `nodes N bytes B sum S` for the graph that is
/// made of the numbers of `--seed`, 0 to 4,294,967,295, and `--size`, 1 to 1,000,000, and its canonical spelling in AMF 3. A
/// number is 1 to 10 decimal digits. With `version`, which has no options, nothing is read either: the output is the line `amf V`,
/// where V is the version of the program.
///
/// With `serve` nothing is read either: the front is opened at the port of `--port`, 0 to 65,535, for so many workers as
/// `--workers` says, 1 to 64. Each worker serves up to as many links of its hall as `--each` says, 1 to 1,000,000, all at once,
/// and their calls go to one broker with the destinations `chat` and `news`. Then all halls go back to the front, and the output
/// is the line `calls A published B delivered C queued D`. A call of the desk is told to the gate before and after. `serve` may
/// wait for others, and no other command does but for its streams, and `call` and `listen` for their links.
///
/// With `flv` the input is an FLV file (Adobe, Video File Format Specification 10.1, annex E) of at most 4,294,967,295 bytes. What is
/// done with its metadata `--do` says: `show` lists the values, `drop` writes the file without them, and `set` first reads one AMF 0 value, and
/// writes the file with this as its only metadata. With `rtmp` the input is what one side of an RTMP connection sends (Adobe's RTMP
/// Chunk Stream, section 5), as long at most. With `--do show` its messages are listed, and with `--do rechunk` they are written again in chunks of
/// the size of `--size`, 1 to 2,147,483,647. Both write while they read.
///
/// With `call` the input is one AMF 3 value, an array without names, which holds the arguments. Then the gateway at the port of
/// `--port` of 127.0.0.1 is called once for the operation that `--target` names, a text of at most 65,535 bytes, and the output is the
/// result's canonical spelling in AMF 3. A fault is status 8, a bad reply 9, and a dial or a link that fails 10.
///
/// With `listen` nothing is read. The gateway at the port of `--port` of 127.0.0.1 is asked for a client, for a subscription to the
/// destination that `--destination` names, a text of at most 65,535 bytes, and then for what was delivered, as often as `--polls` says, 1 to
/// 1,000,000. The output is the canonical spelling in AMF 3 of each message's body, in order, each once: a poll whose link is lost is
/// sent again with its number. It gives up where three dials brought no answer to one. The statuses 8, 9 and 10 are those of `call`.
///
/// No link of the dial is out, and none is afterwards.
///
/// The runtime gives the keys by which readers and writers look texts up, so that no input can be made that takes long; where it gives
/// none, they are fixed.
pub fn run<
    R: RandomSource + Threads + Wait + Sync,
    I: Source,
    O: Sink,
    E: Sink,
    F: Front,
    G: Gate,
    D: Dial,
>(
    rt: &R,
    alloc: Global,
    words: &[Name],
    input: &mut I,
    out: &mut O,
    err: &mut E,
    front: &mut F,
    gate: &G,
    registry: &Registry,
    dial: &mut D,
) -> u8
where
    <F::Hall as Hall>::Link: Send,
    requires none_out { D.is_out dial.old ≡ false }
    ensures none_out { D.is_out dial.new ≡ false }
    ensures ends { Ends I.Source O.Sink E.Sink words.now result input.old input.new out.old out.new err.old err.new }
    ensures serves { ServesWords F.Front F.Hall.Hall F.Hall.Link.Link O.Sink (services_of registry.now knows gives)
        words.now result front.old front.new out.old out.new }
    ensures calls { CallsWords I.Source O.Sink E.Sink D.Dial D.Link.Link words.now result
        input.old input.new out.old out.new err.old err.new dial.old dial.new }
    ensures listens { ListensWords O.Sink E.Sink D.Dial D.Link.Link words.now result out.old out.new err.old err.new dial.old dial.new }
{
    registry.are_lawful();
    let keys = RandomState::new(rt).ok();
    match run_data(alloc, keys, words, input, out, err) {
        Ok(status) => status,
        Err(LinkTask::Serve(options)) => {
            let end = serve_links(rt, alloc, options, out, front, gate, registry);
            status_with(end, err)
        }
        Err(LinkTask::Call(options)) => run_call(alloc, keys, &options, input, out, err, dial),
        Err(LinkTask::Listen(options)) => run_listen(alloc, keys, &options, out, err, dial),
    }
}
