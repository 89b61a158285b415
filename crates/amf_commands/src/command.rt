ghost use Rattle.std.specs.Prelude.{IfOk, IfSome, IfNone};
ghost use Rattle.amf_options.specs.Words.{texts};
ghost use Rattle.amf_commands.specs.declared.command.Task.{Task};
ghost use Rattle.amf_commands.specs.Commands.{Asks, AsksFor, HasReading};

use crate::command_name::CommandName;
use crate::format::Format;
use amf_json::Layout;
use amf_options::options_of;
use amf_wire::{Memory, Name};
use flv_meta::FlvJob;
use std::alloc::Global;
use std::str;

/// A command that writes an output, which is made of the input or of numbers.
#[derive(Clone, Copy, Debug, PartialEq, Eq)]
pub enum Command {
    /// `canon`: the canonical spelling of one value, in the same format or another, of one packet, or of one file.
    Canon { from: Format, to: Format },
    /// `check`: how many nodes the root of one value leads to, added over the values of a packet,
    /// or that of a file's pairs.
    Check { from: Format },
    /// `show`: the listing of one value, of one packet, or of one file.
    Show { from: Format },
    /// `json`: the JSON text of one value, of one packet, or of one file.
    Json { from: Format, layout: Layout },
    /// `same`: whether two values of AMF 3, one after the other, are the same graph.
    Same,
    /// `gen`: the nodes, the number of bytes and the sum of the bytes of the graph that is made of a seed, of 1 to 1,000,000 nodes.
    Gen { seed: u32, size: u32 },
    /// `version`: the name and the version of the program.
    Version,
}

/// Where `serve` serves links, by how many workers, and how many links each.
#[derive(Clone, Copy, Debug, PartialEq, Eq)]
pub struct ServeOptions {
    pub port: u16,
    /// From 1 to 64.
    pub workers: u32,
    /// From 1 to 1,000,000.
    pub each: u32,
}

/// Which operation `call` calls, of the gateway at which port of this machine.
#[derive(Debug, Drop)]
pub struct CallOptions {
    pub port: u16,
    /// A text of at most 65,535 bytes.
    pub target: Name,
}

/// Which destination `listen` listens to, of the gateway at which port of this machine, and how often it polls.
#[derive(Debug, Drop)]
pub struct ListenOptions {
    pub port: u16,
    /// A text of at most 65,535 bytes.
    pub destination: Name,
    /// From 1 to 1,000,000.
    pub polls: u32,
}

/// What the words of a command line ask for.
#[derive(Debug, Drop)]
pub enum Task {
    /// A command that writes an output.
    Output(Command),
    /// `bytes`: the canonical bytes of the value, the packet or the file that a JSON text means.
    Bytes,
    /// `serve`: links are served, and a line tells how many calls, messages and deliveries there were.
    Serve(ServeOptions),
    /// `flv`: a job on an FLV file.
    Flv(FlvJob),
    /// `rtmp`: a chunk stream is listed, where there is no size, or written in chunks of this one, from 1 to 2,147,483,647.
    Rtmp(Option<u32>),
    /// `call`: one call of a gateway, whose arguments are read and whose result is written.
    Call(CallOptions),
    /// `listen`: a gateway is polled, and what it delivers is written.
    Listen(ListenOptions),
}

impl Task {
    /// What the words ask for, if they have a reading: each has to be UTF-8. It gives up where there is no memory.
    pub fn of(alloc: Global, words: &[Name]) -> Result<Option<Task>, Memory>
        ensures reads { IfOk result (λ r. IfSome r (AsksFor words.now)) }
        ensures none { IfOk result (λ r. IfNone r (HasReading words.now → ⊥)) }
    {
        let mut seen = Vec::new(alloc);
        for word in words {
            match str::from_utf8(word.as_bytes()) {
                Ok(text) => seen.push(text)?,
                Err(_) => return Ok(None),
            }
        }
        asked(alloc, seen.as_slice())
    }
}

/// What the words ask for, if anything.
fn asked<'a>(alloc: Global, words: &'a [&'a str]) -> Result<Option<Task>, Memory>
    ensures reads { IfOk result (λ r. IfSome r (λ t. Asks (texts words.now) t)) }
    ensures none { IfOk result (λ r. IfNone r ((t : Task) → Asks (texts words.now) t → ⊥)) }
{
    let Some((name, rest)) = words.split_first() else {
        return Ok(None);
    };
    let Some(kind) = CommandName::of(name) else {
        return Ok(None);
    };
    match options_of(alloc, name, kind.options(), rest)? {
        Some(matches) => kind.task(alloc, &matches),
        None => Ok(None),
    }
}
