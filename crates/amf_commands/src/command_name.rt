ghost use Rattle.std.specs.Prelude.{◌≡◌, ◌≤◌, IfOk, IfSome, IfNone, codes, option_map, option_and_then};
ghost use Rattle.clap.specs.Matches.{first_value, found_of};
ghost use Rattle.amf_options.specs.Words.{texts};
ghost use Rattle.amf_commands.specs.Commands.{canon_from, flv_job_named, format_or, name_of, number_at, options_for, task_for};
ghost use Rattle.amf_commands.specs.Commands.{call_by, gen_by, json_by, layout_named, layout_or, listen_by, rtmp_of, serve_by};
ghost use Rattle.amf_commands.specs.declared.command.Task.TheVariants as task;
ghost use Rattle.amf_commands.specs.declared.format.Format.TheVariants.{Amf3};

use crate::command::{CallOptions, Command, ListenOptions, ServeOptions, Task};
use crate::format::Format;
use crate::number::number_in;
use amf_json::Layout;
use amf_wire::{Memory, Name};
use clap::ArgMatches;
use flv_meta::FlvJob;
use std::alloc::Global;

/// The name of a command.
#[derive(Clone, Copy, Debug, PartialEq, Eq)]
pub enum CommandName {
    /// `canon`.
    Canon,
    /// `check`.
    Check,
    /// `show`.
    Show,
    /// `json`.
    Json,
    /// `bytes`.
    Bytes,
    /// `same`.
    Same,
    /// `gen`.
    Gen,
    /// `serve`.
    Serve,
    /// `flv`.
    Flv,
    /// `rtmp`.
    Rtmp,
    /// `call`.
    Call,
    /// `listen`.
    Listen,
    /// `version`.
    Version,
}

static CANON: [&str; 2] = ["from", "to"];

static FROM: [&str; 1] = ["from"];

static JSON: [&str; 2] = ["from", "layout"];

static NONE: [&str; 0] = [];

static GEN: [&str; 2] = ["seed", "size"];

static SERVE: [&str; 3] = ["port", "workers", "each"];

static FLV: [&str; 1] = ["do"];

static RTMP: [&str; 2] = ["do", "size"];

static CALL: [&str; 2] = ["port", "target"];

static LISTEN: [&str; 3] = ["port", "destination", "polls"];

impl CommandName {
    /// The command of this name.
    pub fn of(name: &str) -> Option<CommandName>
        ensures some { IfSome result (λ kind. name.now ≡ name_of kind) }
        ensures none { IfNone result ((kind : CommandName) → name.now ≡ name_of kind → ⊥) }
    {
        match name {
            "canon" => Some(CommandName::Canon),
            "check" => Some(CommandName::Check),
            "show" => Some(CommandName::Show),
            "json" => Some(CommandName::Json),
            "bytes" => Some(CommandName::Bytes),
            "same" => Some(CommandName::Same),
            "gen" => Some(CommandName::Gen),
            "serve" => Some(CommandName::Serve),
            "flv" => Some(CommandName::Flv),
            "rtmp" => Some(CommandName::Rtmp),
            "call" => Some(CommandName::Call),
            "listen" => Some(CommandName::Listen),
            "version" => Some(CommandName::Version),
            _ => None,
        }
    }

    /// The names of its options.
    pub fn options(self) -> &'static [&'static str]
        ensures { texts result.now ≡ options_for self }
    {
        match self {
            CommandName::Canon => CANON.as_slice(),
            CommandName::Check | CommandName::Show => FROM.as_slice(),
            CommandName::Json => JSON.as_slice(),
            CommandName::Bytes | CommandName::Same | CommandName::Version => NONE.as_slice(),
            CommandName::Gen => GEN.as_slice(),
            CommandName::Serve => SERVE.as_slice(),
            CommandName::Flv => FLV.as_slice(),
            CommandName::Rtmp => RTMP.as_slice(),
            CommandName::Call => CALL.as_slice(),
            CommandName::Listen => LISTEN.as_slice(),
        }
    }

    /// What it asks for, by the values of its options. It gives up where there is no memory for a target or a destination.
    pub fn task(self, alloc: Global, matches: &ArgMatches<'_>) -> Result<Option<Task>, Memory>
        ensures { IfOk result (λ task. task ≡ task_for self (first_value (found_of matches.now))) }
    {
        let task = match self {
            CommandName::Canon => output(canon(matches)),
            CommandName::Check => match from(matches) {
                Some(from) => Some(Task::Output(Command::Check { from })),
                None => None,
            },
            CommandName::Show => match from(matches) {
                Some(from) => Some(Task::Output(Command::Show { from })),
                None => None,
            },
            CommandName::Json => output(json(matches)),
            CommandName::Bytes => Some(Task::Bytes),
            CommandName::Same => Some(Task::Output(Command::Same)),
            CommandName::Gen => output(generate(matches)),
            CommandName::Serve => match serve(matches) {
                Some(options) => Some(Task::Serve(options)),
                None => None,
            },
            CommandName::Flv => match flv(matches) {
                Some(job) => Some(Task::Flv(job)),
                None => None,
            },
            CommandName::Rtmp => match rtmp(matches) {
                Some(size) => Some(Task::Rtmp(size)),
                None => None,
            },
            CommandName::Call => match call(alloc, matches)? {
                Some(options) => Some(Task::Call(options)),
                None => None,
            },
            CommandName::Listen => match listen(alloc, matches)? {
                Some(options) => Some(Task::Listen(options)),
                None => None,
            },
            CommandName::Version => Some(Task::Output(Command::Version)),
        };
        Ok(task)
    }
}

fn output(command: Option<Command>) -> Option<Task>
    ensures { result ≡ option_map task.Output command }
{
    match command {
        Some(command) => Some(Task::Output(command)),
        None => None,
    }
}

/// The format that `--from` names, and AMF 3 without it.
fn from(matches: &ArgMatches<'_>) -> Option<Format>
    ensures { result ≡ format_or Amf3 (first_value (found_of matches.now) (codes "from")) }
{
    match matches.get_str("from") {
        Some(name) => Format::of(name),
        None => Some(Format::Amf3),
    }
}

fn canon(matches: &ArgMatches<'_>) -> Option<Command>
    ensures { result ≡ canon_from (format_or Amf3 (first_value (found_of matches.now) (codes "from"))) (first_value (found_of matches.now) (codes "to")) }
{
    let from = from(matches)?;
    let to = match matches.get_str("to") {
        Some(name) => Format::of(name)?,
        None => from,
    };
    if from.goes_to(to) {
        Some(Command::Canon { from, to })
    } else {
        None
    }
}

fn json(matches: &ArgMatches<'_>) -> Option<Command>
    ensures { result ≡ json_by (first_value (found_of matches.now)) }
{
    let from = from(matches)?;
    let layout = layout(matches)?;
    Some(Command::Json { from, layout })
}

/// The layout that `--layout` names, and by lines without it.
fn layout(matches: &ArgMatches<'_>) -> Option<Layout>
    ensures { result ≡ layout_or (first_value (found_of matches.now) (codes "layout")) }
{
    match matches.get_str("layout") {
        Some(name) => layout_of(name),
        None => Some(Layout::Lines),
    }
}

/// The layout of this name.
fn layout_of(name: &str) -> Option<Layout>
    ensures { result ≡ layout_named name.now }
{
    match name {
        "lines" => Some(Layout::Lines),
        "compact" => Some(Layout::Compact),
        _ => None,
    }
}

fn generate(matches: &ArgMatches<'_>) -> Option<Command>
    ensures { result ≡ gen_by (first_value (found_of matches.now)) }
{
    let seed = number(matches, "seed", 0, u32::MAX)?;
    let size = number(matches, "size", 1, 1_000_000)?;
    Some(Command::Gen { seed, size })
}

fn serve(matches: &ArgMatches<'_>) -> Option<ServeOptions>
    ensures { result ≡ serve_by (first_value (found_of matches.now)) }
{
    let port = port(matches)?;
    let workers = number(matches, "workers", 1, 64)?;
    let each = number(matches, "each", 1, 1_000_000)?;
    Some(ServeOptions {
        port,
        workers,
        each,
    })
}

/// The job on an FLV file that `--do` names.
fn flv(matches: &ArgMatches<'_>) -> Option<FlvJob>
    ensures { result ≡ option_and_then flv_job_named (first_value (found_of matches.now) (codes "do")) }
{
    match matches.get_str("do") {
        Some(name) => flv_job(name),
        None => None,
    }
}

/// The job on an FLV file of this name.
fn flv_job(name: &str) -> Option<FlvJob>
    ensures { result ≡ flv_job_named name.now }
{
    match name {
        "show" => Some(FlvJob::Show),
        "drop" => Some(FlvJob::Drop),
        "set" => Some(FlvJob::Set),
        _ => None,
    }
}

/// What is to be done with a chunk stream: it is listed, where there is no size, or written in chunks of this one.
fn rtmp(matches: &ArgMatches<'_>) -> Option<Option<u32>>
    ensures { result ≡ rtmp_of (first_value (found_of matches.now) (codes "do")) (first_value (found_of matches.now) (codes "size")) }
{
    match matches.get_str("do")? {
        "show" => match matches.get_str("size") {
            Some(_) => None,
            None => Some(None),
        },
        "rechunk" => match number(matches, "size", 1, 2_147_483_647) {
            Some(size) => Some(Some(size)),
            None => None,
        },
        _ => None,
    }
}

/// Which operation `--target` names, of the gateway at the port of `--port`. It gives up where there is no memory.
fn call(alloc: Global, matches: &ArgMatches<'_>) -> Result<Option<CallOptions>, Memory>
    ensures { IfOk result (λ options. options ≡ call_by (first_value (found_of matches.now))) }
{
    let Some(port) = port(matches) else {
        return Ok(None);
    };
    match matches.get_str("target") {
        Some(text) if text.len() <= 65_535 => {
            let target = Name::of_bytes(alloc, text.as_bytes())?;
            Ok(Some(CallOptions { port, target }))
        }
        _ => Ok(None),
    }
}

/// Which destination `--destination` names, of the gateway at the port of `--port`, and how often it is polled. It gives up where
/// there is no memory.
fn listen(alloc: Global, matches: &ArgMatches<'_>) -> Result<Option<ListenOptions>, Memory>
    ensures { IfOk result (λ options. options ≡ listen_by (first_value (found_of matches.now))) }
{
    let Some(port) = port(matches) else {
        return Ok(None);
    };
    let Some(polls) = number(matches, "polls", 1, 1_000_000) else {
        return Ok(None);
    };
    match matches.get_str("destination") {
        Some(text) if text.len() <= 65_535 => {
            let destination = Name::of_bytes(alloc, text.as_bytes())?;
            Ok(Some(ListenOptions {
                port,
                destination,
                polls,
            }))
        }
        _ => Ok(None),
    }
}

/// The number that `--port` has, if it is one of a port.
fn port(matches: &ArgMatches<'_>) -> Option<u16>
    ensures { result ≡ number_at 0 65535 (first_value (found_of matches.now) (codes "port")) }
{
    match number(matches, "port", 0, 65_535) {
        Some(port) => Some(port as u16),
        None => None,
    }
}

/// The number that an option has, if it is one from `least` to `most`.
fn number(matches: &ArgMatches<'_>, option: &str, least: u32, most: u32) -> Option<u32>
    ensures named { result ≡ number_at least most (first_value (found_of matches.now) option.now) }
    ensures within { IfSome result (λ n. n ≤ most) }
{
    match matches.get_str(option) {
        Some(text) => number_in(text, least, most),
        None => None,
    }
}
