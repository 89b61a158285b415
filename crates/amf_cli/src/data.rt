ghost use Rattle.std.specs.Prelude.{◌≡◌, ◌≢◌, ◌⊎◌, ℕ, ◌+◌, ◌≤◌, length, IfOk, OnErr};
ghost use Rattle.amf_graph.specs.declared.lack.Lack.{Lack};
ghost use Rattle.amf_commands.specs.declared.command.CallOptions.{CallOptions};
ghost use Rattle.amf_commands.specs.declared.command.ListenOptions.{ListenOptions};
ghost use Rattle.amf_commands.specs.declared.command.ServeOptions.{ServeOptions};
ghost use Rattle.amf_commands.specs.Askable.{IsAskable};
ghost use Rattle.amf_commands.specs.Commands.{AsksFor, HasReading, ReadsCall, ReadsListen, ReadsServe, IsDialling, IsServing};
ghost use Rattle.amf_commands.specs.Input.{most};
ghost use Rattle.amf_commands.specs.Run.{TakesInput, MayLack, CountsReads, CountsWrites, IsReading, IsUntouched, RunsOver};
ghost use Rattle.amf_commands.specs.declared.run_end.RunEnd.{RunEnd};
ghost use Rattle.amf_commands.specs.declared.run_end.RunEnd.TheVariants.{Usage, NoMemory};
ghost use Rattle.amf_cli.specs.CallEnds.{Starves};
ghost use Rattle.amf_cli.specs.Ends.{Ends};

use crate::ending::status_with;
use crate::media::media_status;
use crate::no_input::NoInput;
use crate::textual::text_status_with;
use amf_bytes::write_bytes;
use amf_commands::perform::perform;
use amf_commands::{CallOptions, Command, ListenOptions, RunEnd, ServeOptions, Task};
use amf_io::{Sink, Source};
use amf_media::{flv_keyed, rtmp_keyed};
use amf_wire::Name;
use std::alloc::Global;
use std::hash::RandomState;

/// What words ask for that is done over links.
#[derive(Drop)]
pub enum LinkTask {
    /// Links are served.
    Serve(ServeOptions),
    /// A call is made.
    Call(CallOptions),
    /// A gateway is listened to.
    Listen(ListenOptions),
}

/// Does what the words say as `run` does it, and gives the status of the program; but where they ask for links to be served, for
/// a call or for a listener, it does nothing, and the answer has the options, unless memory ran out.
///
/// It has no runtime. So it returns, unless a stream waits. The keys are those by which readers and writers look texts up.
pub fn run_data<I: Source, O: Sink, E: Sink>(
    alloc: Global,
    keys: Option<RandomState>,
    words: &[Name],
    input: &mut I,
    out: &mut O,
    err: &mut E,
) -> Result<u8, LinkTask>
    ensures ends { IfOk result (λ status. Ends I.Source O.Sink E.Sink words.now status input.old input.new out.old out.new err.old err.new) }
    ensures data { IfOk result (λ status. (IsServing words.now ⊎ IsDialling words.now
        → Starves O.Sink E.Sink out.old out.new err.old err.new status) × (status ≢ 6)) }
    ensures serves { (options : ServeOptions) → result ≡ Err (LinkTask.Serve options) → ReadsServe words.now options }
    ensures calls { (options : CallOptions) → result ≡ Err (LinkTask.Call options) → ReadsCall words.now options }
    ensures listens { (options : ListenOptions) → result ≡ Err (LinkTask.Listen options) → ReadsListen words.now options }
    ensures untouched { OnErr result ((input.new ≡ input.old) × (out.new ≡ out.old) × (err.new ≡ err.old)) }
{
    match task_of(alloc, words) {
        Ok(Task::Output(command)) => {
            let end = carry_out(alloc, keys, command, input, out);
            Ok(status_with(end, err))
        }
        Ok(Task::Bytes) => {
            let end = write_bytes(alloc, keys, input, out);
            Ok(text_status_with(end, err))
        }
        Ok(Task::Flv(job)) => {
            let end = flv_keyed(alloc, keys, job, input, out);
            Ok(media_status(end, err))
        }
        Ok(Task::Rtmp(size)) => {
            let end = rtmp_keyed(alloc, keys, size, input, out);
            Ok(media_status(end, err))
        }
        Ok(Task::Serve(options)) => Err(LinkTask::Serve(options)),
        Ok(Task::Call(options)) => Err(LinkTask::Call(options)),
        Ok(Task::Listen(options)) => Err(LinkTask::Listen(options)),
        Err(end) => Ok(status_with(Err(end), err)),
    }
}

/// What the words ask for.
fn task_of(alloc: Global, words: &[Name]) -> Result<Task, RunEnd>
    ensures asked { IfOk result (AsksFor words.now) }
    ensures none { (end : RunEnd) → result ≡ Err end → ((end ≡ Usage) × (HasReading words.now → ⊥)) ⊎ (end ≡ NoMemory) }
{
    match Task::of(alloc, words)? {
        Some(task) => Ok(task),
        None => Err(RunEnd::Usage),
    }
}

/// Reads the input of a command, where it has one, and writes its output.
fn carry_out<I: Source, O: Sink>(
    alloc: Global,
    keys: Option<RandomState>,
    command: Command,
    input: &mut I,
    out: &mut O,
) -> Result<(), RunEnd>
    requires { IsAskable command }
    ensures no_usage { result ≢ Err RunEnd.Usage }
    ensures alone { (number : ℕ) (l : Lack) → result ≡ Err (RunEnd.NoForm number l) → MayLack command }
    ensures reading { IsReading command result }
    ensures untaken { (TakesInput command → ⊥) → input.new ≡ input.old }
    ensures runs { (TakesInput command → I.tells input.old) → RunsOver I.Source O.Sink command input.old input.new out.old out.new result }
    ensures taken { I.tells input.old → length (I.left input.old) ≤ length (I.left input.new) + (most + 1) }
    ensures untouched { IsUntouched out.old out.new result }
    ensures unwritten { result ≡ Err RunEnd.NoMemory → out.new ≡ out.old }
    ensures no_front { result ≢ Err RunEnd.FrontFault }
    ensures reads { CountsReads (I.faults input.old) (I.faults input.new) result }
    ensures writes { CountsWrites (O.faults out.old) (O.faults out.new) result }
{
    match command {
        // These read nothing, so the input is not touched.
        Command::Gen { .. } => perform(alloc, keys, command, &mut NoInput, out),
        Command::Version => perform(alloc, keys, command, &mut NoInput, out),
        _ => perform(alloc, keys, command, input, out),
    }
}
