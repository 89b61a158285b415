ghost use Rattle.std.specs.Prelude.{◌≡◌, ◌≤◌, ◌++◌, OnOk};
ghost use Rattle.amf_io.specs.Outside.{HasCause, Steady};
ghost use Rattle.amf_commands.specs.Lines.{status_of, line_of, refusal_line, no_form_line, kind_name};

use crate::run_end::RunEnd;
use amf_graph::{Lack, LackKind};
use amf_io::{Failed, Refusal, Sink, write_all};
use itoa::Buffer;

/// Writes the error line of an end, and gives its status, whatever becomes of the line.
pub fn end_with<E: Sink>(end: RunEnd, err: &mut E) -> u8
    ensures status { result ≡ status_of end }
    ensures line { E.tells err.new → Steady (E.faults err.old) (E.faults err.new) → E.held err.new ≡ E.held err.old ++ line_of end }
    ensures counted { E.faults err.old ≤ E.faults err.new }
{
    let _ = report(end, err);
    end.status()
}

/// Writes the error line of an end.
#[tactic(auto, unfolding(crate::specs::Lines::line_of))]
fn report<E: Sink>(end: RunEnd, err: &mut E) -> Result<(), Failed>
    ensures tells { E.tells err.new → E.tells err.old }
    ensures line { E.tells err.new → OnOk result (E.held err.new ≡ E.held err.old ++ line_of end) }
    ensures cause { HasCause (E.faults err.old) (E.faults err.new) result }
{
    match end {
        RunEnd::Refused(refusal) => report_refusal(refusal, err),
        RunEnd::Usage => write_all(err, b"amf: usage\n"),
        RunEnd::ReadFault => write_all(err, b"amf: read fault\n"),
        RunEnd::WriteFault => write_all(err, b"amf: write fault\n"),
        RunEnd::NoMemory => write_all(err, b"amf: no memory\n"),
        RunEnd::FrontFault => write_all(err, b"amf: front fault\n"),
        RunEnd::NoForm { value, lack } => report_lack(value, lack, err),
    }
}

/// Writes the error line of a refusal.
fn report_refusal<E: Sink>(refusal: Refusal, err: &mut E) -> Result<(), Failed>
    ensures tells { E.tells err.new → E.tells err.old }
    ensures line { E.tells err.new → OnOk result (E.held err.new ≡ E.held err.old ++ refusal_line refusal) }
    ensures cause { HasCause (E.faults err.old) (E.faults err.new) result }
{
    let mut digits = Buffer::new();
    write_all(err, b"amf: refused ")?;
    write_all(err, refusal.reason.name())?;
    write_all(err, b" at ")?;
    write_all(err, digits.format(refusal.at).as_bytes())?;
    write_all(err, b"\n")
}

/// Writes the error line of a value that has no canonical spelling, with its number.
fn report_lack<E: Sink>(value: u32, lack: Lack, err: &mut E) -> Result<(), Failed>
    ensures tells { E.tells err.new → E.tells err.old }
    ensures line { E.tells err.new → OnOk result (E.held err.new ≡ E.held err.old ++ no_form_line value lack) }
    ensures cause { HasCause (E.faults err.old) (E.faults err.new) result }
{
    let mut digits = Buffer::new();
    write_all(err, b"amf: no form ")?;
    write_all(err, kind_of(lack.kind))?;
    write_all(err, b" node ")?;
    write_all(err, digits.format(lack.node).as_bytes())?;
    write_all(err, b" value ")?;
    write_all(err, digits.format(value).as_bytes())?;
    write_all(err, b"\n")
}

/// The name of a kind of lack, as the error line has it.
fn kind_of(kind: LackKind) -> &'static [u8]
    ensures { result.now ≡ kind_name kind }
{
    match kind {
        LackKind::EmptyName => b"EmptyName",
        LackKind::NoForm => b"NoForm",
        LackKind::LongName => b"LongName",
        LackKind::Shared => b"Shared",
        LackKind::FarReference => b"FarReference",
        LackKind::LongFile => b"LongFile",
    }
}
