ghost use Rattle.std.specs.Prelude.{◌≡◌, ◌≤◌, IfOk};
ghost use Rattle.amf_cli.specs.CallSteps.{TellsFault};
ghost use Rattle.amf_cli.specs.Lines as lines;
ghost use Rattle.amf_cli.specs.Told.{Tells};

use amf_commands::{RunEnd, end_with};
use amf_io::{Sink, write_whole};
use amf_show::show_text;
use amf_wire::{Memory, Name};
use arrayvec::ArrayString;
use itoa::Buffer;
use std::alloc::Global;

/// Room for the words of the line of a bad reply and the three digits of its number.
const ROOM: usize = 19;

/// Writes an error line. The status is decided: a failure of the line does not change it.
pub fn tell<E: Sink>(line: &[u8], err: &mut E)
    ensures line { Tells E.Sink err.old err.new line.now }
    ensures counted { E.faults err.old ≤ E.faults err.new }
{
    let _ = write_whole(err, line);
}

/// Writes the line of a fault, and gives the status of the program.
pub fn tell_fault<E: Sink>(alloc: Global, code: &Name, text: &Name, err: &mut E) -> u8
    ensures tells { TellsFault E.Sink err.old err.new code.now text.now result }
    ensures counted { E.faults err.old ≤ E.faults err.new }
{
    match fault_line(alloc, code, text) {
        Ok(line) => {
            tell(&line, err);
            8
        }
        Err(_) => end_with(RunEnd::NoMemory, err),
    }
}

/// The line of a fault, with the code and the text of it.
fn fault_line(alloc: Global, code: &Name, text: &Name) -> Result<Vec<u8>, Memory>
    ensures { IfOk result (λ line. line.items ≡ lines.fault_line code.now text.now) }
{
    let mut line = Vec::new(alloc);
    line.extend_from_slice(b"amf: fault ")?;
    show_text(alloc, code.as_bytes(), &mut line)?;
    line.push(b' ')?;
    show_text(alloc, text.as_bytes(), &mut line)?;
    line.push(b'\n')?;
    Ok(line)
}

/// Writes the line of a bad reply, and gives the status of the program.
pub fn tell_bad_reply<E: Sink>(number: u8, err: &mut E) -> u8
    ensures status { result ≡ 9 }
    ensures line { Tells E.Sink err.old err.new (lines.bad_reply_line number) }
    ensures counted { E.faults err.old ≤ E.faults err.new }
{
    let line = bad_reply_line(number);
    tell(line.as_str().as_bytes(), err);
    9
}

/// The line of a bad reply. It takes no memory.
fn bad_reply_line(number: u8) -> ArrayString<ROOM>
    ensures { result.bytes ≡ lines.bad_reply_line number }
{
    let mut digits = Buffer::new();
    let mut text = ArrayString::new();
    text.push_str("amf: bad reply ");
    text.push_str(digits.format(number));
    text.push_str("\n");
    text
}

/// Writes the line of a link that failed, and gives the status of the program.
pub fn tell_link_fault<E: Sink>(err: &mut E) -> u8
    ensures status { result ≡ 10 }
    ensures line { Tells E.Sink err.old err.new lines.link_fault_line }
    ensures counted { E.faults err.old ≤ E.faults err.new }
{
    tell(b"amf: link fault\n", err);
    10
}
