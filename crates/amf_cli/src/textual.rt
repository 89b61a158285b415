ghost use Rattle.std.specs.Prelude.{◌≡◌, ◌≤◌, length};
ghost use Rattle.amf_cli.specs.BytesEnds as ends;
ghost use Rattle.amf_cli.specs.BytesEnds.{text_line, text_status};
ghost use Rattle.amf_cli.specs.Told.{Tells};

use crate::telling::tell;
use amf_bytes::{BytesEnd, Refusal, TextReason};
use amf_commands::{RunEnd, end_with};
use amf_io::Sink;
use arrayvec::ArrayString;
use itoa::Buffer;

/// Room for the words of the line, the longest name of a reason and three numbers of at most 20 digits.
const ROOM: usize = 101;

/// Writes the error line of `bytes`, where its end has one, and gives the status of the program, whatever becomes of the line.
#[tactic(auto, unfolding(crate::specs::BytesEnds::text_line))]
pub fn text_status_with<E: Sink>(end: Result<(), BytesEnd>, err: &mut E) -> u8
    ensures status { result ≡ text_status end }
    ensures line { Tells E.Sink err.old err.new (text_line end) }
    ensures counted { E.faults err.old ≤ E.faults err.new }
{
    match end {
        Ok(()) => 0,
        Err(BytesEnd::Refused(refusal)) => {
            let line = refusal_line(refusal);
            tell(line.as_str().as_bytes(), err);
            1
        }
        Err(BytesEnd::ReadFault) => end_with(RunEnd::ReadFault, err),
        Err(BytesEnd::WriteFault) => end_with(RunEnd::WriteFault, err),
        Err(BytesEnd::NoForm { value, lack }) => end_with(RunEnd::NoForm { value, lack }, err),
        Err(BytesEnd::Memory) => end_with(RunEnd::NoMemory, err),
    }
}

/// The line of a refused text. It takes no memory.
fn refusal_line(refusal: Refusal) -> ArrayString<ROOM>
    ensures { result.bytes ≡ ends.text_refusal_line refusal }
{
    let mut digits = Buffer::new();
    let mut text = ArrayString::new();
    text.push_str("amf: refused ");
    text.push_str(reason_name(refusal.reason));
    text.push_str(" at ");
    text.push_str(digits.format(refusal.at));
    text.push_str(" line ");
    text.push_str(digits.format(refusal.line));
    text.push_str(" column ");
    text.push_str(digits.format(refusal.column));
    text.push_str("\n");
    text
}

/// The name of a reason, as the error line has it.
fn reason_name(reason: TextReason) -> &'static str
    ensures name { result.now ≡ ends.reason_name reason }
    ensures short { length result.now ≤ 9 }
{
    match reason {
        TextReason::Truncated => "Truncated",
        TextReason::NotUtf8 => "NotUtf8",
        TextReason::NotJson => "NotJson",
        TextReason::BadKey => "BadKey",
        TextReason::BadShape => "BadShape",
        TextReason::BadNumber => "BadNumber",
        TextReason::BadHex => "BadHex",
        TextReason::BadText => "BadText",
        TextReason::SameLabel => "SameLabel",
        TextReason::LongText => "LongText",
        TextReason::TooMany => "TooMany",
        TextReason::Trailing => "Trailing",
        TextReason::TooLarge => "TooLarge",
        TextReason::NoLabel => "NoLabel",
    }
}
