ghost use Rattle.std.specs.Prelude.{◌≡◌, ◌≤◌};
ghost use Rattle.amf_cli.specs.Told.{Tells};
ghost use Rattle.amf_cli.specs.MediaEnds.{status_of, error_line};

use crate::telling::tell;
use amf_commands::{RunEnd, end_with};
use amf_io::Sink;
use amf_media::MediaEnd;

/// Writes the error line of a job on media, where its end has one, and gives the status of the program, whatever becomes of the line.
#[tactic(auto, unfolding(crate::specs::MediaEnds::error_line))]
pub fn media_status<E: Sink>(end: MediaEnd, err: &mut E) -> u8
    ensures status { result ≡ status_of end }
    ensures line { Tells E.Sink err.old err.new (error_line end) }
    ensures counted { E.faults err.old ≤ E.faults err.new }
{
    match end {
        MediaEnd::Done => 0,
        MediaEnd::Refused(refusal) => end_with(RunEnd::Refused(refusal), err),
        MediaEnd::ReadFault => end_with(RunEnd::ReadFault, err),
        MediaEnd::WriteFault => end_with(RunEnd::WriteFault, err),
        MediaEnd::Memory => end_with(RunEnd::NoMemory, err),
        MediaEnd::NoForm(lack) => end_with(RunEnd::NoForm { value: 0, lack }, err),
        MediaEnd::LongData => {
            tell(b"amf: no form LongData node 0 value 0\n", err);
            7
        }
    }
}
