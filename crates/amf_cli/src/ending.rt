ghost use Rattle.std.specs.Prelude.{◌≡◌, ◌≤◌};
ghost use Rattle.amf_io.specs.Outside.{Steady};
ghost use Rattle.amf_cli.specs.ServeEnds.{status_for, ReportsEnd};

use amf_commands::{RunEnd, end_with};
use amf_io::Sink;

/// Writes the error line of an end, where it has one, and gives its status, whatever becomes of the line.
pub fn status_with<E: Sink>(end: Result<(), RunEnd>, err: &mut E) -> u8
    ensures status { result ≡ status_for end }
    ensures line { E.tells err.new → Steady (E.faults err.old) (E.faults err.new) → ReportsEnd end (E.held err.old) (E.held err.new) }
    ensures counted { E.faults err.old ≤ E.faults err.new }
{
    match end {
        Ok(()) => 0,
        // The status is decided: a failure of the error line does not change it.
        Err(end) => end_with(end, err),
    }
}
