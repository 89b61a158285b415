ghost use Rattle.std.specs.Prelude.{◌≡◌};
ghost use Rattle.amf_cli.specs.Lines as line;

use amf_desk::Closed;
use arrayvec::ArrayString;
use itoa::Buffer;

/// Room for the words of the line and four numbers of at most 20 digits.
const ROOM: usize = 117;

/// The line that says how many calls a desk answered, how many messages were published and delivered, and how many deliveries
/// are still queued. It takes no memory.
pub fn served_line(closed: &Closed) -> ArrayString<ROOM>
    ensures { result.bytes ≡ line.served_line closed.now }
{
    let mut digits = Buffer::new();
    let mut text = ArrayString::new();
    text.push_str("calls ");
    text.push_str(digits.format(closed.calls));
    text.push_str(" published ");
    text.push_str(digits.format(closed.published));
    text.push_str(" delivered ");
    text.push_str(digits.format(closed.delivered));
    text.push_str(" queued ");
    text.push_str(digits.format(closed.queued));
    text.push_str("\n");
    text
}
