//! Where the tokens of a text stop.

ghost use Rattle.std.specs.Prelude.{◌≡◌, true, false, ◌||◌, length, not};
ghost use Rattle.json.specs.Lex.{between};
ghost use Rattle.amf_text.specs.Scan.{scan};
ghost use Rattle.amf_text.specs.Refused.{tokens_of};
ghost use Rattle.amf_text_read.specs.Modes.{mode_of};
ghost use Rattle.amf_text_read.specs.Scanned.{last_place, behind_comma, last_opens, placed_lexemes, is_ended};
ghost use Rattle.amf_text_read.specs.Stops.{stop_named};

use crate::judge::Rest;
use crate::mode::Mode;
use crate::place::{ends_inside, place_of};

/// Where the tokens of a text stop.
#[derive(Clone, Copy)]
pub(crate) enum Stop {
    /// At its end.
    Ended,
    /// At its end, behind the comma that stands here.
    CommaLast(usize),
    /// Inside the token that begins here.
    Inside(usize),
    /// At what begins here, which is no token or stands out of place.
    Fault(usize),
}

/// Where the last lexeme of a text begins, and whether a comma stands before it.
#[derive(Clone, Copy)]
struct Last {
    at: usize,
    is_behind_comma: bool,
}

/// The last lexeme of a text. Where there is none, it begins with the text.
fn last_lexeme(text: &[u8]) -> Last
    ensures at { result.at ≡ last_place 0 (placed_lexemes between 0 text.now) }
    ensures comma { result.is_behind_comma ≡ behind_comma false false (placed_lexemes between 0 text.now) }
{
    let mut mode = Mode::Between;
    let mut last = 0;
    let mut is_behind_comma = false;
    let mut is_comma = false;
    for at in 0..text.len() {
        if mode.begins(text[at]) {
            last = at;
            is_behind_comma = is_comma;
            is_comma = text[at] == b',';
        }
        mode = mode.next(text[at]);
    }
    Last {
        at: last,
        is_behind_comma,
    }
}

/// Whether a token can stand behind this, at the last lexeme of a text.
fn can_begin(opens: bool, last: Last) -> bool
    ensures { result ≡ (opens || last.is_behind_comma) }
{
    opens || last.is_behind_comma
}

/// Where the tokens of a text stop, of which there are so many, before its end or behind a comma.
fn early_stop(text: &[u8], tokens: usize, opens: bool) -> Stop
    requires count { tokens ≡ length (scan text.now).tokens }
    requires early { is_ended (scan text.now).stop ≡ false }
    requires opens { opens ≡ last_opens true (tokens_of (scan text.now).tokens) }
    ensures { stop_named result ≡ (scan text.now).stop }
{
    let at = place_of(text, tokens);
    let last = last_lexeme(text);
    if at == text.len() {
        Stop::CommaLast(last.at)
    } else if ends_inside(text) && at == last.at && can_begin(opens, last) {
        Stop::Inside(at)
    } else {
        Stop::Fault(at)
    }
}

/// Where the tokens of a text stop, of which there are so many, and behind which this is left.
pub(crate) fn stop_of(text: &[u8], tokens: usize, rest: &Rest) -> Stop
    requires count { tokens ≡ length (scan text.now).tokens }
    requires early { rest.now.is_early ≡ not (is_ended (scan text.now).stop) }
    requires opens { rest.now.opens ≡ last_opens true (tokens_of (scan text.now).tokens) }
    ensures { stop_named result ≡ (scan text.now).stop }
{
    if rest.is_early {
        early_stop(text, tokens, rest.opens)
    } else {
        Stop::Ended
    }
}
