//! The tokens of a text against what has to stand next.

ghost use Rattle.std.specs.Prelude.{◌≡◌, ◌<◌, ◌^◌, ◌&&◌, ◌||◌, [], ◌∷◌, length, IfOk};
ghost use Rattle.json.specs.Reads.{token_of};
ghost use Rattle.amf_text.specs.Asks.{start};
ghost use Rattle.amf_text_read.specs.Scanned.{is_bad, opens};
ghost use Rattle.amf_text_read.specs.Verdicts.{asked_of};
ghost use Rattle.amf_text_read.specs.Judgements.{Rejects, IsJudged};

use crate::asked::Asked;
use amf_text::TextReason;
use amf_wire::Memory;
use json::{Reader, Token};
use std::alloc::Global;
use std::hash::RandomState;

/// What is left behind the tokens of a text, all of which can stand where they stand.
#[derive(Clone, Copy)]
pub(crate) struct Rest {
    /// Nothing has to come any more.
    pub(crate) is_whole: bool,
    /// Something follows that is no token, is cut off or stands out of place.
    pub(crate) is_early: bool,
    /// A value or a key can come next with no comma before it.
    pub(crate) opens: bool,
}

/// How the tokens of a text end.
#[derive(Clone, Copy)]
pub(crate) enum End {
    /// At one that is refused.
    Wrong(TextReason),
    /// At a string that would be a key, had the text not ended before its colon.
    NoColon,
    /// None is refused.
    Left(Rest),
}

/// How many tokens can stand where they stand, and how they end.
#[derive(Clone, Copy)]
pub(crate) struct Judged {
    pub(crate) tokens: usize,
    pub(crate) end: End,
}

/// Whether an object or a list begins by a token, or a member by its key.
fn opens(token: &Token<'_>) -> bool
    ensures { result ≡ opens (token_of token.now) }
{
    matches!(
        token,
        Token::BeginObject | Token::BeginArray | Token::Key(_)
    )
}

/// Whether a token is none, or is the last one and cut off.
fn is_none(token: &Token<'_>, is_cut: bool, is_last: bool) -> bool
    ensures { result ≡ ((is_last && is_cut) || is_bad (token_of token.now)) }
{
    is_last && is_cut || matches!(token, Token::Bad)
}

/// The end at a token that is refused for this reason.
fn rejected(
    asked: &mut Asked,
    token: &Token<'_>,
    is_last: bool,
    reason: TextReason,
) -> Result<End, Memory>
    ensures { IfOk result (Rejects (asked_of asked.old) (token_of token.now) is_last reason) }
{
    match token {
        Token::String(name) if is_last => match asked.take(&Token::Key(name))? {
            Some(_) => Ok(End::Wrong(reason)),
            None => Ok(End::NoColon),
        },
        _ => Ok(End::Wrong(reason)),
    }
}

/// Goes through the tokens of a text, which ends inside its last lexeme or not, up to one that is refused.
fn judge_tokens(asked: &mut Asked, reader: &mut Reader<'_>, is_cut: bool) -> Result<Judged, Memory>
    requires few { length reader.old < 2 ^ 63 }
    requires all { asked_of asked.old ≡ start ∷ [] }
    ensures { IfOk result (IsJudged is_cut reader.old) }
{
    let mut tokens = 0;
    let mut opened = true;
    let mut next = reader.next();
    while let Some(token) = next {
        next = reader.next();
        let is_last = next.is_none();
        if is_none(&token, is_cut, is_last) {
            let end = End::Left(Rest {
                is_whole: asked.is_whole(),
                is_early: true,
                opens: opened,
            });
            return Ok(Judged { tokens, end });
        }
        if let Some(reason) = asked.take(&token)? {
            let end = rejected(asked, &token, is_last, reason)?;
            return Ok(Judged { tokens, end });
        }
        opened = opens(&token);
        tokens += 1;
    }
    let end = End::Left(Rest {
        is_whole: asked.is_whole(),
        is_early: false,
        opens: opened,
    });
    Ok(Judged { tokens, end })
}

/// Goes through the tokens of a text, which ends inside its last lexeme or not, up to one that is refused. What is looked up is
/// found by these keys.
pub(crate) fn judge(
    alloc: Global,
    keys: Option<RandomState>,
    reader: &mut Reader<'_>,
    is_cut: bool,
) -> Result<Judged, Memory>
    requires { length reader.old < 2 ^ 63 }
    ensures { IfOk result (IsJudged is_cut reader.old) }
{
    let mut asked = Asked::new(alloc, keys)?;
    judge_tokens(&mut asked, reader, is_cut)
}
