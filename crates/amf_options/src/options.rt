ghost use Rattle.std.specs.Prelude.{◌≡◌, IfOk, true, map};
ghost use Rattle.std.specs.List.{list_all};
ghost use Rattle.amf_options.specs.Words.{is_fit as fit, is_name, texts};
ghost use Rattle.amf_options.specs.Told.{Tells};

use clap::error::ErrorKind;
use clap::{Arg, ArgMatches, Command};
use std::alloc::{AllocError, Global};

/// What the words give these options, each at most once, in any order, as `--x=v`, or as `--x v` where v does not begin with
/// `-`: `None` where they give no such options. The options' names have a byte and no `=`. It gives up where there is no
/// memory.
pub fn options_of<'a>(
    alloc: Global,
    name: &'a str,
    options: &'a [&'a str],
    words: &'a [&'a str],
) -> Result<Option<ArgMatches<'a>>, AllocError>
    requires { list_all is_name (texts options.now) ≡ true }
    ensures { IfOk result (Tells (texts options.now) (texts words.now)) }
{
    if !are_fit(words) {
        return Ok(None);
    }
    let mut command = Command::new(alloc, name)
        .no_binary_name(true)
        .disable_help_flag(true)
        .disable_version_flag(true);
    for option in options {
        let arg = Arg::new(alloc, option).long(option);
        command = command.arg(arg)?;
    }
    match command.try_get_matches_from(words) {
        Ok(matches) => Ok(Some(matches)),
        Err(error) => match error.kind() {
            ErrorKind::OutOfMemory => Err(AllocError),
            _ => Ok(None),
        },
    }
}

/// Whether each word that begins with `-` begins with `--` and goes on.
fn are_fit(words: &[&str]) -> bool
    ensures { result ≡ list_all fit (texts words.now) }
{
    for word in words {
        if !is_fit(word) {
            return false;
        }
    }
    true
}

/// Whether the word, if it begins with `-`, begins with `--` and goes on.
fn is_fit(word: &str) -> bool
    ensures { result ≡ fit word.now }
{
    match word.as_bytes() {
        [b'-', b'-', _, ..] => true,
        [b'-', ..] => false,
        _ => true,
    }
}
