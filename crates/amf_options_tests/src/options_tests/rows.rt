//! Words of a command line and what they give `--from`. Anyone can add a line, and counts it in `COUNT`.

/// So many lines of `ROWS` are rows: each but those that are empty or begin with `#`.
pub(super) const COUNT: usize = 29;

/// `words | what they give --from`: the value, `no value` where they give `--to` alone or nothing, and `no options` where they
/// are invalid. The word `%` stands for the empty one.
pub(super) static ROWS: &str = r"
--from a --to b | a
--to=b --from=a | a
--to b --from=a | a
--from=a | a

  | no value
--to= | no value
--to % | no value
--to=--from | no value

% | no options
- | no options
-- | no options
x | no options
help | no options
--help | no options
-h | no options
-V | no options
--from | no options
--from - | no options
--from -- | no options
--from -1 | no options
--from --to=b | no options
--from a --from=a | no options
--from=a --from a | no options
--from a a | no options
--from a -- | no options
--fro a | no options
--From a | no options
-from a | no options
--=a | no options
";
