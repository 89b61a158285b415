/// Why a text is refused, at the first token that is wrong. A token is a bracket, a key with its colon, a string, a number,
/// `true`, `false` or `null` (RFC 8259, 2 and 3); commas belong to the grammar.
#[derive(Clone, Copy, Debug, PartialEq, Eq)]
pub enum TextReason {
    /// The input ends where more has to come, or inside a token.
    Truncated,
    /// Bytes that are no UTF-8.
    NotUtf8,
    /// No token of RFC 8259, a comma or colon out of place, or half of a surrogate pair in an escape.
    NotJson,
    /// A key that cannot stand here, or none where one has to.
    BadKey,
    /// A token of another kind than what has to stand here, or another word than those of the table.
    BadShape,
    /// A number that is not finite, not whole or out of range, or a word that is none of those for a double.
    BadNumber,
    /// No pairs of hexadecimal digits.
    BadHex,
    /// Hexadecimal digits of bytes that are no text.
    BadText,
    /// A label that a row has already.
    SameLabel,
    /// A name, target or response of more than 65,535 bytes.
    LongText,
    /// Header or message 65,536.
    TooMany,
    /// Anything but white space behind the last bracket.
    Trailing,
    /// The input has more than 268,435,456 bytes.
    TooLarge,
    /// All else is accepted, and no row has the label of this reference.
    NoLabel,
}
