//! Laws of replies.

ghost use Rattle.http_backend.specs.Outcomes.{OneOutcome};
ghost use Rattle.http_backend.specs.PathLaws.{EscapesAll};

/// Whatever bytes come, up to the end of the connection, they come to one outcome. It does nothing.
pub fn one_outcome()
    ensures { OneOutcome }
{}

/// What is escaped of bytes holds no slash, nothing that ends a path, no white space and no control. It does nothing.
pub fn escapes_all()
    ensures { EscapesAll }
{}
