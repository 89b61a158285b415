use std::process::Abort;

/// Ends the test where something does not hold.
pub(crate) fn holds(rt: &impl Abort, right: bool, what: &str) {
    assert!(rt; right, "{what}");
}

/// Ends the test where something else was got.
pub(crate) fn is(rt: &impl Abort, got: &str, want: &str) {
    assert!(rt; got == want, "{got} and not {want}");
}
