//! Laws of the verdict on AMF 0, from any builder's arena and its tables.

ghost use Rattle.amf0_layout_laws.specs.VerdictLaws0.{Ends0, FirstFault0, Judged0, JudgedOnce0, NextKind0, OneCut0, ReadOnce0};

/// The same bytes have one cut into the fields of AMF 0, at the front of other bytes too.
pub fn bytes_fix_fields0()
    ensures { OneCut0 }
{}

/// What kind of field of AMF 0 comes next follows from the bytes before it.
pub fn bytes_fix_next_kind0()
    ensures { NextKind0 }
{}

/// A faulty field of AMF 0 is the first that is wrong: the bytes before it can be completed to what is accepted, and nothing
/// that is accepted begins with the bytes up to its end.
pub fn faults0_are_first()
    ensures { FirstFault0 }
{}

/// An input of bytes has a verdict, and no input has two: it is one value of AMF 0, or it is refused for one reason at one
/// offset.
pub fn inputs0_have_one_verdict()
    ensures judged { Judged0 }
    ensures once { JudgedOnce0 }
{}

/// The same of a value of AMF 0 in the middle of something, from an offset within the limit on: it ends at one offset, or it is
/// refused for one reason at one offset.
pub fn values0_have_one_verdict()
    ensures judged { Ends0 }
    ensures once { ReadOnce0 }
{}
