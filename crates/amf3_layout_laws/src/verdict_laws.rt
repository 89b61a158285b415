//! Laws of the verdict on AMF 3, from any builder's arena and its tables.

ghost use Rattle.amf3_layout_laws.specs.VerdictLaws3.{Ends3, FirstFault3, Judged3, JudgedOnce3, NextKind3, OneCut3, ReadOnce3};

/// The same bytes have one cut into the fields of AMF 3, at the front of other bytes too.
pub fn bytes_fix_fields()
    ensures { OneCut3 }
{}

/// What kind of field of AMF 3 comes next follows from the bytes before it.
pub fn bytes_fix_next_kind()
    ensures { NextKind3 }
{}

/// A faulty field of AMF 3 is the first that is wrong: the bytes before it can be completed to what
/// is accepted, and nothing that is accepted begins with the bytes up to its end.
pub fn faults_are_first()
    ensures { FirstFault3 }
{}

/// An input of bytes has a verdict, and no input has two: it is one value of AMF 3, or it is refused
/// for one reason at one offset.
pub fn inputs_have_one_verdict()
    ensures judged { Judged3 }
    ensures once { JudgedOnce3 }
{}

/// The same of a value of AMF 3 in the middle of something, from an offset within the limit on: it ends
/// at one offset, or it is refused for one reason at one offset.
pub fn values_have_one_verdict()
    ensures judged { Ends3 }
    ensures once { ReadOnce3 }
{}
