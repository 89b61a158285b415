ghost use Rattle.std.specs.Prelude.{◌≡◌, ◌≤◌, ◌+◌, length, IfSome, IfNone};
ghost use Rattle.amf_io.specs.Field.{AreBytes};
ghost use Rattle.amf3_read.specs.Plain.{IsIntegerAt, IsDoubleAt, IsTextAt, IsPlainAt, IsPlainOver};

use amf_graph::Value;
use amf_io::{Cursor, Source};
use amf_tables::Tables3;
use amf_wire::{Pattern, U29Read, be64_at, read_u29, sign29};
use amf3_spelling::Marker;

/// No plain value has more bytes with its marker.
const LONGEST: usize = 9;

/// A value that needs no builder, and how many bytes it has behind its marker.
#[derive(Clone, Copy)]
struct Plain {
    value: Value,
    used: u32,
}

/// A value that its marker tells.
#[inline(always)]
fn told(value: Value) -> Option<Plain>
    ensures { IfSome result (λ plain. (plain.value ≡ value) × (plain.used ≡ 0)) }
{
    Some(Plain { value, used: 0 })
}

/// The integer at the front of bytes (AMF 3 specification, 3.6).
#[inline(always)]
fn integer_at(bytes: &[u8]) -> Option<Plain>
    ensures some { IfSome result (λ plain. IsIntegerAt bytes.now plain.value plain.used) }
    ensures few { IfSome result (λ plain. plain.used ≤ 4) }
{
    match read_u29(bytes) {
        U29Read::Whole { value, used } => Some(Plain {
            value: Value::Integer(sign29(value)),
            used: used as u32,
        }),
        U29Read::Short => None,
    }
}

/// The double at the front of bytes (AMF 3 specification, 3.7).
#[inline(always)]
fn double_at(bytes: &[u8]) -> Option<Plain>
    requires { 8 ≤ length bytes.now }
    ensures { IfSome result (λ plain. IsDoubleAt bytes.now plain.value plain.used) }
{
    Some(Plain {
        value: Value::Double(Pattern(be64_at(bytes, 0))),
        used: 8,
    })
}

/// The text of the table that is named at the front of bytes (AMF 3 specification, 1.3.2).
#[inline(always)]
fn text_at(bytes: &[u8], tables: &Tables3) -> Option<Plain>
    ensures some { IfSome result (λ plain. IsTextAt tables.now bytes.now plain.value plain.used) }
    ensures few { IfSome result (λ plain. plain.used ≤ 4) }
{
    match read_u29(bytes) {
        U29Read::Whole { value, used } => {
            let header = value.get();
            if header % 2 == 1 {
                return None;
            }
            let text = tables.text_at(header / 2)?;
            Some(Plain {
                value: Value::Text(text),
                used: used as u32,
            })
        }
        U29Read::Short => None,
    }
}

/// The value at the front of bytes, where it is no node, and no text but one of the table.
#[inline(always)]
fn plain_at(bytes: &[u8], tables: &Tables3) -> Option<Plain>
    requires { LONGEST ≤ length bytes.now }
    ensures some { IfSome result (λ plain. IsPlainAt tables.now bytes.now plain.value plain.used) }
    ensures few { IfSome result (λ plain. plain.used ≤ 8) }
    ensures bytes { AreBytes bytes.now }
{
    let behind = &bytes[1..];
    match Marker::from_byte(bytes[0])? {
        Marker::Undefined => told(Value::Undefined),
        Marker::Null => told(Value::Null),
        Marker::False => told(Value::Bool(false)),
        Marker::True => told(Value::Bool(true)),
        Marker::Integer => integer_at(behind),
        Marker::Double => double_at(behind),
        Marker::Text => text_at(behind, tables),
        Marker::Node(_) => None,
    }
}

/// Reads the next value where all of it is ahead, and it is no node, and no text but one of the table. Else nothing is read.
#[inline(always)]
pub(crate) fn read_plain<S: Source>(cursor: &mut Cursor<'_, S>, tables: &Tables3) -> Option<Value>
    ensures some { IfSome result (λ v. IsPlainOver S.Source tables.now cursor.old cursor.new v) }
    ensures none { IfNone result (cursor.new ≡ cursor.old) }
{
    // What is true of every cursor.
    let _start = cursor.at();
    let ahead = cursor.ahead();
    if ahead.len() < LONGEST {
        return None;
    }
    match plain_at(ahead, tables) {
        Some(plain) => {
            cursor.pass(1);
            cursor.pass(plain.used);
            Some(plain.value)
        }
        None => None,
    }
}
