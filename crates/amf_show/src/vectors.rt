ghost use Rattle.std.specs.Prelude.{◌≡◌, ◌++◌, codes, decimal, map, OnOk};
ghost use Rattle.std.specs.Fmt.{signed_decimal};
ghost use Rattle.amf_show.specs.ByLister.{joined_doubles};
ghost use Rattle.amf_show.specs.Shown.{joined, bracketed, shown_fixed};

use crate::numbers::{push_double, push_int, push_separator, push_uint, push_word};
use amf_wire::{Memory, Pattern};

/// Whether the length of a vector is fixed.
pub(crate) fn fixed_word(fixed: bool) -> &'static [u8]
    ensures { result.now ≡ shown_fixed fixed }
{
    if fixed { b"fixed" } else { b"open" }
}

/// Appends the kind of a vector, and whether its length is fixed.
fn push_kind(kind: &[u8], fixed: bool, out: &mut Vec<u8>) -> Result<(), Memory>
    ensures { OnOk result (out.new.items ≡ out.old.items ++ (kind.now ++ shown_fixed fixed ++ codes " ")) }
{
    push_word(kind, out)?;
    push_word(fixed_word(fixed), out)?;
    push_word(b" ", out)
}

/// Appends ints, joined.
fn push_each_int(ints: &[i32], out: &mut Vec<u8>) -> Result<(), Memory>
    ensures { OnOk result (out.new.items ≡ out.old.items ++ joined (map signed_decimal ints.now)) }
{
    for (place, int) in ints.iter().enumerate() {
        push_separator(place, out)?;
        push_int(*int, out)?;
    }
    Ok(())
}

/// Appends uints, joined.
fn push_each_uint(uints: &[u32], out: &mut Vec<u8>) -> Result<(), Memory>
    ensures { OnOk result (out.new.items ≡ out.old.items ++ joined (map decimal uints.now)) }
{
    for (place, uint) in uints.iter().enumerate() {
        push_separator(place, out)?;
        push_uint(*uint, out)?;
    }
    Ok(())
}

/// Appends doubles, joined.
fn push_each_double(doubles: &[Pattern], out: &mut Vec<u8>) -> Result<(), Memory>
    ensures { OnOk result (out.new.items ≡ out.old.items ++ joined_doubles doubles.now) }
{
    for (place, double) in doubles.iter().enumerate() {
        push_separator(place, out)?;
        push_double(*double, out)?;
    }
    Ok(())
}

/// Appends a vector of ints.
pub(crate) fn push_ints(fixed: bool, items: &[i32], out: &mut Vec<u8>) -> Result<(), Memory>
    ensures { OnOk result (out.new.items ≡ out.old.items ++ (codes "ints " ++ shown_fixed fixed ++ codes " " ++ bracketed (joined (map signed_decimal items.now)))) }
{
    push_kind(b"ints ", fixed, out)?;
    push_word(b"[", out)?;
    push_each_int(items, out)?;
    push_word(b"]", out)
}

/// Appends a vector of uints.
pub(crate) fn push_uints(fixed: bool, items: &[u32], out: &mut Vec<u8>) -> Result<(), Memory>
    ensures { OnOk result (out.new.items ≡ out.old.items ++ (codes "uints " ++ shown_fixed fixed ++ codes " " ++ bracketed (joined (map decimal items.now)))) }
{
    push_kind(b"uints ", fixed, out)?;
    push_word(b"[", out)?;
    push_each_uint(items, out)?;
    push_word(b"]", out)
}

/// Appends a vector of doubles.
pub(crate) fn push_doubles(fixed: bool, items: &[Pattern], out: &mut Vec<u8>) -> Result<(), Memory>
    ensures { OnOk result (out.new.items ≡ out.old.items ++ (codes "doubles " ++ shown_fixed fixed ++ codes " " ++ bracketed (joined_doubles items.now))) }
{
    push_kind(b"doubles ", fixed, out)?;
    push_word(b"[", out)?;
    push_each_double(items, out)?;
    push_word(b"]", out)
}
