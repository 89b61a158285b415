use amf_io::{
    Format, faults_are_first, next_kind_is_fixed, one_verdict, reading_decides, reading_waits,
};

struct Bit;

impl Format for Bit {
    ghost use Rattle.std.specs.Prelude.{ℕ};
    ghost use Rattle.amf_io.specs.Worked.{IsBit, bit_layout, bit_is_layout};

    ghost value = { ℕ };

    ghost accepts = { IsBit };

    ghost layout = { bit_layout };

    ghost is_layout = { bit_is_layout };
}

#[test]
fn laws_hold_of_a_format(_rt: HostRuntime) {
    one_verdict::<Bit>();
    faults_are_first::<Bit>();
    next_kind_is_fixed::<Bit>();
    reading_decides::<Bit>();
    reading_waits::<Bit>();
}
