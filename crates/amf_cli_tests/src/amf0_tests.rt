use crate::runs::check_rows;
use amf_test_rows::Table;

/// Values from AMF 0, to AMF 0, and from it to AMF 3.
static VALUES: Table = Table {
    rows: 15,
    fields: 5,
    text: r#"
canon --from amf0 --to=amf3 | 03 00 01 61 07 00 00 00 00 09 | 0 | 0A 0B 01 03 61 0A 00 01 |
canon --from amf0 --to=amf3 | 08 00 00 00 05 00 00 09 | 0 | 09 01 01 |
canon --to amf0 | 0A 0B 01 03 61 04 05 01 | 0 | 03 00 01 61 00 40 14 00 00 00 00 00 00 00 00 09 |
canon --from=amf0 | 0A 00 00 00 01 11 04 05 | 0 | 0A 00 00 00 01 00 40 14 00 00 00 00 00 00 |
canon --from amf0 --to=amf3 | 10 00 01 43 00 01 61 05 00 00 09 | 0 | 0A 0B 03 43 03 61 01 01 |
canon --from amf0 --to=amf3 | 0D | 0 | 00 |
canon --from=amf0 | 0D | 0 | 06 |
canon --from=amf0 | 0A 00 00 00 02 11 09 01 01 11 09 00 | 0 | 0A 00 00 00 02 0A 00 00 00 00 07 00 01 |
canon --from=amf0 | 04 | 1 | | 'amf: refused BadMarker at 0' 0A
canon --from=amf0 | 09 | 1 | | 'amf: refused BadMarker at 0' 0A
canon --from=amf0 | 07 00 00 | 1 | | 'amf: refused BadReference at 0' 0A
canon --from=amf0 | 0A 00 00 00 01 07 00 01 | 1 | | 'amf: refused BadReference at 6' 0A
canon --from amf0 --to=amf3 | 03 00 00 05 00 00 09 | 7 | | 'amf: no form EmptyName node 0 value 0' 0A
canon --to amf0 | 0C 03 FF | 7 | | 'amf: no form NoForm node 0 value 0' 0A
canon --to amf0 | 09 05 01 08 01 00 00 00 00 00 00 00 00 08 02 | 7 | | 'amf: no form Shared node 1 value 0' 0A
"#,
};

#[test]
fn values_of_amf_0(rt: HostRuntime) {
    check_rows(&rt, rt.alloc(), &VALUES);
}

/// A name that is too long for AMF 0, and a reference that is too far.
static TOO_MUCH: Table = Table {
    rows: 4,
    fields: 9,
    text: "
canon --to amf0 | 0A 0B 01 88 80 01 + 65536*'a' + 01 01 | 7 | | 'amf: no form LongName node 0 value 0' 0A | 1048576 1000 | 0 | |
canon --to amf0 | 0A 0B 01 88 80 01 + 65536*'a' + 01 01 | 7 | | 'amf: no form LongName node 0 value 0' 0A | 1048576 | 9 | |
canon --to amf0 | 09 88 80 03 01 + 65536*09 01 01 + 09 88 80 00 | 7 | | 'amf: no form FarReference node 65536 value 0' 0A | 1048576 1000 | 0 | |
canon --to amf0 | 09 88 80 03 01 + 65536*09 01 01 + 09 88 80 00 | 7 | | 'amf: no form FarReference node 65536 value 0' 0A | 1048576 | 9 | |
",
};

#[test]
fn long_values_without_amf_0(rt: HostRuntime) {
    check_rows(&rt, rt.alloc(), &TOO_MUCH);
}

/// More arrays of AMF 0 within one another than a stack of calls has room for.
static VERY_MANY: Table = Table {
    rows: 1,
    fields: 9,
    text: "
canon --from=amf0 | 1000000*0A 00 00 00 01 + 05 | 0 | 1000000*0A 00 00 00 01 + 05 | | 65536 | 0 | |
",
};

#[test]
fn very_many_arrays_of_amf_0(rt: HostRuntime) {
    check_rows(&rt, rt.alloc(), &VERY_MANY);
}
