use crate::runs::check_rows;
use amf_test_rows::Table;

/// A file `t` of AMF 0 with `a`, which is true; one of AMF 3 with two pairs of one array, `b` before `a`; one of AMF 3 with a pair
/// without a name, and `"`; one of AMF 0 with an integer, which becomes a double; and one with a byte array, of which AMF 0 has none.
static FILES: Table = Table {
    rows: 10,
    fields: 5,
    text: r#"
canon --from sol | 00 BF 00 00 00 17 'TCSO' 00 04 00 00 00 00 00 01 74 00 00 00 00 00 01 61 01 01 00 | 0 | 00 BF 00 00 00 17 'TCSO' 00 04 00 00 00 00 00 01 74 00 00 00 00 00 01 61 01 01 00 |
check --from=sol | 00 BF 00 00 00 17 'TCSO' 00 04 00 00 00 00 00 01 74 00 00 00 00 00 01 61 01 01 00 | 0 | 'ok nodes 1' 0A |
show --from sol | 00 BF 00 00 00 17 'TCSO' 00 04 00 00 00 00 00 01 74 00 00 00 00 00 01 61 01 01 00 | 0 | 'sol "t" 0' 0A 'root #0' 0A '#0 object "" sealed {} dynamic {"a"=true}' 0A |
canon --from sol | 00 BF 00 00 00 1C 'TCSO' 00 04 00 00 00 00 00 01 74 00 00 00 03 03 62 09 01 01 00 03 61 09 00 00 | 0 | 00 BF 00 00 00 1C 'TCSO' 00 04 00 00 00 00 00 01 74 00 00 00 03 03 61 09 01 01 00 03 62 09 00 00 |
check --from=sol | 00 BF 00 00 00 1C 'TCSO' 00 04 00 00 00 00 00 01 74 00 00 00 03 03 62 09 01 01 00 03 61 09 00 00 | 0 | 'ok nodes 2' 0A |
canon --from sol | 00 BF 00 00 00 14 'TCSO' 00 04 00 00 00 00 00 01 22 00 00 00 03 01 01 00 | 0 | 00 BF 00 00 00 14 'TCSO' 00 04 00 00 00 00 00 01 22 00 00 00 03 01 01 00 |
show --from sol | 00 BF 00 00 00 14 'TCSO' 00 04 00 00 00 00 00 01 22 00 00 00 03 01 01 00 | 0 | 'sol "\22" 3' 0A 'root #0' 0A '#0 object "" sealed {} dynamic {""=null}' 0A |
canon --from sol | 00 BF 00 00 00 18 'TCSO' 00 04 00 00 00 00 00 01 74 00 00 00 00 00 01 61 11 04 05 00 | 0 | 00 BF 00 00 00 1E 'TCSO' 00 04 00 00 00 00 00 01 74 00 00 00 00 00 01 61 00 40 14 00 00 00 00 00 00 00 |
canon --from sol | 00 BF 00 00 00 19 'TCSO' 00 04 00 00 00 00 00 01 74 00 00 00 00 00 01 61 11 0C 03 FF 00 | 7 | | 'amf: no form NoForm node 1 value 0' 0A
check --from=sol | 00 BF 00 00 00 19 'TCSO' 00 04 00 00 00 00 00 01 74 00 00 00 00 00 01 61 11 0C 03 FF 00 | 0 | 'ok nodes 2' 0A |
"#,
};

#[test]
fn files(rt: HostRuntime) {
    check_rows(&rt, rt.alloc(), &FILES);
}

/// Files that are refused.
static REFUSED: Table = Table {
    rows: 18,
    fields: 5,
    text: r#"
canon --from sol | | 1 | | 'amf: refused Truncated at 0' 0A
show --from sol | | 1 | | 'amf: refused Truncated at 0' 0A
canon --from sol | 00 BE | 1 | | 'amf: refused BadSignature at 0' 0A
show --from sol | 00 BE | 1 | | 'amf: refused BadSignature at 0' 0A
canon --from sol | 00 BF 00 00 00 11 'TCSO' 00 05 00 00 00 00 | 1 | | 'amf: refused BadSignature at 6' 0A
show --from sol | 00 BF 00 00 00 11 'TCSO' 00 05 00 00 00 00 | 1 | | 'amf: refused BadSignature at 6' 0A
canon --from sol | 00 BF 00 00 00 11 'TCSO' 00 04 00 00 00 00 00 01 FF | 1 | | 'amf: refused BadText at 18' 0A
show --from sol | 00 BF 00 00 00 11 'TCSO' 00 04 00 00 00 00 00 01 FF | 1 | | 'amf: refused BadText at 18' 0A
canon --from sol | 00 BF 00 00 00 11 'TCSO' 00 04 00 00 00 00 00 00 00 01 00 | 1 | | 'amf: refused BadPadding at 18' 0A
show --from sol | 00 BF 00 00 00 11 'TCSO' 00 04 00 00 00 00 00 00 00 01 00 | 1 | | 'amf: refused BadPadding at 18' 0A
canon --from sol | 00 BF 00 00 00 11 'TCSO' 00 04 00 00 00 00 00 00 00 00 00 01 | 1 | | 'amf: refused BadVersion at 21' 0A
show --from sol | 00 BF 00 00 00 11 'TCSO' 00 04 00 00 00 00 00 00 00 00 00 01 | 1 | | 'amf: refused BadVersion at 21' 0A
# The length counts one byte more than there are.
canon --from sol | 00 BF 00 00 00 18 'TCSO' 00 04 00 00 00 00 00 01 74 00 00 00 00 00 01 61 01 01 00 | 1 | | 'amf: refused BadLength at 2' 0A
show --from sol | 00 BF 00 00 00 18 'TCSO' 00 04 00 00 00 00 00 01 74 00 00 00 00 00 01 61 01 01 00 | 1 | | 'amf: refused BadLength at 2' 0A
# So does this, but the 0 behind the pair is looked at before.
canon --from sol | 00 BF 00 00 00 18 'TCSO' 00 04 00 00 00 00 00 01 74 00 00 00 00 00 01 61 01 01 01 | 1 | | 'amf: refused BadPadding at 28' 0A
show --from sol | 00 BF 00 00 00 18 'TCSO' 00 04 00 00 00 00 00 01 74 00 00 00 00 00 01 61 01 01 01 | 1 | | 'amf: refused BadPadding at 28' 0A
# The input ends inside a pair.
canon --from sol | 00 BF 00 00 00 17 'TCSO' 00 04 00 00 00 00 00 01 74 00 00 00 00 00 01 61 01 | 1 | | 'amf: refused Truncated at 27' 0A
show --from sol | 00 BF 00 00 00 17 'TCSO' 00 04 00 00 00 00 00 01 74 00 00 00 00 00 01 61 01 | 1 | | 'amf: refused Truncated at 27' 0A
"#,
};

#[test]
fn refused_files(rt: HostRuntime) {
    check_rows(&rt, rt.alloc(), &REFUSED);
}
