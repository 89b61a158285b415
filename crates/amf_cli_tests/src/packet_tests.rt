use crate::runs::check_rows;
use amf_test_rows::Table;

/// A call of `echo.echo` with `["hi"]`, whose length is told; a header that must be understood, and a call of null in AMF 3; and a
/// header with a message of which the second value lacks a spelling, by its second node.
static PACKETS: Table = Table {
    rows: 11,
    fields: 5,
    text: r#"
canon --from packet | 00 00 00 00 00 01 00 09 'echo.echo' 00 02 '/1' 00 00 00 0A 0A 00 00 00 01 02 00 02 'hi' | 0 | 00 00 00 00 00 01 00 09 'echo.echo' 00 02 '/1' FF FF FF FF 0A 00 00 00 01 02 00 02 'hi' |
check --from=packet | 00 00 00 00 00 01 00 09 'echo.echo' 00 02 '/1' 00 00 00 0A 0A 00 00 00 01 02 00 02 'hi' | 0 | 'ok nodes 1' 0A |
show --from packet | 00 00 00 00 00 01 00 09 'echo.echo' 00 02 '/1' 00 00 00 0A 0A 00 00 00 01 02 00 02 'hi' | 0 | 'packet 0' 0A 'message "echo.echo" "/1" plain' 0A 'root #0' 0A '#0 array ["hi"] {}' 0A |
canon --from packet | 00 03 00 01 00 01 68 07 00 00 00 00 05 00 01 00 01 74 00 00 00 00 00 00 0A 00 00 00 01 11 01 | 0 | 00 03 00 01 00 01 68 01 FF FF FF FF 05 00 01 00 01 74 00 00 FF FF FF FF 0A 00 00 00 01 11 01 |
check --from=packet | 00 03 00 01 00 01 68 07 00 00 00 00 05 00 01 00 01 74 00 00 00 00 00 00 0A 00 00 00 01 11 01 | 0 | 'ok nodes 0' 0A |
show --from packet | 00 03 00 01 00 01 68 07 00 00 00 00 05 00 01 00 01 74 00 00 00 00 00 00 0A 00 00 00 01 11 01 | 0 | 'packet 3' 0A 'header "h" 1' 0A 'root null' 0A 'message "t" "" call' 0A 'root null' 0A |
canon --from packet | 00 00 00 01 00 01 68 00 00 00 00 00 05 00 01 00 00 00 00 00 00 00 00 0A 00 00 00 02 11 01 03 00 00 05 00 00 09 | 7 | | 'amf: no form EmptyName node 1 value 1' 0A
check --from=packet | 00 00 00 01 00 01 68 00 00 00 00 00 05 00 01 00 00 00 00 00 00 00 00 0A 00 00 00 02 11 01 03 00 00 05 00 00 09 | 0 | 'ok nodes 2' 0A |
canon --from packet | 00 02 | 1 | | 'amf: refused BadVersion at 0' 0A
check --from=packet | 00 00 00 00 00 | 1 | | 'amf: refused Truncated at 4' 0A
show --from packet | 00 00 00 00 00 00 00 | 1 | | 'amf: refused Trailing at 6' 0A
"#,
};

#[test]
fn packets(rt: HostRuntime) {
    check_rows(&rt, rt.alloc(), &PACKETS);
}
