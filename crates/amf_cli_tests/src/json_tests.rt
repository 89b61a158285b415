use crate::runs::check_rows;
use amf_test_rows::Table;

/// A save, a call and an array that holds itself, each by lines and compact; the double 5 of AMF 3, of AMF 0, and an integer in AMF 0,
/// which is told as a double; and inputs that are refused.
static TEXTS: Table = Table {
    rows: 11,
    fields: 5,
    text: r#"
json --from sol | 00 BF 00 00 00 96 'TCSO' 00 04 00 00 00 00 00 05 'save1' 00 00 00 00 00 06 'player' 03 00 04 'name' 02 00 07 'Zoe "Z"' 00 04 'gold' 00 40 B3 88 00 00 00 00 00 00 01 78 00 C0 28 80 00 00 00 00 00 00 03 'bag' 0A 00 00 00 03 02 00 05 'sword' 00 40 00 00 00 00 00 00 00 05 00 00 09 00 00 06 'volume' 00 3F E9 99 99 99 99 99 9A 00 00 04 'seen' 01 01 00 00 04 'last' 0B 42 78 BC FE 56 80 00 00 00 00 00 | 0 | '{' 0A '  "amf": "sol",' 0A '  "name": "save1",' 0A '  "pairs": {' 0A '    "last": {' 0A '      "$date": 1700000000000' 0A '    },' 0A '    "player": {' 0A '      "bag": [' 0A '        "sword",' 0A '        2,' 0A '        null' 0A '      ],' 0A '      "gold": 5000,' 0A '      "name": "Zoe \"Z\"",' 0A '      "x": -12.25' 0A '    },' 0A '    "seen": true,' 0A '    "volume": 0.8' 0A '  },' 0A '  "version": 0' 0A '}' 0A |
json --layout compact --from=sol | 00 BF 00 00 00 96 'TCSO' 00 04 00 00 00 00 00 05 'save1' 00 00 00 00 00 06 'player' 03 00 04 'name' 02 00 07 'Zoe "Z"' 00 04 'gold' 00 40 B3 88 00 00 00 00 00 00 01 78 00 C0 28 80 00 00 00 00 00 00 03 'bag' 0A 00 00 00 03 02 00 05 'sword' 00 40 00 00 00 00 00 00 00 05 00 00 09 00 00 06 'volume' 00 3F E9 99 99 99 99 99 9A 00 00 04 'seen' 01 01 00 00 04 'last' 0B 42 78 BC FE 56 80 00 00 00 00 00 | 0 | '{"amf":"sol","name":"save1","pairs":{"last":{"$date":1700000000000},"player":{"bag":["sword",2,null],"gold":5000,"name":"Zoe \"Z\"","x":-12.25},"seen":true,"volume":0.8},"version":0}' 0A |
json --from packet --layout=lines | 00 00 00 00 00 01 00 09 'echo.echo' 00 02 '/1' 00 00 00 0A 0A 00 00 00 01 02 00 02 'hi' | 0 | '{' 0A '  "amf": "packet",' 0A '  "headers": [],' 0A '  "messages": [' 0A '    {' 0A '      "form": "plain",' 0A '      "response": "/1",' 0A '      "root": [' 0A '        "hi"' 0A '      ],' 0A '      "target": "echo.echo"' 0A '    }' 0A '  ],' 0A '  "version": 0' 0A '}' 0A |
json --from=packet --layout compact | 00 00 00 00 00 01 00 09 'echo.echo' 00 02 '/1' 00 00 00 0A 0A 00 00 00 01 02 00 02 'hi' | 0 | '{"amf":"packet","headers":[],"messages":[{"form":"plain","response":"/1","root":["hi"],"target":"echo.echo"}],"version":0}' 0A |
json | 09 03 01 09 00 | 0 | '{' 0A '  "amf": "amf3",' 0A '  "nodes": {' 0A '    "0": [' 0A '      {' 0A '        "$node": "0"' 0A '      }' 0A '    ]' 0A '  },' 0A '  "root": {' 0A '    "$node": "0"' 0A '  }' 0A '}' 0A |
json --layout=compact | 09 03 01 09 00 | 0 | '{"amf":"amf3","nodes":{"0":[{"$node":"0"}]},"root":{"$node":"0"}}' 0A |
json --layout compact | 05 40 14 00 00 00 00 00 00 | 0 | '{"amf":"amf3","root":{"$double":5}}' 0A |
json --from amf0 --layout compact | 00 40 14 00 00 00 00 00 00 | 0 | '{"amf":"amf0","root":5}' 0A |
json --from amf0 --layout compact | 0A 00 00 00 01 11 04 05 | 0 | '{"amf":"amf0","root":[5]}' 0A |
json | 12 | 1 | | 'amf: refused BadMarker at 0' 0A
json --from sol | 00 BE | 1 | | 'amf: refused BadSignature at 0' 0A
"#,
};

#[test]
fn json_texts(rt: HostRuntime) {
    check_rows(&rt, rt.alloc(), &TEXTS);
}
