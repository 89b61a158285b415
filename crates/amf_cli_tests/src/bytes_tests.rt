use crate::runs::check_rows;
use amf_test_rows::Table;

/// A save, a call, and values of AMF 3 and AMF 0 of each kind that differs; texts with white space, escapes, numbers in another
/// spelling, labels of any kind and the longer forms; texts that are refused; and what has no spelling in its form.
static BYTES: Table = Table {
    rows: 36,
    fields: 5,
    text: r#"
bytes | '{"amf":"sol","name":"save1","pairs":{"last":{"$date":1700000000000},"player":{"bag":["sword",2,null],"gold":5000,"name":"Zoe \"Z\"","x":-12.25},"seen":true,"volume":0.8},"version":0}' 0A | 0 | 00 BF 00 00 00 96 'TCSO' 00 04 00 00 00 00 00 05 'save1' 00 00 00 00 00 04 'last' 0B 42 78 BC FE 56 80 00 00 00 00 00 00 06 'player' 03 00 03 'bag' 0A 00 00 00 03 02 00 05 'sword' 00 40 00 00 00 00 00 00 00 05 00 04 'gold' 00 40 B3 88 00 00 00 00 00 00 04 'name' 02 00 07 'Zoe "Z"' 00 01 78 00 C0 28 80 00 00 00 00 00 00 00 09 00 00 04 'seen' 01 01 00 00 06 'volume' 00 3F E9 99 99 99 99 99 9A 00 |
bytes | '{"amf":"packet","headers":[],"messages":[{"form":"call","response":"/1","root":{"$class":"flex.messaging.messages.RemotingMessage","$names":["body","operation","destination","timestamp"],"$sealed":{"body":[2,{"$double":3}],"destination":"calculator","operation":"add","timestamp":{"$double":0}}},"target":"null"}],"version":3}' 0A | 0 | 00 03 00 00 00 01 00 04 'null' 00 02 2F 31 FF FF FF FF 0A 00 00 00 01 11 0A 'COflex.messaging.messages.RemotingMessage' 09 'body' 13 'operation' 17 'destination' 13 'timestamp' 09 05 01 04 02 05 40 08 00 00 00 00 00 00 06 07 'add' 06 15 'calculator' 05 00 00 00 00 00 00 00 00 |
bytes | '{"amf":"amf3","nodes":{"0":{"n":1,"self":{"$node":"0"}}},"root":{"$node":"0"}}' 0A | 0 | 0A 0B 01 03 6E 04 01 09 'self' 0A 00 01 |
bytes | '{"amf":"amf3","nodes":{"1":{"hp":7}},"root":[{"$node":"1"},{"$node":"1"}]}' 0A | 0 | 09 05 01 0A 0B 01 05 68 70 04 07 01 0A 02 |
bytes | '{"amf":"amf3","root":{"$class":"game.Player","$dynamic":[["$tag",{"$undefined":true}],["a",1],["a",2]],"$names":["y","x"],"$sealed":{"x":{"$double":4},"y":3}}}' 0A | 0 | 0A 2B 17 'game.Player' 03 79 03 78 04 03 05 40 10 00 00 00 00 00 00 09 '$tag' 00 03 61 04 01 08 04 02 01 |
bytes | '{"amf":"amf3","root":[{"$fixed":true,"$ints":[-2,30]},{"$doubles":[1.5,"-0",0]},{"$type":"game.Item","$values":[null,2.5]}]}' 0A | 0 | 09 07 01 0D 05 01 FF FF FF FE 00 00 00 1E 0F 07 00 3F F8 00 00 00 00 00 00 80 00 00 00 00 00 00 00 00 00 00 00 00 00 00 00 10 05 00 13 'game.Item' 01 05 40 04 00 00 00 00 00 00 |
bytes | '{"amf":"amf3","nodes":{"1":[]},"root":{"$dictionary":[["k",{"$node":"1"}],[{"$node":"1"},null]],"$weak":true}}' 0A | 0 | 11 05 01 06 03 6B 09 01 01 09 02 01 |
bytes | '{"amf":"amf3","root":{"$array":["\n"],"$names":{"raw":{"$bytes":"00af"}}}}' 0A | 0 | 09 03 07 'raw' 0C 05 00 AF 01 06 03 0A |
bytes | '{"amf":"amf3","root":{"$date":-1.5}}' 0A | 0 | 08 01 BF F8 00 00 00 00 00 00 |
bytes | '{"amf":"amf3","root":[{"$double":"NaN"},{"$double":"fff8000000000000"},{"$double":"Infinity"},{"$double":"-0"},{"$double":5},268435456,{"$text":"eda080"}]}' 0A | 0 | 09 0F 01 05 7F F8 00 00 00 00 00 00 05 FF F8 00 00 00 00 00 00 05 7F F0 00 00 00 00 00 00 05 80 00 00 00 00 00 00 00 05 40 14 00 00 00 00 00 00 05 41 B0 00 00 00 00 00 00 06 07 ED A0 80 |
bytes | '{"amf":"amf0","root":{"b":2,"a":[5,null]}}' | 0 | 03 00 01 'a' 0A 00 00 00 02 00 40 14 00 00 00 00 00 00 05 00 01 'b' 00 40 00 00 00 00 00 00 00 00 00 09 |
bytes | '{ "amf" : "amf3",' 0A '"root" : [ 5.0e0 , "\u0041" ] }' 0D 0A | 0 | 09 05 01 04 05 06 03 'A' |
bytes | '{"amf":"amf3","nodes":{"x":["q"],"any":{"$bytes":"00Af"}},"root":[{"$text":"41"},{"$node":"any"},{"$double":"3FF8000000000000"},{"$array":[],"$names":[]},{"$fixed":false,"$ints":[5.0]},{"$class":"","$dynamic":[["a",1],["a",2]]},{"$dictionary":[],"$weak":false}]}' | 0 | 09 0F 01 06 03 'A' 0C 05 00 AF 05 3F F8 00 00 00 00 00 00 09 01 01 0D 03 00 00 00 00 05 0A 0B 01 03 'a' 04 01 02 04 02 01 11 01 00 |
bytes | '{"amf":"amf3","root":{"b":1,"a":2,"b":3}}' | 0 | 0A 0B 01 03 'a' 04 02 03 'b' 04 01 02 04 03 01 |
bytes | '{"amf":"packet","headers":[{"form":"plain","must":true,"name":"h","nodes":{"1":[]},"root":[{"$node":"1"},{"$node":"1"}]}],"messages":[{"form":"amf3","nodes":{"1":[]},"response":"","root":{"$node":"1"},"target":"t"}],"version":0}' | 0 | 00 00 00 01 00 01 'h' 01 FF FF FF FF 0A 00 00 00 02 0A 00 00 00 00 07 00 01 00 01 00 01 't' 00 00 FF FF FF FF 11 09 01 01 |
bytes | '{"amf":"sol","name":"s","pairs":{"x":1,"y":{"$double":1}},"version":3}' | 0 | 00 BF 00 00 00 22 'TCSO' 00 04 00 00 00 00 00 01 's' 00 00 00 03 03 'x' 04 01 00 03 'y' 05 3F F0 00 00 00 00 00 00 00 |
bytes | | 1 | | 'amf: refused Truncated at 0 line 1 column 1' 0A
bytes | '{"amf":"amf3"' | 1 | | 'amf: refused Truncated at 13 line 1 column 14' 0A
bytes | '{"amf":"amf3","root":"' FF '"}' | 1 | | 'amf: refused NotUtf8 at 22 line 1 column 23' 0A
bytes | '{"root":1}' | 1 | | 'amf: refused BadKey at 1 line 1 column 2' 0A
bytes | '[1]' | 1 | | 'amf: refused BadShape at 0 line 1 column 1' 0A
bytes | '{"amf":"amf3",' 0A '"root":{"$bytes":"0g"}}' | 1 | | 'amf: refused BadHex at 32 line 2 column 18' 0A
bytes | '{"amf":"amf3",' 0A '"root":{"$node":"7"}}' | 1 | | 'amf: refused NoLabel at 31 line 2 column 17' 0A
bytes | '{"amf":"amf3","root":1}x' | 1 | | 'amf: refused Trailing at 23 line 1 column 24' 0A
bytes | '{"amf":"amf3","nodes":{"1":[{"$node":"8"}]},"root":{"$node":"9"}}' | 1 | | 'amf: refused NoLabel at 37 line 1 column 38' 0A
bytes | '{"amf":"amf3","root":{"$array":[{"$node":"a"}],"$names":{"b":{"$node":"c"}}}}' | 1 | | 'amf: refused NoLabel at 41 line 1 column 42' 0A
bytes | '{"amf":"packet","headers":[],"messages":[{"form":"amf3","nodes":{"1":[]},"response":"","root":{"$node":"1"},"target":""},{"form":"amf3","response":"","root":{"$node":"1"},"target":""}],"version":0}' | 1 | | 'amf: refused NoLabel at 166 line 1 column 167' 0A
bytes | '{"amf":"amf3","root":{"$node":"7"}}x' | 1 | | 'amf: refused Trailing at 35 line 1 column 36' 0A
bytes | '{"amf":"amf3",' 0D 0A 09 '"root":' 0A 'x}' | 1 | | 'amf: refused NotJson at 25 line 3 column 1' 0A
bytes | '{"amf":"amf3","root":["' C3 A9 '",x]}' | 1 | | 'amf: refused NotJson at 27 line 1 column 28' 0A
bytes | '{"amf":"sol","name":"s","pairs":[],"version":0}' 00 | 1 | | 'amf: refused Trailing at 47 line 1 column 48' 0A
bytes | '{"amf":"amf3","root":{"":1}}' | 7 | | 'amf: no form EmptyName node 0 value 0' 0A
bytes | '{"amf":"amf0","root":{"$ints":[1]}}' | 7 | | 'amf: no form NoForm node 0 value 0' 0A
bytes | '{"amf":"sol","name":"s","pairs":{"x":{"$bytes":"00"}},"version":0}' | 7 | | 'amf: no form NoForm node 1 value 0' 0A
bytes | '{"amf":"amf0","nodes":{"d":{"$date":0}},"root":[{"$node":"d"},{"$node":"d"}]}' | 7 | | 'amf: no form Shared node 1 value 0' 0A
bytes | '{"amf":"packet","headers":[],"messages":[{"form":"plain","response":"","root":1,"target":""},{"form":"plain","response":"","root":{"$bytes":""},"target":""}],"version":0}' | 7 | | 'amf: no form NoForm node 0 value 1' 0A
"#,
};

#[test]
fn bytes_of_texts(rt: HostRuntime) {
    check_rows(&rt, rt.alloc(), &BYTES);
}
