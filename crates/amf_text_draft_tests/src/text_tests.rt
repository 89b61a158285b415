use crate::told::told;
use amf_test_rows::{Row, Table};
use std::alloc::Global;
use std::process::Abort;

/// A text, and what it means: a save, a call, and values of AMF 3 of each kind that differs.
static WORKED: Table = Table {
    rows: 10,
    fields: 2,
    text: r#"
{"amf":"sol","name":"save1","pairs":{"last":{"$date":1700000000000},"player":{"bag":["sword",2,null],"gold":5000,"name":"Zoe \"Z\"","x":-12.25},"seen":true,"volume":0.8},"version":0} | sol "save1" 0; root #0; #0 object "" dynamic [] [] {"last"=#1, "player"=#2, "seen"=true, "volume"=d3fe999999999999a}; #1 date d4278bcfe56800000; #2 object "" dynamic [] [] {"bag"=#3, "gold"=5000, "name"="Zoe \22Z\22", "x"=dc028800000000000}; #3 array ["sword", 2, null] {};
{"amf":"packet","headers":[],"messages":[{"form":"call","response":"/1","root":{"$class":"flex.messaging.messages.RemotingMessage","$names":["body","operation","destination","timestamp"],"$sealed":{"body":[2,{"$double":3}],"destination":"calculator","operation":"add","timestamp":{"$double":0}}},"target":"null"}],"version":3} | packet 3; message "null" "/1" call; root #0; #0 object "flex.messaging.messages.RemotingMessage" sealed ["body", "operation", "destination", "timestamp"] [#1, "add", "calculator", d0000000000000000] {}; #1 array [2, d4008000000000000] {};
{"amf":"amf3","nodes":{"0":{"n":1,"self":{"$node":"0"}}},"root":{"$node":"0"}} | amf3; root #0; #0 object "" dynamic [] [] {"n"=1, "self"=#0};
{"amf":"amf3","nodes":{"1":{"hp":7}},"root":[{"$node":"1"},{"$node":"1"}]} | amf3; root #1; #0 object "" dynamic [] [] {"hp"=7}; #1 array [#0, #0] {};
{"amf":"amf3","root":{"$class":"game.Player","$dynamic":[["$tag",{"$undefined":true}],["a",1],["a",2]],"$names":["y","x"],"$sealed":{"x":{"$double":4},"y":3}}} | amf3; root #0; #0 object "game.Player" dynamic ["y", "x"] [3, d4010000000000000] {"$tag"=undefined, "a"=1, "a"=2};
{"amf":"amf3","root":[{"$fixed":true,"$ints":[-2,30]},{"$doubles":[1.5,"-0",0]},{"$type":"game.Item","$values":[null,2.5]}]} | amf3; root #0; #0 array [#1, #2, #3] {}; #1 ints fixed [-2, 30]; #2 doubles open [d3ff8000000000000, d8000000000000000, d0000000000000000]; #3 values open "game.Item" [null, d4004000000000000];
{"amf":"amf3","nodes":{"1":[]},"root":{"$dictionary":[["k",{"$node":"1"}],[{"$node":"1"},null]],"$weak":true}} | amf3; root #1; #0 array [] {}; #1 dictionary weak {"k"=#0, #0=null};
{"amf":"amf3","root":{"$array":["\n"],"$names":{"raw":{"$bytes":"00af"}}}} | amf3; root #0; #0 array ["\0a"] {"raw"=#1}; #1 bytes x00af;
{"amf":"amf3","root":{"$date":-1.5}} | amf3; root #0; #0 date dbff8000000000000;
{"amf":"amf3","root":[{"$double":"NaN"},{"$double":"fff8000000000000"},{"$double":"Infinity"},{"$double":"-0"},{"$double":5},268435456,{"$text":"eda080"}]} | amf3; root #0; #0 array [d7ff8000000000000, dfff8000000000000, d7ff0000000000000, d8000000000000000, d4014000000000000, d41b0000000000000, "\ed\a0\80"] {};
"#,
};

/// A text, and what it means.
static MEANT: Table = Table {
    rows: 16,
    fields: 2,
    text: r#"
# Each kind of node. What stands in an array comes before what its names hold, and dynamic members before sealed ones.
{"amf":"amf3","root":[{"$array":[[]],"$names":{"n":[1]}},{"$ArrayCollection":[]},{"$ArrayList":null},{"$ObjectProxy":{"a":1}},{"$xmldoc":"<a/>"},{"$xml":""}]} | amf3; root #0; #0 array [#1, #4, #6, #7, #9, #10] {}; #1 array [#2] {"n"=#3}; #2 array [] {}; #3 array [1] {}; #4 ArrayCollection #5; #5 array [] {}; #6 ArrayList null; #7 ObjectProxy #8; #8 object "" dynamic [] [] {"a"=1}; #9 xmldoc "<a/>"; #10 xml "";
{"amf":"amf3","root":[{"$date":"-0"},{"$bytes":"00aFfF"},{"$dictionary":[[[],{"$text":"41"}],[false,[]]],"$weak":false},{"$dictionary":[]}]} | amf3; root #0; #0 array [#1, #2, #3, #6] {}; #1 date d8000000000000000; #2 bytes x00afff; #3 dictionary {#4="A", false=#5}; #4 array [] {}; #5 array [] {}; #6 dictionary {};
{"amf":"amf3","root":[{"$fixed":true,"$ints":[-2147483648,2147483647]},{"$ints":[]},{"$fixed":false,"$uints":[0,4294967295]},{"$doubles":["NaN","7fF8000000000001"],"$fixed":true},{"$fixed":true,"$type":"","$values":[[],true]}]} | amf3; root #0; #0 array [#1, #2, #3, #4, #5] {}; #1 ints fixed [-2147483648, 2147483647]; #2 ints open []; #3 uints open [0, 4294967295]; #4 doubles fixed [d7ff8000000000000, d7ff8000000000001]; #5 values fixed "" [#6, true]; #6 array [] {};
{"amf":"amf3","root":[{"$class":"C","$dynamic":{"d":[]},"$names":["b","a"],"$sealed":{"a":[1],"b":[2]}},{"$class":"C","$sealed":[["b",1],["a",2]]},{"$class":"C"},{"$class":"","$dynamic":{}}]} | amf3; root #0; #0 array [#1, #5, #6, #7] {}; #1 object "C" dynamic ["b", "a"] [#4, #3] {"d"=#2}; #2 array [] {}; #3 array [1] {}; #4 array [2] {}; #5 object "C" sealed ["b", "a"] [1, 2] {}; #6 object "C" sealed [] [] {}; #7 object "" dynamic [] [] {};
# Labels are any texts. Rows may call one another, and one is not called.
{"amf":"amf3","nodes":{"":[{"$node":"y"}],"y":{"up":{"$node":""}},"1":[7]},"root":{"$node":"y"}} | amf3; root #1; #0 array [#1] {}; #1 object "" dynamic [] [] {"up"=#0}; #2 array [7] {};
{"amf":"amf0","root":{"b":2,"a":[5,null,0.5]}} | amf0; root #0; #0 object "" dynamic [] [] {"b"=2, "a"=#1}; #1 array [5, null, d3fe0000000000000] {};
{"amf":"sol","name":{"$text":"c080"},"nodes":{"1":[]},"pairs":[[{"$text":"eda080"},{"$node":"1"}],["a",{"$node":"1"}]],"version":3} | sol "\c0\80" 3; root #1; #0 array [] {}; #1 object "" dynamic [] [] {"\ed\a0\80"=#0, "a"=#0};
{"amf":"sol","name":"","pairs":{},"version":0.0} | sol "" 0; root #0; #0 object "" dynamic [] [] {};
# Each header and message has rows of its own.
{"amf":"packet","headers":[{"form":"plain","must":true,"name":"h","nodes":{"0":{}},"root":{"$node":"0"}},{"form":"amf3","must":false,"name":"","root":true}],"messages":[{"form":"call","nodes":{"0":[]},"response":"/1","root":[{"$node":"0"}],"target":"t"},{"form":"amf3","response":"","root":null,"target":{"$text":"c080"}}],"version":1} | packet 1; header "h" must plain; root #0; #0 object "" dynamic [] [] {}; header "" amf3; root true; message "t" "/1" call; root #1; #0 array [] {}; #1 array [#0] {}; message "\c0\80" "" amf3; root null;
# Equal names.
{"amf":"amf3","root":[{"a":1,"b":2,"a":3},{"$array":[],"$names":{"a":1,"a":2}},{"$class":"C","$dynamic":{"a":1,"a":2},"$sealed":[["s",3],["s",4]]}]} | amf3; root #0; #0 array [#1, #2, #3] {}; #1 object "" dynamic [] [] {"a"=1, "b"=2, "a"=3}; #2 array [] {"a"=1, "a"=2}; #3 object "C" dynamic ["s", "s"] [3, 4] {"a"=1, "a"=2};
# Names and texts that are no UTF-8; names that begin as words with a meaning do.
{"amf":"amf3","root":{"$class":{"$text":"EDa080"},"$dynamic":[[{"$text":"c080"},{"$text":""}],["$node","é"]]}} | amf3; root #0; #0 object "\ed\a0\80" dynamic [] [] {"\c0\80"="", "$node"="\c3\a9"};
# Escapes, also in keys.
{"amf":"amf3","root":{"\u0061\n":"\u0041\"\\\/\b\f\n\r\t\u0000\u00e9\ud83d\ude00"}} | amf3; root #0; #0 object "" dynamic [] [] {"a\0a"="A\22\5c/\08\0c\0a\0d\09\00\c3\a9\f0\9f\98\80"};
{"\u0061mf":"amf\u0033","root":{"\u0024date":0}} | amf3; root #0; #0 date d0000000000000000;
# Numbers by their values: integers of AMF 3 from -2^28 to 2^28-1, but no minus zero.
{"amf":"amf3","root":[5.0,5e0,0.5E1,-0,-0.0,268435455,268435456,-268435456,-268435457,1e15,1E-400,0.1]} | amf3; root #0; #0 array [5, 5, 5, d8000000000000000, d8000000000000000, 268435455, d41b0000000000000, -268435456, dc1b0000001000000, d430c6bf526340000, 0, d3fb999999999999a] {};
{"amf":"amf3","root":[{"$double":"-Infinity"},{"$double":"7FF0000000000001"},{"$double":"4014000000000000"},{"$double":5e0},{"$undefined":true}]} | amf3; root #0; #0 array [dfff0000000000000, d7ff0000000000001, d4014000000000000, d4014000000000000, undefined] {};
{ "amf" : "amf3" , "root" : [ ] } | amf3; root #0; #0 array [] {};
"#,
};

/// Bytes, as `parts` of a row reads them, and what they mean: numbers of hundreds of digits, and white space.
static MEANT_BYTES: Table = Table {
    rows: 4,
    fields: 2,
    text: r#"
'{"amf":"amf3","root":0.' + 400*'1' + '}' | amf3; root d3fbc71c71c71c71c;
'{"amf":"amf3","root":5' + 399*'0' + '.' + 9*'0' + 'e-399}' | amf3; root 5;
'{"amf":"amf3","root":1' + 308*'0' + '}' | amf3; root d7fe1ccf385ebc8a0;
0d0a '{' 09 '"amf":"amf3",' 0a '"root":' 0a '"' c3a9 '"' 20 '}' 0d0a | amf3; root "\c3\a9";
"#,
};

/// A text, and why it is refused.
static REFUSED: Table = Table {
    rows: 17,
    fields: 2,
    text: r#"
 | Truncated at 0 line 1 column 1
{"amf":"amf3","root":[ | Truncated at 22 line 1 column 23
{"amf":"amf3","root":[1 2]} | NotJson at 24 line 1 column 25
{"amf":"amf3","root":"\ud800"} | NotJson at 21 line 1 column 22
{"root":1,"amf":"amf3"} | BadKey at 1 line 1 column 2
{"amf":"amf3","root":{"$class":"C","$sealed":{"a":1,"a":2}}} | BadKey at 52 line 1 column 53
{"amf":"amf3","root":{"$bytes":[]}} | BadShape at 31 line 1 column 32
{"amf":"amf3","root":{"$ints":[2147483648]}} | BadNumber at 31 line 1 column 32
{"amf":"packet","headers":[],"messages":[],"version":2} | BadNumber at 53 line 1 column 54
{"amf":"amf3","root":{"$bytes":"0g"}} | BadHex at 31 line 1 column 32
{"amf":"amf3","root":{"$text":"c0"}} | BadText at 30 line 1 column 31
{"amf":"amf3","nodes":{"1":[],"2":[],"1":[]},"root":1} | SameLabel at 37 line 1 column 38
{"amf":"amf3","root":1}1 | Trailing at 23 line 1 column 24
# The second of two calls; one in a row that is not called; one in a message, of which a header has a row; both of two.
{"amf":"amf3","nodes":{"1":[]},"root":[{"$node":"1"},{"$node":"2"}]} | NoLabel at 62 line 1 column 63
{"amf":"amf3","nodes":{"0":[{"$node":"7"}]},"root":1} | NoLabel at 37 line 1 column 38
{"amf":"packet","headers":[{"form":"plain","must":true,"name":"h","nodes":{"a":[]},"root":{"$node":"a"}}],"messages":[{"form":"plain","response":"","root":[{"$node":"a"}],"target":""}],"version":0} | NoLabel at 165 line 1 column 166
{"amf":"amf3","root":{"$dictionary":[[{"$node":"k"},{"$node":"v"}]]}} | NoLabel at 47 line 1 column 48
"#,
};

/// Bytes, as `parts` of a row reads them, and why they are refused.
static REFUSED_BYTES: Table = Table {
    rows: 5,
    fields: 2,
    text: r#"
'{"amf":"amf3",' 0a '"root":"' ff '"}' | NotUtf8 at 23 line 2 column 9
'{"amf":"amf3",' 0d0a '"root":' + 400*'9' + '}' | BadNumber at 23 line 2 column 8
'{"amf":"sol","name":"' + 65536*'a' + '","pairs":{},"version":0}' | LongText at 20 line 1 column 21
'{"amf":"packet","headers":[' + 65535*'{"form":"plain","must":true,"name":"","root":1},' + '{' | TooMany at 3145707 line 1 column 3145708
'{"amf":"amf3",' 0a '"root":' 0a '{"$node":' 0a '"7"}}' 0a | NoLabel at 33 line 4 column 1
"#,
};

fn is_told(rt: &impl Abort, alloc: Global, row: Row<'_>, text: &[u8]) {
    let line = row.line();
    let want = row.field(1).expect(rt, "what it means");
    let told = told(rt, alloc, text);
    assert!(rt; told.trim() == want, "line {line}: {told}");
}

fn check_texts(rt: &impl Abort, alloc: Global, table: &Table) {
    for row in table.rows(alloc).expect(rt, "rows").iter() {
        let text = row.field(0).expect(rt, "a text");
        is_told(rt, alloc, *row, text.as_bytes());
    }
}

fn check_bytes(rt: &impl Abort, alloc: Global, table: &Table) {
    for row in table.rows(alloc).expect(rt, "rows").iter() {
        let text = row.parts(alloc, 0).expect(rt, "a text");
        is_told(rt, alloc, *row, &text);
    }
}

#[test]
fn reads_worked_texts(rt: HostRuntime) {
    check_texts(&rt, rt.alloc(), &WORKED);
}

#[test]
fn reads_texts(rt: HostRuntime) {
    check_texts(&rt, rt.alloc(), &MEANT);
    check_bytes(&rt, rt.alloc(), &MEANT_BYTES);
}

#[test]
fn refuses_texts(rt: HostRuntime) {
    check_texts(&rt, rt.alloc(), &REFUSED);
    check_bytes(&rt, rt.alloc(), &REFUSED_BYTES);
}

#[test]
fn refuses_a_text_past_the_most(rt: HostRuntime) {
    let mut text = Vec::new(rt.alloc());
    text.resize(268_435_457, b' ').expect(&rt, "memory");
    let told = told(&rt, rt.alloc(), &text);
    assert!(rt;
        told.as_str() == "TooLarge at 268435456 line 1 column 268435457",
        "{told}"
    );
}
