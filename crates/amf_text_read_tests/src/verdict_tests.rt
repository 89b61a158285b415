use amf_test_rows::{Row, Table};
use amf_text::TextReason;
use amf_text_read::{Refusal, text_verdict};
use std::alloc::Global;
use std::process::Abort;

/// Texts that mean something, but for labels that may lead nowhere.
static ACCEPTED: Table = Table {
    rows: 10,
    fields: 1,
    text: r#"
{"amf":"amf3","root":1}
{"amf":"amf3","nodes":{"0":[{"$node":"0"}]},"root":{"$node":"0"}}
{"amf":"amf3","root":{"$node":"2"}}
{"amf":"sol","name":"save1","pairs":{"gold":5000,"name":"Zoe \"Z\""},"version":0}
{"amf":"amf3","root":[{"$fixed":true,"$ints":[-2,30]},{"$doubles":[1.5,"-0",0]},{"$type":"game.Item","$values":[null,2.5]}]}
{"amf":"packet","headers":[],"messages":[{"form":"call","response":"/1","root":[5],"target":"null"}],"version":3}
{"amf":"packet","headers":[{"form":"amf3","must":true,"name":"h","nodes":{"1":[]},"root":{"$node":"1"}}],"messages":[],"version":0}
{"amf":"amf3","root":{"$class":"","$dynamic":{},"$names":["y","x"],"$sealed":{"x":1,"y":2}}}
{"amf":"amf3","root":[{"a":1,"a":2},1]}
{"amf":"amf3","root":[{"$text":"41"},{"$double":"7ff8000000000001"},{"$ints":[5e0]},{"$bytes":"00Af"},{"$dictionary":[],"$weak":false}]}
"#,
};

/// Texts that are refused: at which byte, and in which column of the first line.
static REFUSED: Table = Table {
    rows: 54,
    fields: 4,
    text: r#"
{"amf":"amf3","rood":1}                              | BadKey    | 14 | 15
{"amf":"amf3","root"                                 | Truncated | 14 | 15
{"amf":"amf3",                                       | Truncated | 14 | 15
{"amf":"amf3","root":tru                             | Truncated | 21 | 22
{"amf":"am                                           | Truncated | 7  | 8
{"amf":"amf3","root":"\ud8                           | Truncated | 21 | 22
{"amf":"amf3","root":"\udc                           | NotJson   | 21 | 22
{"amf":"amf3","root":-                               | Truncated | 21 | 22
{"amf":"amf3","root":0x                              | NotJson   | 21 | 22
{"amf":"amf3" "root":1}                              | NotJson   | 14 | 15
{"amf":"amf3","root":True}                           | NotJson   | 21 | 22
{"amf":"amf3","root":1},                             | Trailing  | 23 | 24
{"amf":"amf3","root":{"$data":1}}                    | BadKey    | 22 | 23
{"amf":"amf3","root":{"a":1,2}}                      | BadKey    | 28 | 29
{"amf":"amf4","root":1}                              | BadShape  | 7  | 8
{"amf":"amf3","root":1e999}                          | BadNumber | 21 | 22
{"amf":"amf3","root":{"$ints":[1.5]}}                | BadNumber | 31 | 32
{"amf":"amf3","root":{"$bytes":"0"}}                 | BadHex    | 31 | 32
{"amf":"amf3","root":{"$text":"ff"}}                 | BadText   | 30 | 31
{"amf":"amf3","nodes":{"1":[],"1":[]},"root":1}      | SameLabel | 30 | 31
{"amf":"amf3","root":[1,]}                           | NotJson   | 24 | 25
{"amf":"amf3","root":[1 2]}                          | NotJson   | 24 | 25
{"amf":"amf3",,"root":1}                             | NotJson   | 14 | 15
{:"amf"}                                             | NotJson   | 1 | 2
{"amf":"amf3","root":01}                             | NotJson   | 21 | 22
{"amf":"amf3","root":"\ud83dx"}                      | NotJson   | 21 | 22
{"amf","amf3"}                                       | BadKey    | 1 | 2
{"amf":"amf3","root":1]                              | BadKey    | 22 | 23
{"amf":"amf3","root":{"a":1,"$b":2}}                 | BadKey    | 28 | 29
{"amf":"amf3","root":{"$ints":[1],"$fixed":true}}    | BadKey    | 34 | 35
{"amf":"amf3","root":{"$class":"","$sealed":{"b":1,"a":2}}} | BadKey    | 51 | 52
{"amf":"amf3","root":{"$class":"","$names":["y","y"],"$sealed":{}}} | BadKey    | 48 | 49
{"amf":"amf3","root":{"$class":"","$names":["y","x"],"$sealed":{"z":1}}} | BadKey    | 64 | 65
{"amf":"amf3","root":{"$class":"","$names":["y","x"],"$sealed":{"y":1}}} | BadKey    | 69 | 70
{"amf":"amf3","root":1,"nodes":{}}                   | BadKey    | 23 | 24
{"amf":"amf3","root":[1}                             | BadShape  | 23 | 24
{"amf":7}                                            | BadShape  | 7 | 8
{"amf":"amf3","root":{"$undefined":false}}           | BadShape  | 35 | 36
{"amf":"amf3","root":{"$fixed":1,"$ints":[]}}        | BadShape  | 31 | 32
{"amf":"amf3","root":{"$double":true}}               | BadShape  | 32 | 33
{"amf":"amf3","nodes":{"a":1},"root":1}              | BadShape  | 27 | 28
{"amf":"packet","headers":[],"messages":[{"form":"amf0"}]} | BadShape  | 49 | 50
{"amf":"amf3","root":{"$ints":[2147483648]}}         | BadNumber | 31 | 32
{"amf":"amf3","root":{"$ints":[-2147483649]}}        | BadNumber | 31 | 32
{"amf":"amf3","root":{"$uints":[4294967296]}}        | BadNumber | 32 | 33
{"amf":"amf3","root":{"$uints":[-1]}}                | BadNumber | 32 | 33
{"amf":"amf3","root":{"$doubles":["1"]}}             | BadNumber | 34 | 35
{"amf":"amf3","root":{"$date":"x"}}                  | BadNumber | 30 | 31
{"amf":"packet","headers":[],"messages":[],"version":2} | BadNumber | 53 | 54
{"amf":"sol","name":"","pairs":{},"version":1}       | BadNumber | 44 | 45
{"amf":"amf3","root":{"$text":"0g"}}                 | BadHex    | 30 | 31
{"amf":"amf3","root":1}}                             | Trailing  | 23 | 24
{"amf":"amf3","root":1}{}                            | Trailing  | 23 | 24
{"amf":"amf3","root":{"a":1                          | Truncated | 26 | 27
"#,
};

/// Bytes, as `parts` of a row reads them, that are refused: many of them are no UTF-8.
static REFUSED_BYTES: Table = Table {
    rows: 26,
    fields: 4,
    text: r#"
ff                                                   | NotUtf8   | 0       | 1
'{"amf":"amf3",' ff                                  | NotUtf8   | 14      | 15
'{"amf":"amf3","root"' ff                            | NotUtf8   | 20      | 21
'{"amf":"amf3","root":"' c3a9 ff                     | NotUtf8   | 24      | 25
'{"amf":"amf3","root":"' c3                          | Truncated | 21      | 22
'{"amf":"amf3","root":"' e0                          | Truncated | 21      | 22
'{"amf":"amf3","root":"' e080                        | NotUtf8   | 22      | 23
'{"amf":"amf3","root":"' eda0                        | NotUtf8   | 22      | 23
'{"amf":"amf3","root":"' f09f98                      | Truncated | 21      | 22
'{"amf":"amf3","root":"' f490                        | NotUtf8   | 22      | 23
'{"amf":"amf3","root":"' c3 '"}'                     | NotUtf8   | 22      | 23
'{"amf":"amf3","root":"\' c3                         | NotUtf8   | 23      | 24
'{"amf":"amf3","root":1' c3                          | NotUtf8   | 22      | 23
'{"amf":"amf3","root":0x' ff                         | NotJson   | 21      | 22
'{"amf":"amf3","rood":1}' ff                         | BadKey    | 14      | 15
'{"amf":"amf3","root":1}' ff                         | Trailing  | 23      | 24
'{"amf":"amf3","root":1}' 20 c3                      | Trailing  | 24      | 25
'{"amf":"amf3","root":1},' ff                        | Trailing  | 23      | 24
'{"amf":"sol","name":"' + 65536*61 + '"'             | LongText  | 20      | 21
'{"amf":"packet","headers":[],"messages":[' + 65535*'{"form":"plain","response":"","root":null,"target":""},' + '{' | TooMany | 3604466 | 3604467
'{"amf":"amf3","root":"a' 09 'b"}'                   | NotJson   | 21      | 22
'{"amf":"sol","name":"' + 65535*61 + '"'             | Truncated | 65557   | 65558
'{"amf":"packet","headers":[{"form":"plain","must":false,"name":"' + 65536*61 + '"' | LongText  | 63      | 64
'{"amf":"packet","headers":[],"messages":[{"form":"plain","response":"' + 65536*61 + '"' | LongText  | 68      | 69
'{"amf":"sol","name":{"$text":"' + 65536*'61' + '"'  | LongText  | 29      | 30
'{"amf":"packet","headers":[' + 65535*'{"form":"plain","must":true,"name":"","root":null},' + '{' | TooMany   | 3342312 | 3342313
"#,
};

fn reason_name(reason: TextReason) -> &'static str {
    match reason {
        TextReason::Truncated => "Truncated",
        TextReason::NotUtf8 => "NotUtf8",
        TextReason::NotJson => "NotJson",
        TextReason::BadKey => "BadKey",
        TextReason::BadShape => "BadShape",
        TextReason::BadNumber => "BadNumber",
        TextReason::BadHex => "BadHex",
        TextReason::BadText => "BadText",
        TextReason::SameLabel => "SameLabel",
        TextReason::LongText => "LongText",
        TextReason::TooMany => "TooMany",
        TextReason::Trailing => "Trailing",
        TextReason::TooLarge => "TooLarge",
        TextReason::NoLabel => "NoLabel",
    }
}

fn accepts(rt: &impl Abort, alloc: Global, row: Row<'_>) {
    let line = row.line();
    let text = row.field(0).expect(rt, "text");
    let verdict = text_verdict(alloc, None, text.as_bytes()).expect(rt, "memory");
    assert!(rt; verdict.is_none(), "line {line}");
}

fn is_there(refusal: &Refusal, reason: &str, at: u32, column: u32) -> bool {
    reason_name(refusal.reason) == reason
        && refusal.at == at as usize
        && refusal.line == 1
        && refusal.column == column as usize
}

fn refuses(rt: &impl Abort, alloc: Global, row: Row<'_>, text: &[u8]) {
    let line = row.line();
    let reason = row.field(1).expect(rt, "reason");
    let at = row.number(2).expect(rt, "byte");
    let column = row.number(3).expect(rt, "column");
    let verdict = text_verdict(alloc, None, text).expect(rt, "memory");
    let right = match &verdict {
        Some(refusal) => is_there(refusal, reason, at, column),
        None => false,
    };
    assert!(rt; right, "line {line}");
}

#[test]
fn accepts_texts(rt: HostRuntime) {
    for row in ACCEPTED.rows(rt.alloc()).expect(&rt, "rows").iter() {
        accepts(&rt, rt.alloc(), *row);
    }
}

#[test]
fn refuses_texts(rt: HostRuntime) {
    for row in REFUSED.rows(rt.alloc()).expect(&rt, "rows").iter() {
        let text = row.field(0).expect(&rt, "text");
        refuses(&rt, rt.alloc(), *row, text.as_bytes());
    }
}

#[test]
fn refuses_bytes(rt: HostRuntime) {
    for row in REFUSED_BYTES.rows(rt.alloc()).expect(&rt, "rows").iter() {
        let text = row.parts(rt.alloc(), 0).expect(&rt, "bytes");
        refuses(&rt, rt.alloc(), *row, &text);
    }
}

#[test]
fn refuses_a_text_past_the_most(rt: HostRuntime) {
    let mut text = Vec::new(rt.alloc());
    text.resize(268_435_457, b' ').expect(&rt, "memory");
    let verdict = text_verdict(rt.alloc(), None, &text).expect(&rt, "memory");
    let right = match &verdict {
        Some(refusal) => is_there(refusal, "TooLarge", 268_435_456, 268_435_457),
        None => false,
    };
    assert!(rt; right);
}
