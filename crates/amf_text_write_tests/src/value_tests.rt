use crate::checks::{field, graph_of, is_text, layout_of};
use amf_test_rows::{Row, Table};
use amf_text_write::{ValueForm, value_text};
use std::alloc::Global;
use std::process::Abort;

/// A value by its format and its bytes, the layout, and the text.
static VALUES: Table = Table {
    rows: 27,
    fields: 4,
    text: r#"
amf0 | 06 | compact | '{"amf":"amf0","root":{"$undefined":true}}' 0a
amf3 | 01 | lines | '{' 0a '  "amf": "amf3",' 0a '  "root": null' 0a '}' 0a
amf3 | 03 | compact | '{"amf":"amf3","root":true}' 0a
amf3 | 04 c0 80 80 00 | compact | '{"amf":"amf3","root":-268435456}' 0a
amf3 | 05 40 14 00 00 00 00 00 00 | lines | '{' 0a '  "amf": "amf3",' 0a '  "root": {' 0a '    "$double": 5' 0a '  }' 0a '}' 0a
amf0 | 00 40 14 00 00 00 00 00 00 | compact | '{"amf":"amf0","root":5}' 0a
amf3 | 05 41 b0 00 00 00 00 00 00 | compact | '{"amf":"amf3","root":268435456}' 0a
amf3 | 05 3f f8 00 00 00 00 00 00 | compact | '{"amf":"amf3","root":1.5}' 0a
amf3 | 05 7f f8 00 00 00 00 00 00 | compact | '{"amf":"amf3","root":{"$double":"NaN"}}' 0a
amf3 | 05 ff f8 00 00 00 00 00 00 | compact | '{"amf":"amf3","root":{"$double":"fff8000000000000"}}' 0a
amf3 | 05 7f f0 00 00 00 00 00 00 | compact | '{"amf":"amf3","root":{"$double":"Infinity"}}' 0a
amf0 | 00 80 00 00 00 00 00 00 00 | compact | '{"amf":"amf0","root":{"$double":"-0"}}' 0a
amf3 | 06 0f 'Zoe "Z"' | compact | '{"amf":"amf3","root":"Zoe \"Z\""}' 0a
amf3 | 06 07 ed a0 80 | compact | '{"amf":"amf3","root":{"$text":"eda080"}}' 0a
amf3 | 08 01 bf f8 00 00 00 00 00 00 | compact | '{"amf":"amf3","root":{"$date":-1.5}}' 0a
amf3 | 0a 0b 01 01 | compact | '{"amf":"amf3","root":{}}' 0a
# An object that holds itself.
amf3 | 0a 0b 01 09 'self' 0a 00 03 'n' 04 01 01 | compact | '{"amf":"amf3","nodes":{"0":{"n":1,"self":{"$node":"0"}}},"root":{"$node":"0"}}' 0a
# One that is held twice.
amf3 | 09 05 01 0a 0b 01 05 'hp' 04 07 01 0a 02 | compact | '{"amf":"amf3","nodes":{"1":{"hp":7}},"root":[{"$node":"1"},{"$node":"1"}]}' 0a
# A class with sealed names that do not rise, and dynamic ones of which two are the same.
amf3 | 0a 2b 17 'game.Player' 03 'y' 03 'x' 04 03 05 40 10 00 00 00 00 00 00 09 '$tag' 00 03 'a' 04 01 03 'a' 04 02 01 | compact | '{"amf":"amf3","root":{"$class":"game.Player","$dynamic":[["$tag",{"$undefined":true}],["a",1],["a",2]],"$names":["y","x"],"$sealed":{"x":{"$double":4},"y":3}}}' 0a
# Sealed names of which two are the same, and one is no UTF-8.
amf3 | 0a 33 01 03 'a' 07 ed a0 80 03 'a' 04 01 04 02 04 03 | compact | '{"amf":"amf3","root":{"$class":"","$sealed":[["a",1],[{"$text":"eda080"},2],["a",3]]}}' 0a
amf3 | 09 07 01 0d 05 01 ff ff ff fe 00 00 00 1e 0f 07 00 3f f8 00 00 00 00 00 00 80 00 00 00 00 00 00 00 + 8*00 + 10 05 00 13 'game.Item' 01 05 40 04 00 00 00 00 00 00 | compact | '{"amf":"amf3","root":[{"$fixed":true,"$ints":[-2,30]},{"$doubles":[1.5,"-0",0]},{"$type":"game.Item","$values":[null,2.5]}]}' 0a
amf3 | 11 05 01 06 03 'k' 09 01 01 09 02 01 | compact | '{"amf":"amf3","nodes":{"1":[]},"root":{"$dictionary":[["k",{"$node":"1"}],[{"$node":"1"},null]],"$weak":true}}' 0a
amf3 | 09 03 07 'raw' 0c 05 00 af 01 06 03 0a | compact | '{"amf":"amf3","root":{"$array":["\n"],"$names":{"raw":{"$bytes":"00af"}}}}' 0a
amf3 | 09 0b 01 0a 07 43 'flex.messaging.io.ArrayCollection' 09 01 01 07 09 '<a/>' 0b 01 0e 03 01 ff ff ff ff 10 03 01 01 03 | compact | '{"amf":"amf3","root":[{"$ArrayCollection":[]},{"$xmldoc":"<a/>"},{"$xml":""},{"$fixed":true,"$uints":[4294967295]},{"$fixed":true,"$type":"","$values":[true]}]}' 0a
amf0 | 0a 00 00 00 04 00 40 14 00 00 00 00 00 00 00 3f e0 00 00 00 00 00 00 06 01 00 | compact | '{"amf":"amf0","root":[5,0.5,{"$undefined":true},false]}' 0a
# Labels of two digits.
amf3 | 09 19 01 09 01 01 09 02 + 9*09 01 01 + 09 14 | compact | '{"amf":"amf3","nodes":{"01":[],"10":[]},"root":[{"$node":"01"},{"$node":"01"},' + 8*'[],' + '{"$node":"10"},{"$node":"10"}]}' 0a
# 33 arrays within one another.
amf3 | 32*09 03 01 + 09 01 01 | compact | '{"amf":"amf3","nodes":{"32":[]},"root":' + 32*'[' + '{"$node":"32"}' + 32*']' + '}' 0a
"#,
};

fn writes_row(rt: &impl Abort, alloc: Global, row: Row<'_>) {
    let is_amf3 = field(rt, row, 0) == "amf3";
    let form = if is_amf3 {
        ValueForm::Amf3
    } else {
        ValueForm::Amf0
    };
    let graph = graph_of(rt, alloc, row, 1, is_amf3);
    let text = value_text(alloc, layout_of(rt, row, 2), form, &graph);
    is_text(rt, alloc, row, 3, &text.expect(rt, "memory"));
}

#[test]
fn writes_values(rt: HostRuntime) {
    for row in VALUES.rows(rt.alloc()).expect(&rt, "rows").iter() {
        writes_row(&rt, rt.alloc(), *row);
    }
}
