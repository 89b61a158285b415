ghost use Rattle.std.specs.Prelude.{◌≡◌, ◌≤◌, length};
ghost use Rattle.amf_text.specs.Refused.{text_limit};
ghost use Rattle.amf_text.specs.Scan.{scan, ended};

use amf_text_read::label_place;
use std::alloc::Global;
use std::process::Abort;

/// Two calls, of which the second leads nowhere.
fn two_calls() -> &'static str
    ensures few { length result.now ≤ text_limit }
    ensures ended { (scan result.now).stop ≡ ended }
{
    r#"{"amf":"amf3","nodes":{"1":[]},"root":[{"$node":"1"},{"$node":"2"}]}"#
}

/// A call in a header, and one in a message.
fn packet_calls() -> &'static str
    ensures few { length result.now ≤ text_limit }
    ensures ended { (scan result.now).stop ≡ ended }
{
    r#"{"amf":"packet","headers":[{"form":"plain","must":true,"name":"","root":{"$node":"a"}}],"messages":[{"form":"plain","response":"","root":[{"$node":"b"}],"target":""}],"version":0}"#
}

/// The bytes at which the labels begin that are called in the texts, and none behind the last.
static CALLS: [(usize, Option<usize>, Option<usize>); 3] = [
    (0, Some(48), Some(81)),
    (1, Some(62), Some(147)),
    (2, None, None),
];

fn is_at(rt: &impl Abort, alloc: Global, text: &str, label: usize, want: Option<usize>)
    requires few { length text.now ≤ text_limit }
    requires ended { (scan text.now).stop ≡ ended }
{
    let place = label_place(alloc, None, text, label).expect(rt, "memory");
    assert!(rt; place == want, "label {label}");
}

#[test]
fn finds_labels_that_are_called(rt: HostRuntime) {
    for (label, value, packet) in CALLS.iter() {
        is_at(&rt, rt.alloc(), two_calls(), *label, *value);
        is_at(&rt, rt.alloc(), packet_calls(), *label, *packet);
    }
}
