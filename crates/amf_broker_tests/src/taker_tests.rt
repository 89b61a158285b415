use crate::checks::{field, is_answered};
use amf_once::{Taken, Taker};
use amf_test_rows::{Row, Table};
use std::alloc::Global;
use std::process::Abort;

/// Numbers that a new taker is shown, what it says of each, and the number that it asks then.
static NUMBERS: Table = Table {
    rows: 6,
    fields: 3,
    text: r"
# numbers             | says                    | asks

                      |                         | 1
0 1                   | old new                 | 2
2 1 1                 | ahead new old           | 2
1 2 3                 | new new new             | 4
1 3 1 2 2 3 1         | new ahead old new old new old | 4
4611686018427387903 1 | ahead new               | 2
",
};

fn said(taken: Taken) -> &'static str {
    match taken {
        Taken::New => " new",
        Taken::Old => " old",
        Taken::Ahead => " ahead",
    }
}

/// What the taker says of each of these numbers.
fn answers(rt: &impl Abort, alloc: Global, taker: &mut Taker, numbers: &[u64]) -> String {
    let mut out = String::new(alloc);
    for &number in numbers {
        assert!(rt; number < 1 << 62);
        out.push_str(said(taker.take(number))).expect(rt, "memory");
    }
    out
}

fn judge(rt: &impl Abort, alloc: Global, row: Row<'_>) {
    let numbers = row.numbers(alloc, 0).expect(rt, "numbers");
    let mut taker = Taker::new();
    let says = answers(rt, alloc, &mut taker, &numbers);
    is_answered(rt, row, says.trim(), field(rt, row, 1));
    let asks = format!(in alloc; "{}", taker.asks()).expect(rt, "memory");
    is_answered(rt, row, &asks, field(rt, row, 2));
}

#[test]
fn judges_numbers(rt: HostRuntime) {
    for row in NUMBERS.rows(rt.alloc()).expect(&rt, "rows").iter() {
        judge(&rt, rt.alloc(), *row);
    }
}
