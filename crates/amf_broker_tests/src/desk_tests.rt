ghost use Rattle.std.specs.Prelude.{◌≡◌, ◌≢◌, ◌+◌, ◌^◌, ◌≤◌, All};
ghost use Rattle.std.specs.Thread.{IsSync};

use crate::answers::told;
use crate::calls::{Asked, call, chat};
use crate::checks::{field, holds, is_answered, number};
use amf_broker::{Answer, Call, ClientId, Deliveries, Reply, SubIds};
use amf_desk::{Closed, Desk, DeskEnd, Pass};
use amf_test_rows::{Row, Table};
use std::alloc::Global;
use std::hash::RandomState;
use std::process::Abort;
use std::random::RandomSource;
use std::sync::Wait;
use std::sync::atomic::{AtomicU64, Ordering};
use std::thread;
use std::thread::Threads;

/// How many rounds each worker goes.
const ROUNDS: u64 = 60;

/// How many calls each worker may make.
const SHARE: u64 = 1 << 20;

/// How far the moments of two rounds are apart. A client that calls in no round of 30 expires.
const STEP: u64 = 20_000;

/// What a worker does at a time.
#[derive(Clone, Copy)]
enum Step {
    Connect,
    Subscribe,
    Publish,
    Poll,
    /// The last numbered poll once more.
    PollAgain,
}

/// What a worker knows: its client with its subscription, and what it counted. 0 stands for none.
#[derive(Drop)]
struct Seen {
    numbers_polls: bool,
    client: u64,
    sub: u64,
    next: u64,
    polls: u64,
    handed: usize,
    answers: u64,
    published: u64,
    delivered: u64,
    sleeper: u64,
    fits: bool,
}

impl Seen {
    fn new(numbers_polls: bool) -> Seen {
        Seen {
            numbers_polls,
            client: 0,
            sub: 0,
            next: 0,
            polls: 0,
            handed: 0,
            answers: 0,
            published: 0,
            delivered: 0,
            sleeper: 0,
            fits: true,
        }
    }

    fn poll(&self, number: u64) -> Call {
        let client = ClientId(self.client);
        if self.numbers_polls {
            Call::PollNumbered { client, number }
        } else {
            Call::Poll { client }
        }
    }

    /// The call of a step.
    fn call(&self, rt: &impl Abort, alloc: Global, step: Step) -> Call {
        match step {
            Step::Connect => Call::Connect,
            Step::Subscribe => call(rt, alloc, "subscribe # chat", self.client),
            Step::Publish => call(rt, alloc, "publish # chat m", self.client),
            Step::Poll => self.poll(self.polls.saturating_add(1)),
            Step::PollAgain => self.poll(self.polls),
        }
    }

    /// Hears the answer to a step, and looks whether it tells that client 1 expired.
    fn hear(&mut self, step: Step, answer: &Answer) {
        self.answers = self.answers.saturating_add(1);
        if answer.expired.as_slice().iter().any(|client| client.0 == 1) {
            self.sleeper = self.sleeper.saturating_add(1);
        }
        if matches!(answer.reply, Reply::NoClient(_)) {
            self.client = 0;
            return;
        }
        match step {
            Step::Connect => self.connected(&answer.reply),
            Step::Subscribe => self.subscribed(&answer.reply),
            Step::Publish => self.published(&answer.reply),
            Step::Poll => self.polled(&answer.reply),
            Step::PollAgain => self.polled_again(&answer.reply),
        }
    }

    fn connected(&mut self, reply: &Reply) {
        self.sub = 0;
        self.polls = 0;
        match reply {
            Reply::Client(client) => self.client = client.0,
            _ => self.fits = false,
        }
    }

    fn subscribed(&mut self, reply: &Reply) {
        self.next = 0;
        match reply {
            Reply::Subscribed(sub) => self.sub = sub.0,
            _ => self.fits = false,
        }
    }

    fn published(&mut self, reply: &Reply) {
        match reply {
            Reply::Published { .. } => self.published = self.published.saturating_add(1),
            _ => self.fits = false,
        }
    }

    fn polled(&mut self, reply: &Reply) {
        match reply {
            Reply::Batch { deliveries, ended } => self.take(deliveries, ended),
            Reply::Numbered {
                number,
                deliveries,
                ended,
            } => {
                self.polls = self.polls.saturating_add(1);
                self.fits = self.fits && *number == self.polls;
                self.take(deliveries, ended);
            }
            _ => self.fits = false,
        }
    }

    /// The last numbered poll once more gives as many deliveries.
    fn polled_again(&mut self, reply: &Reply) {
        match reply {
            Reply::Again { deliveries, .. } => {
                self.fits = self.fits && deliveries.as_slice().len() == self.handed;
            }
            _ => self.fits = false,
        }
    }

    /// Takes deliveries, each of which is the next of its subscription, and hears whether that has ended.
    fn take(&mut self, deliveries: &Deliveries, ended: &SubIds) {
        for delivery in deliveries.as_slice() {
            let is_next = self.next == 0 || delivery.number == self.next;
            self.fits = self.fits && is_next && delivery.sub.0 == self.sub;
            self.next = delivery.number.saturating_add(1);
            self.delivered = self.delivered.saturating_add(1);
        }
        self.handed = deliveries.as_slice().len();
        if !ended.as_slice().is_empty() {
            self.sub = 0;
        }
    }

    /// Adds what another worker counted.
    fn add(&mut self, other: &Seen) {
        self.answers = self.answers.saturating_add(other.answers);
        self.published = self.published.saturating_add(other.published);
        self.delivered = self.delivered.saturating_add(other.delivered);
        self.sleeper = self.sleeper.saturating_add(other.sleeper);
        self.fits = self.fits && other.fits;
    }
}

/// A thread's part.
#[derive(Drop)]
struct Worker {
    pass: Pass,
    seen: Seen,
}

/// Makes the call of a step, and hears its answer.
fn go<R: Wait + Abort>(
    rt: &R,
    alloc: Global,
    desk: &Desk,
    pass: &mut Pass,
    seen: &mut Seen,
    moment: u64,
    step: Step,
)
    requires { pass.old.desk ≡ desk.now }
    ensures { (pass.new.desk ≡ pass.old.desk) × (pass.new.number ≡ pass.old.number) }
{
    let call = seen.call(rt, alloc, step);
    let answer = desk
        .call(rt, alloc, pass, moment, call)
        .expect(rt, "an answer");
    seen.hear(step, &answer);
}

/// Asks for all that is queued; where polls have numbers, twice by the same number.
fn poll<R: Wait + Abort>(
    rt: &R,
    alloc: Global,
    desk: &Desk,
    pass: &mut Pass,
    seen: &mut Seen,
    moment: u64,
)
    requires { pass.old.desk ≡ desk.now }
    ensures { (pass.new.desk ≡ pass.old.desk) × (pass.new.number ≡ pass.old.number) }
{
    go(rt, alloc, desk, pass, seen, moment, Step::Poll);
    if seen.numbers_polls && seen.client != 0 {
        go(rt, alloc, desk, pass, seen, moment, Step::PollAgain);
    }
}

/// Goes a round, which begins with a client and a subscription where there is none.
fn go_round<R: Wait + Abort>(
    rt: &R,
    alloc: Global,
    desk: &Desk,
    pass: &mut Pass,
    seen: &mut Seen,
    moment: u64,
)
    requires { pass.old.desk ≡ desk.now }
    ensures { (pass.new.desk ≡ pass.old.desk) × (pass.new.number ≡ pass.old.number) }
{
    if seen.client == 0 {
        go(rt, alloc, desk, pass, seen, moment, Step::Connect);
    }
    if seen.sub == 0 {
        go(rt, alloc, desk, pass, seen, moment, Step::Subscribe);
    }
    go(rt, alloc, desk, pass, seen, moment, Step::Publish);
    poll(rt, alloc, desk, pass, seen, moment);
}

impl Worker {
    fn work<R: Wait + Abort>(&mut self, rt: &R, alloc: Global, desk: &Desk)
        requires { self.old.pass.desk ≡ desk.now }
        ensures { (self.new.pass.desk ≡ self.old.pass.desk) × (self.new.pass.number ≡ self.old.pass.number) }
    {
        for round in 0..ROUNDS {
            let moment = round * STEP;
            go_round(rt, alloc, desk, &mut self.pass, &mut self.seen, moment);
        }
    }
}

fn work_all<R: Threads + Wait + Abort + Sync>(
    rt: &R,
    alloc: Global,
    desk: &Desk,
    workers: &mut [Worker],
)
    requires { All (λ w. (w.pass.desk ≡ desk.now) × (w.pass.number ≢ 0)) workers.old }
    ensures { All (λ w. (w.pass.desk ≡ desk.now) × (w.pass.number ≢ 0)) workers.new }
{
    thread::for_each_mut(
        rt,
        workers,
        8,
        &|_, w: &mut Worker|
            requires { (w.now.pass.desk ≡ desk.now) × (w.now.pass.number ≢ 0) × IsSync R.row }
            ensures { (w.exit.now.pass.desk ≡ desk.entry.now) × (w.exit.now.pass.number ≢ 0) }
        { w.work(rt, alloc, desk) },
    );
}

/// Splits off a pass.
fn split(rt: &impl Abort, desk: &Desk, first: &mut Pass, share: u64) -> Pass
    requires desk { first.old.desk ≡ desk.now }
    requires number { first.old.number ≡ 0 }
    ensures first { (first.new.desk ≡ desk.now) × (first.new.number ≡ 0) }
    ensures pass { (result.desk ≡ desk.now) × (result.number ≢ 0) }
{
    let budget = first.budget();
    assert!(rt; share <= budget, "no budget");
    desk.split(first, share)
}

/// Hires workers, of which every second one numbers its polls.
fn hire(rt: &impl Abort, alloc: Global, desk: &Desk, first: &mut Pass, count: u64) -> Vec<Worker>
    requires desk { first.old.desk ≡ desk.now }
    requires number { first.old.number ≡ 0 }
    ensures first { (first.new.desk ≡ desk.now) × (first.new.number ≡ 0) }
    ensures workers { All (λ w. (w.pass.desk ≡ desk.now) × (w.pass.number ≢ 0)) result.items }
{
    let mut workers = Vec::new(alloc);
    for number in 0..count {
        let pass = split(rt, desk, first, SHARE);
        let seen = Seen::new(number % 2 == 1);
        workers.push(Worker { pass, seen }).expect(rt, "memory");
    }
    workers
}

/// Each polls once more and hands its pass back.
fn gather<R: Wait + Abort>(
    rt: &R,
    alloc: Global,
    desk: &Desk,
    first: &mut Pass,
    mut workers: Vec<Worker>,
) -> Seen
    requires desk { first.old.desk ≡ desk.now }
    requires workers { All (λ w. (w.pass.desk ≡ desk.now) × (w.pass.number ≢ 0)) workers.items }
    ensures { first.new.desk ≡ desk.now }
{
    let mut all = Seen::new(false);
    while let Some(mut worker) = workers.pop() {
        poll(rt, alloc, desk, &mut worker.pass, &mut worker.seen, 0);
        all.add(&worker.seen);
        desk.join(first, worker.pass);
    }
    all
}

/// Workers that publish, poll and expire at once. Client 1 sleeps until it expires.
fn at_once<R: Threads + Wait + Abort + Sync>(
    rt: &R,
    alloc: Global,
    desk: &Desk,
    first: &mut Pass,
    count: u64,
) -> Closed
    requires desk { first.old.desk ≡ desk.now }
    requires number { first.old.number ≡ 0 }
    ensures { first.new.desk ≡ desk.now }
{
    go(
        rt,
        alloc,
        desk,
        first,
        &mut Seen::new(false),
        0,
        Step::Connect,
    );
    let mut workers = hire(rt, alloc, desk, first, count);
    work_all(rt, alloc, desk, workers.as_mut_slice());
    let seen = gather(rt, alloc, desk, first, workers);
    holds(rt, seen.fits, "what the workers saw");
    holds(rt, seen.sleeper == 1, "how often client 1 expires");
    Closed {
        calls: seen.answers.saturating_add(1),
        published: seen.published,
        delivered: seen.delivered,
        queued: 0,
    }
}

/// One call of a pass with a budget of 1, which is handed back then.
fn one_call<R: Wait + Abort>(rt: &R, alloc: Global, desk: &Desk, first: &mut Pass) -> Closed
    requires desk { first.old.desk ≡ desk.now }
    requires number { first.old.number ≡ 0 }
    ensures { first.new.desk ≡ desk.now }
{
    let mut pass = split(rt, desk, first, 1);
    let answer = desk
        .call(rt, alloc, &mut pass, 0, Call::Connect)
        .expect(rt, "an answer");
    let told = told(alloc, &answer).expect(rt, "memory");
    holds(rt, told.as_str() == "client 1", &told);
    let second = desk.call(rt, alloc, &mut pass, 0, Call::Connect);
    holds(rt, matches!(second, Err(DeskEnd::Spent)), "the second call");
    desk.join(first, pass);
    holds(rt, first.is_first(), "the pass");
    holds(rt, first.budget() == (1 << 62) - 1, "the budget");
    Closed {
        calls: 1,
        published: 0,
        delivered: 0,
        queued: 0,
    }
}

/// Which of two passes calls, the moment, the call and its answer.
static CALLS: Table = Table {
    rows: 13,
    fields: 4,
    text: r"
# pass | moment  | call             | answer
0      | 0       | connect          | client 1
0      | 0       | subscribe 1 chat | subscribed 1
1      | 1000    | connect          | client 2
1      | 1000    | publish 2 chat m | published 1
0      | 2000    | poll 1           | batch 1:1:m
1      | 2000    | publish 2 chat m | published 2
0      | 2000    | poll 1 1         | numbered 1 1:2:m
0      | 2000    | poll 1 1         | again 1 1:2:m
1      | 500000  | unsubscribe 2 1  | no subscription 1
1      | 500000  | publish 2 chat m | published 3
1      | 602000  | publish 2 chat m | published 4 expired 1
0      | 0       | poll 1           | no client 1
0      | 1202000 | connect          | client 3 expired 2
",
};

/// Makes the call of a row.
fn ask_row<R: Wait + Abort>(rt: &R, alloc: Global, desk: &Desk, pass: &mut Pass, row: Row<'_>)
    requires { pass.old.desk ≡ desk.now }
    ensures { (pass.new.desk ≡ pass.old.desk) × (pass.new.number ≡ pass.old.number) }
{
    let moment = u64::from(number(rt, row, 1));
    let call = call(rt, alloc, field(rt, row, 2), 0);
    let answer = desk
        .call(rt, alloc, pass, moment, call)
        .expect(rt, "an answer");
    let got = told(alloc, &answer).expect(rt, "memory");
    is_answered(rt, row, &got, field(rt, row, 3));
}

fn ask_rows<R: Wait + Abort>(
    rt: &R,
    alloc: Global,
    desk: &Desk,
    first: &mut Pass,
    second: &mut Pass,
)
    requires { (first.old.desk ≡ desk.now) × (second.old.desk ≡ desk.now) }
    ensures first { first.new.desk ≡ desk.now }
    ensures second { (second.new.desk ≡ desk.now) × (second.new.number ≡ second.old.number) }
{
    for row in CALLS.rows(alloc).expect(rt, "rows").iter() {
        match number(rt, *row, 0) {
            0 => ask_row(rt, alloc, desk, first, *row),
            _ => ask_row(rt, alloc, desk, second, *row),
        }
    }
}

fn two_passes<R: Wait + Abort>(rt: &R, alloc: Global, desk: &Desk, first: &mut Pass) -> Closed
    requires desk { first.old.desk ≡ desk.now }
    requires number { first.old.number ≡ 0 }
    ensures { first.new.desk ≡ desk.now }
{
    let mut second = split(rt, desk, first, SHARE);
    ask_rows(rt, alloc, desk, first, &mut second);
    desk.join(first, second);
    Closed {
        calls: 13,
        published: 4,
        delivered: 2,
        queued: 0,
    }
}

/// The calls of two threads that take turns: which of the two, the moment, the call and its answer.
static TURNS: Table = Table {
    rows: 6,
    fields: 4,
    text: r"
# thread | moment | call             | answer
0        | 0      | connect          | client 1
1        | 0      | connect          | client 2
1        | 0      | subscribe 2 chat | subscribed 1
0        | 0      | publish 1 chat m | published 1
0        | 0      | publish 1 chat m | published 2
1        | 0      | poll 2           | batch 1:1:m 1:2:m
",
};

/// A thread's part where two take turns: the calls of one of the threads, each when those before it are answered.
#[derive(Drop)]
struct TurnTaker {
    pass: Pass,
    thread: u32,
}

/// Waits until so many calls are answered, and gives up after 50,000,000 looks.
fn wait_for(rt: &impl Abort, answered: &AtomicU64, count: u64) {
    for _ in 0..50_000_000u64 {
        if answered.load(Ordering::SeqCst) == count {
            return;
        }
        thread::yield_now();
    }
    panic!(rt; "the other thread does not call");
}

impl TurnTaker {
    /// Takes its turns.
    fn work<R: Wait + Abort>(&mut self, rt: &R, alloc: Global, desk: &Desk, answered: &AtomicU64)
        requires { self.old.pass.desk ≡ desk.now }
        ensures { (self.new.pass.desk ≡ self.old.pass.desk) × (self.new.pass.number ≡ self.old.pass.number) }
    {
        let mut count = 0u64;
        for row in TURNS.rows(alloc).expect(rt, "rows").iter() {
            if number(rt, *row, 0) == self.thread {
                wait_for(rt, answered, count);
                ask_row(rt, alloc, desk, &mut self.pass, *row);
                answered.fetch_add(1, Ordering::SeqCst);
            }
            count = count.wrapping_add(1);
        }
    }
}

fn take_turns<R: Threads + Wait + Abort + Sync>(
    rt: &R,
    alloc: Global,
    desk: &Desk,
    takers: &mut [TurnTaker],
    answered: &AtomicU64,
)
    requires { All (λ t. t.pass.desk ≡ desk.now) takers.old }
{
    thread::for_each_mut(
        rt,
        takers,
        2,
        &|_, t: &mut TurnTaker|
            requires { (t.now.pass.desk ≡ desk.now) × IsSync R.row }
        { t.work(rt, alloc, desk, answered) },
    );
}

/// The two threads.
fn turn_takers(rt: &impl Abort, alloc: Global, desk: &Desk, first: &mut Pass) -> Vec<TurnTaker>
    requires desk { first.old.desk ≡ desk.now }
    requires number { first.old.number ≡ 0 }
    ensures first { first.new.desk ≡ desk.now }
    ensures takers { All (λ t. t.pass.desk ≡ desk.now) result.items }
{
    let mut takers = Vec::new(alloc);
    for thread in 0..2u32 {
        let pass = split(rt, desk, first, SHARE);
        takers.push(TurnTaker { pass, thread }).expect(rt, "memory");
    }
    takers
}

/// Two threads that wait for one another, so that neither can be served before the other begins.
fn two_at_work<R: Threads + Wait + Abort + Sync>(
    rt: &R,
    alloc: Global,
    desk: &Desk,
    first: &mut Pass,
) -> Closed
    requires desk { first.old.desk ≡ desk.now }
    requires number { first.old.number ≡ 0 }
    ensures { first.new.desk ≡ desk.now }
{
    let mut takers = turn_takers(rt, alloc, desk, first);
    let answered = AtomicU64::new(0);
    take_turns(rt, alloc, desk, takers.as_mut_slice(), &answered);
    holds(rt, answered.load(Ordering::SeqCst) == 6, "the turns");
    Closed {
        calls: 6,
        published: 2,
        delivered: 2,
        queued: 0,
    }
}

/// What is done at a desk.
#[derive(Clone, Copy)]
enum Play {
    AtOnce(u64),
    OneCall,
    TwoPasses,
    TwoAtWork,
}

/// Plays at a desk, and gives what it should tell when it is closed.
fn play_at<R: Threads + Wait + Abort + Sync>(
    rt: &R,
    alloc: Global,
    desk: &Desk,
    first: &mut Pass,
    play: Play,
) -> Closed
    requires desk { first.old.desk ≡ desk.now }
    requires number { first.old.number ≡ 0 }
    ensures { first.new.desk ≡ desk.now }
{
    match play {
        Play::AtOnce(count) => at_once(rt, alloc, desk, first, count),
        Play::OneCall => one_call(rt, alloc, desk, first),
        Play::TwoPasses => two_passes(rt, alloc, desk, first),
        Play::TwoAtWork => two_at_work(rt, alloc, desk, first),
    }
}

/// Plays at a new desk with keys of the runtime, and compares what it tells when it is closed.
fn at_desk<R: RandomSource + Threads + Wait + Abort + Sync>(rt: &R, alloc: Global, what: Play) {
    let keys = RandomState::new(rt).expect(rt, "keys");
    let opened = Desk::open_keyed(alloc, chat(rt, alloc), keys);
    let (desk, mut first) = opened.expect(rt, "a desk");
    let want = play_at(rt, alloc, &desk, &mut first, what);
    let budget = first.budget();
    assert!(rt; budget > 0, "no budget");
    let closed = desk.close(rt, first);
    holds(rt, closed == want, "what the desk tells");
}

#[test]
fn two_four_and_eight_workers(rt: HostRuntime) {
    at_desk(&rt, rt.alloc(), Play::AtOnce(2));
    at_desk(&rt, rt.alloc(), Play::AtOnce(4));
    at_desk(&rt, rt.alloc(), Play::AtOnce(8));
}

#[test]
fn a_pass_of_one_call(rt: HostRuntime) {
    at_desk(&rt, rt.alloc(), Play::OneCall);
}

#[test]
fn rows_of_two_passes(rt: HostRuntime) {
    at_desk(&rt, rt.alloc(), Play::TwoPasses);
}

#[test]
fn two_that_take_turns(rt: HostRuntime) {
    at_desk(&rt, rt.alloc(), Play::TwoAtWork);
}
