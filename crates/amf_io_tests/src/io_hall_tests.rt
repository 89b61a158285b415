ghost use Rattle.std.specs.Prelude.{◌≡◌, false, length, All, IfOk, IfSome};

use crate::checks::holds;
use amf_io::{
    Clock, Dice, Failed, FaultlessFront, FaultlessHall, FaultlessLink, FaultlessSink,
    FaultlessSource, Front, Gate, Hall, Joined, Link, MemoryFront, MemoryHall, MemoryLink,
    MemorySink, MemorySource, OpenEnd, OpenGate,
};
use std::alloc::Global;
use std::process::Abort;

/// A link that gives one byte, and whose reads fail once.
fn link(rt: &impl Abort, alloc: Global, byte: u8) -> MemoryLink {
    let source = MemorySource::new(alloc, &[byte], 1, 0, &[1]).expect(rt, "a source");
    let sink = MemorySink::new(alloc, 1, &[1]).expect(rt, "a sink");
    Joined { source, sink }
}

/// A hall of two links, whose second call fails.
fn hall(rt: &impl Abort, alloc: Global) -> MemoryHall<MemoryLink>
    ensures whole { result.failed ≡ 0 }
    ensures fresh { length result.links.served.items ≡ 0 }
    ensures none_out { result.links.out ≡ false }
{
    let mut links = Vec::new(alloc);
    links.push(link(rt, alloc, 7)).expect(rt, "memory");
    links.push(link(rt, alloc, 8)).expect(rt, "memory");
    MemoryHall::new(alloc, links, &[5], &[6], &[1]).expect(rt, "a hall")
}

/// A link without faults that gives one byte.
fn faultless_link(rt: &impl Abort, alloc: Global, byte: u8) -> FaultlessLink {
    let source = FaultlessSource::new(alloc, &[byte], 1, 0).expect(rt, "a source");
    let sink = FaultlessSink::new(alloc, 1).expect(rt, "a sink");
    Joined { source, sink }
}

/// A hall of one link.
fn faultless_hall(rt: &impl Abort, alloc: Global) -> FaultlessHall<FaultlessLink>
    ensures fresh { length result.links.served.items ≡ 0 }
    ensures none_out { result.links.out ≡ false }
{
    let mut links = Vec::new(alloc);
    links
        .push(faultless_link(rt, alloc, 9))
        .expect(rt, "memory");
    FaultlessHall::new(alloc, links, &[5], &[6]).expect(rt, "a hall")
}

/// What the next link gives, if one comes, which goes back then.
fn next_byte<H: Hall>(hall: &mut H) -> Result<Option<u8>, Failed>
    requires { H.is_out hall.old ≡ false }
    ensures { H.is_out hall.new ≡ false }
{
    match hall.next() {
        Ok(Some(link)) => {
            let mut link = link;
            let byte = one_byte(&mut link);
            hall.back(link);
            byte
        }
        Ok(None) => Ok(None),
        Err(end) => Err(end),
    }
}

/// The one byte that a link gives.
fn one_byte<L: Link>(link: &mut L) -> Result<Option<u8>, Failed> {
    let mut room = [0u8; 1];
    match link.read(&mut room) {
        Ok(1) => Ok(Some(room[0])),
        _ => Err(Failed),
    }
}

/// Looks at the moments and words of a hall that has one of each.
fn tells_numbers<H: Hall>(rt: &impl Abort, hall: &mut H) {
    let told = [hall.now(), hall.word(), hall.now(), hall.word()];
    holds(rt, told == [5, 6, 0, 0], "moments and words");
}

/// Looks at the links of a hall of two, of which none is out. A third one that goes back is dropped.
fn gives_two_links(rt: &impl Abort, alloc: Global, hall: &mut MemoryHall<MemoryLink>)
    requires { hall.old.links.out ≡ false }
{
    holds(rt, next_byte(hall) == Ok(Some(7)), "the first link");
    holds(rt, next_byte(hall) == Err(Failed), "a failed call");
    holds(rt, next_byte(hall) == Ok(Some(8)), "the second link");
    holds(rt, next_byte(hall) == Ok(None), "no more links");
    holds(rt, hall.served().len() == 2, "two links");
    holds(rt, hall.faults() == 1, "one fault");
    hall.back(link(rt, alloc, 9));
    holds(rt, hall.served().len() == 2, "still two links");
}

#[test]
fn a_hall_gives_its_links_in_order(rt: HostRuntime) {
    let mut hall = hall(&rt, rt.alloc());
    gives_two_links(&rt, rt.alloc(), &mut hall);
    tells_numbers(&rt, &mut hall);
}

/// A front of three halls, whose first call fails.
fn front(rt: &impl Abort, alloc: Global) -> MemoryFront<MemoryLink> {
    let mut halls = Vec::new(alloc);
    halls.push(hall(rt, alloc)).expect(rt, "memory");
    halls.push(hall(rt, alloc)).expect(rt, "memory");
    halls.push(hall(rt, alloc)).expect(rt, "memory");
    MemoryFront::new(alloc, halls, &[0]).expect(rt, "a front")
}

/// A front of one hall.
fn faultless_front(rt: &impl Abort, alloc: Global) -> FaultlessFront<FaultlessLink> {
    let mut halls = Vec::new(alloc);
    halls.push(faultless_hall(rt, alloc)).expect(rt, "memory");
    FaultlessFront::new(alloc, halls).expect(rt, "a front")
}

/// A hall gives a link, and where there are two workers its next call fails.
fn gives(rt: &impl Abort, hall: &mut MemoryHall<MemoryLink>, workers: u32)
    requires { hall.old.links.out ≡ false }
{
    holds(rt, next_byte(hall) == Ok(Some(7)), "a link");
    if workers == 2 {
        holds(rt, next_byte(hall) == Err(Failed), "a failed call");
    }
}

/// Looks at the last of the halls, if there is one, which goes back to the front then.
fn goes_back(
    rt: &impl Abort,
    front: &mut MemoryFront<MemoryLink>,
    halls: &mut Vec<MemoryHall<MemoryLink>>,
    workers: u32,
)
    requires { All (λ h. h.links.out ≡ false) halls.old.items }
    ensures { All (λ h. h.links.out ≡ false) halls.new.items }
{
    if let Some(hall) = halls.pop() {
        let mut hall = hall;
        gives(rt, &mut hall, workers);
        front.back(hall);
    }
}

/// How many halls a front gives for so many workers, one or two, which go back.
fn opened(
    rt: &impl Abort,
    alloc: Global,
    front: &mut MemoryFront<MemoryLink>,
    workers: u32,
) -> Result<usize, OpenEnd> {
    let mut halls = front.open(alloc, 8080, workers)?;
    let count = halls.len();
    goes_back(rt, front, &mut halls, workers);
    goes_back(rt, front, &mut halls, workers);
    Ok(count)
}

/// For how many workers a front is asked, and how many halls it gives.
static OPENED: [(u32, Result<usize, OpenEnd>); 4] = [
    (1, Err(OpenEnd::Failed)),
    (2, Ok(2)),
    (2, Err(OpenEnd::Failed)),
    (1, Ok(1)),
];

/// Looks at the halls of a front of three.
fn gives_three_halls(rt: &impl Abort, alloc: Global, front: &mut MemoryFront<MemoryLink>) {
    for (workers, want) in OPENED.iter() {
        let got = opened(rt, alloc, front, *workers);
        holds(rt, got == *want, "how many halls");
    }
    let asked = [(8080u16, 1u32), (8080, 2), (8080, 2), (8080, 1)];
    holds(rt, front.asked() == asked.as_slice(), "what was asked");
    holds(rt, front.returned().len() == 3, "what came back");
    holds(rt, front.faults() == 4, "the faults");
}

#[test]
fn a_front_gives_a_hall_for_each_worker(rt: HostRuntime) {
    let mut front = front(&rt, rt.alloc());
    gives_three_halls(&rt, rt.alloc(), &mut front);
}

/// The one hall of a front.
fn only_hall(
    alloc: Global,
    front: &mut FaultlessFront<FaultlessLink>,
) -> Result<Option<FaultlessHall<FaultlessLink>>, OpenEnd>
    ensures { IfOk result (λ o. IfSome o (λ h. h.links.out ≡ false)) }
{
    let mut halls = front.open(alloc, 80, 1)?;
    Ok(halls.pop())
}

/// Looks at the one link of a hall without faults.
fn gives_one_link(rt: &impl Abort, hall: &mut FaultlessHall<FaultlessLink>)
    requires { hall.old.links.out ≡ false }
{
    holds(rt, next_byte(hall) == Ok(Some(9)), "the link");
    holds(rt, next_byte(hall) == Ok(None), "no more links");
    holds(rt, hall.served().len() == 1, "one link");
    tells_numbers(rt, hall);
}

/// Looks at the one hall of a front, which goes back then.
fn gives_one_hall(rt: &impl Abort, alloc: Global, front: &mut FaultlessFront<FaultlessLink>) {
    match only_hall(alloc, front) {
        Ok(Some(hall)) => {
            let mut hall = hall;
            gives_one_link(rt, &mut hall);
            front.back(hall);
        }
        _ => panic!(rt; "no hall"),
    }
}

#[test]
fn a_front_without_faults_serves_with_what_it_has(rt: HostRuntime) {
    let mut front = faultless_front(&rt, rt.alloc());
    let two = front.open(rt.alloc(), 80, 2);
    holds(&rt, matches!(two, Err(OpenEnd::Memory)), "no two halls");
    gives_one_hall(&rt, rt.alloc(), &mut front);
    holds(&rt, front.returned().len() == 1, "one hall");
    OpenGate.before(0, 1);
    OpenGate.after(0, 1);
}
