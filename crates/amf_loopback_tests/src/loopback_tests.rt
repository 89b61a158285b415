ghost use Rattle.std.specs.Prelude.{◌≡◌, false};

use crate::given::Given;
use amf_cli::start_with_services;
use amf_io::{Dial, Front, Hall, MemorySink, MemorySource, TcpDial, TcpFront};
use amf_wire::Memory;
use itoa::Buffer;
use std::alloc::Global;
use std::net::{Net, TcpListener, TcpStream};
use std::process::ExitCode;
use std::random::RandomSource;
use std::sync::Wait;
use std::test::Fail;
use std::thread;
use std::thread::Threads;
use std::time::Clock;

/// How often the call is tried, until its port is listened at.
const TRIES: usize = 1_000_000;

/// The sum of 2 and 3, as it is written.
const FIVE: &[u8] = b"\x05\x40\x14\0\0\0\0\0\0";

/// What a start of the program gave.
#[derive(Drop)]
struct Ran {
    code: ExitCode,
    output: MemorySink,
}

/// Starts the program with these words over streams in memory.
fn program<R: RandomSource + Threads + Wait + Sync, F: Front, D: Dial>(
    rt: &R,
    alloc: Global,
    words: &[&[u8]],
    input: &[u8],
    front: &mut F,
    dial: &mut D,
) -> Result<Ran, Memory>
where
    <F::Hall as Hall>::Link: Send,
    requires { D.is_out dial.old ≡ false }
{
    let arguments = Given::new(alloc, words)?;
    let mut source = MemorySource::new(alloc, input, usize::MAX, 0, &[])?;
    let mut output = MemorySink::new(alloc, usize::MAX, &[])?;
    let mut error = MemorySink::new(alloc, usize::MAX, &[])?;
    let code = start_with_services(
        rt,
        alloc,
        &arguments,
        &mut source,
        &mut output,
        &mut error,
        front,
        dial,
    );
    Ok(Ran { code, output })
}

/// Serves two links at this port, one after the other.
fn serve<R: RandomSource + Threads + Wait + Sync, F: Front, D: Dial>(
    rt: &R,
    alloc: Global,
    port: &[u8],
    front: &mut F,
    dial: &mut D,
) -> Result<Ran, Memory>
where
    <F::Hall as Hall>::Link: Send,
    requires { D.is_out dial.old ≡ false }
{
    let words = [
        b"serve".as_slice(),
        b"--port",
        port,
        b"--workers=1",
        b"--each=2",
    ];
    program(rt, alloc, &words, b"", front, dial)
}

/// Whether the sum of 2 and 3 is 5 where it is called at this port. It is called until the port is listened at, each time over a new dial.
fn is_five<
    R: Net<Listener = TcpListener, Stream = TcpStream>
        + Clock
        + RandomSource
        + Threads
        + Wait
        + Sync
        + Send
        + Copy
        + Drop,
>(rt: &R, alloc: Global, port: &[u8]) -> Result<bool, Memory> {
    let words = [b"call".as_slice(), b"--port", port, b"--target=sum.sum"];
    let input = b"\x09\x05\x01\x04\x02\x04\x03";
    for _ in 0..TRIES {
        let mut front = TcpFront::new(*rt);
        let mut dial = TcpDial::new(*rt);
        let ran = program(rt, alloc, &words, input, &mut front, &mut dial)?;
        if ran.code != ExitCode::from(10) {
            return Ok(ran.code == ExitCode::from(0) && ran.output.as_bytes() == FIVE);
        }
    }
    Ok(false)
}

/// Whether it is so twice: the second call is made once the first is answered.
fn is_five_twice<
    R: Net<Listener = TcpListener, Stream = TcpStream>
        + Clock
        + RandomSource
        + Threads
        + Wait
        + Sync
        + Send
        + Copy
        + Drop,
>(rt: &R, alloc: Global, port: &[u8]) -> Result<bool, Memory> {
    Ok(is_five(rt, alloc, port)? && is_five(rt, alloc, port)?)
}

/// One side serves two links, one after the other, and the other calls a service that is shipped over each.
#[test]
fn calls_what_is_served(rt: HostRuntime) -> Result<(), Fail> {
    let alloc = rt.alloc();
    let listener = TcpListener::bind(&rt, "127.0.0.1:0")?;
    let mut digits = Buffer::new();
    let port = digits.format(listener.local_addr()?.port()).as_bytes();
    drop(listener);
    let (served, called) = thread::join(
        &rt,
        || serve(
            &rt,
            alloc,
            port,
            &mut TcpFront::new(rt),
            &mut TcpDial::new(rt),
        ),
        || is_five_twice(&rt, alloc, port),
    );
    let served = served?;
    assert!(rt; called?);
    assert_eq!(rt; served.code, ExitCode::from(0));
    assert_eq!(rt;
        served.output.as_bytes(),
        b"calls 0 published 0 delivered 0 queued 0\n".as_slice()
    );
    Ok(())
}
