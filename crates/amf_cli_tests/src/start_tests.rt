use amf_cli::start::start;
use amf_cli::{Arguments, Environment, words_of};
use amf_io::{
    FaultlessDial, FaultlessFront, FaultlessLink, MemorySink, MemorySource, OpenGate, Sink, Source,
    StandardError, StandardInput, StandardOutput,
};
use amf_service::Registry;
use amf_wire::{Memory, Name};
use std::alloc::Global;
use std::env::FillError;
use std::process::{Abort, ExitCode};
use std::random::RandomSource;
use std::rt::Env;
use std::sync::Wait;
use std::thread::Threads;

/// Words in memory.
#[derive(Clone, Copy)]
struct Given<'a> {
    words: &'a [Name],
}

impl Arguments for Given<'_> {
    ghost tells = { λ given. Unit {0} };

    ghost words = { λ given. given.words.now };

    fn word(&self, alloc: Global, place: usize) -> Result<Option<Name>, Memory> {
        match self.words.get(place) {
            Some(word) => Ok(Some(word.copy(alloc)?)),
            None => Ok(None),
        }
    }
}

/// These words.
fn names_of(rt: &impl Abort, alloc: Global, words: &[&[u8]]) -> Vec<Name> {
    let mut names = Vec::new(alloc);
    for word in words {
        let name = Name::of_bytes(alloc, word).expect(rt, "memory");
        names.push(name).expect(rt, "memory");
    }
    names
}

/// Starts with a front without halls, without services, and with a dial without links.
fn start_alone<R: RandomSource + Threads + Wait + Abort + Sync, I: Source, O: Sink, E: Sink>(
    rt: &R,
    alloc: Global,
    words: &[&[u8]],
    input: &mut I,
    out: &mut O,
    err: &mut E,
) -> ExitCode {
    let front = FaultlessFront::new(alloc, Vec::new(alloc));
    let mut front: FaultlessFront<FaultlessLink> = front.expect(rt, "a front");
    let dial = FaultlessDial::new(alloc, Vec::new(alloc));
    let mut dial: FaultlessDial<FaultlessLink> = dial.expect(rt, "a dial");
    let registry = Registry::new(alloc, Vec::new(alloc)).expect(rt, "a registry");
    let names = names_of(rt, alloc, words);
    let given = Given { words: &names };
    start(
        rt, alloc, &given, input, out, err, &mut front, &OpenGate, &registry, &mut dial,
    )
}

/// Words and an input, with the exit code, the output and the error line.
#[derive(Clone, Copy)]
struct Start {
    words: &'static [&'static [u8]],
    input: &'static [u8],
    code: u8,
    output: &'static [u8],
    line: &'static [u8],
}

static STARTS: [Start; 5] = [
    Start {
        words: &[b"canon", b"--to=amf3"],
        input: b"\x04\x80\x05",
        code: 0,
        output: b"\x04\x05",
        line: b"",
    },
    Start {
        words: &[b"canon"],
        input: b"\x12",
        code: 1,
        output: b"",
        line: b"amf: refused BadMarker at 0\n",
    },
    Start {
        words: &[b"same", b"canon"],
        input: b"\x01",
        code: 2,
        output: b"",
        line: b"amf: usage\n",
    },
    Start {
        words: &[b"same", b"\xFF"],
        input: b"\x01",
        code: 2,
        output: b"",
        line: b"amf: usage\n",
    },
    Start {
        words: &[],
        input: b"\x01",
        code: 2,
        output: b"",
        line: b"amf: usage\n",
    },
];

fn check_start<R: RandomSource + Threads + Wait + Abort + Sync>(
    rt: &R,
    alloc: Global,
    start: &Start,
) {
    let mut input = MemorySource::new(alloc, start.input, 9, 0, &[]).expect(rt, "a source");
    let mut output = MemorySink::new(alloc, 9, &[]).expect(rt, "a sink");
    let mut line = MemorySink::new(alloc, 100, &[]).expect(rt, "a sink");
    let code = start_alone(rt, alloc, start.words, &mut input, &mut output, &mut line);
    assert!(rt; code == ExitCode::from(start.code));
    assert!(rt; output.as_bytes() == start.output);
    assert!(rt; line.as_bytes() == start.line);
}

#[test]
fn starts_over_streams_in_memory(rt: HostRuntime) {
    for start in STARTS.iter() {
        check_start(&rt, rt.alloc(), start);
    }
}

/// Words, and the exit code over an empty input.
static REAL: [(&[&[u8]], u8); 2] = [(&[b"canon"], 1), (&[b"cannon"], 2)];

#[test]
fn starts_over_the_real_streams(rt: HostRuntime) {
    for (words, code) in REAL.iter() {
        let exit = start_alone(
            &rt,
            rt.alloc(),
            words,
            &mut StandardInput::new(rt.stdin()),
            &mut StandardOutput::new(rt.stdout()),
            &mut StandardError::new(rt.stderr()),
        );
        assert!(rt; exit == ExitCode::from(*code));
    }
}

/// An environment with these words, the program's name among them.
#[derive(Drop)]
struct Machine {
    words: &'static [&'static [u8]],
}

impl Env for Machine {
    fn arg(&self, i: usize, buf: &mut [u8]) -> Result<usize, FillError> {
        let Some(word) = self.words.get(i) else {
            return Err(FillError::NotPresent);
        };
        if word.len() > buf.len() {
            return Err(FillError::TooLong);
        }
        let length = word.len();
        buf[..length].copy_from_slice(word);
        Ok(length)
    }

    fn var(&self, _name: &str, _buf: &mut [u8]) -> Result<usize, FillError> {
        Err(FillError::NotPresent)
    }

    fn var_at(&self, _i: usize, _buf: &mut [u8]) -> Result<usize, FillError> {
        Err(FillError::NotPresent)
    }
}

static WORDS: [&[u8]; 4] = [b"\xFF\xFE", b"canon", b"\xFF", &[120; 700]];

/// The words behind a program's name that is not UTF-8.
#[test]
fn takes_words_from_an_environment(rt: HostRuntime) {
    for count in 0..5usize {
        let machine = Machine {
            words: &WORDS[..count.min(4)],
        };
        let words = words_of(rt.alloc(), &Environment::new(&machine));
        let words = words.expect(&rt, "memory");
        assert!(rt; words.len() == count.min(4).saturating_sub(1));
        for (word, want) in words.iter().zip(WORDS.iter().skip(1)) {
            assert!(rt; word.as_bytes() == *want);
        }
    }
}
