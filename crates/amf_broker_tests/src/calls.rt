use amf_broker::{Call, ClientId, SubId, Topic};
use amf_wire::Name;
use std::alloc::Global;
use std::process::Abort;

/// A call as words, and the number that `#` stands for.
#[derive(Clone, Copy)]
pub(crate) struct Asked<'t> {
    pub text: &'t str,
    pub number: u64,
}

impl<'t> Asked<'t> {
    /// A word, which is empty where there are fewer.
    pub(crate) fn word(&self, place: usize) -> &'t str {
        let mut left = place;
        for word in self.text.split_whitespace() {
            if left == 0 {
                return word;
            }
            left -= 1;
        }
        ""
    }

    pub(crate) fn number(&self, place: usize) -> Option<u64> {
        let word = self.word(place);
        if word == "#" {
            return Some(self.number);
        }
        word.parse::<u64>().ok()
    }

    fn client(&self) -> Option<ClientId> {
        Some(ClientId(self.number(1)?))
    }

    fn sub(&self) -> Option<SubId> {
        Some(SubId(self.number(2)?))
    }

    /// A destination, which its subtopic follows behind a `/`.
    fn topic(&self, alloc: Global) -> Option<Topic> {
        let word = self.word(2);
        let (destination, subtopic) = word.split_once('/').unwrap_or((word, ""));
        Some(Topic {
            destination: name_of(alloc, destination)?,
            subtopic: name_of(alloc, subtopic)?,
        })
    }
}

/// A name. `x*100` stands for a hundred times `x`.
pub(crate) fn name_of(alloc: Global, word: &str) -> Option<Name> {
    let Some((part, times)) = word.split_once('*') else {
        return Name::of_bytes(alloc, word.as_bytes()).ok();
    };
    let text = part.repeat(alloc, times.parse::<usize>().ok()?).ok()?;
    Name::of_bytes(alloc, text.as_bytes()).ok()
}

/// The call that these words say, if they say one and there is memory for it.
pub(crate) fn call_of(alloc: Global, asked: &Asked<'_>) -> Option<Call> {
    match (asked.word(0), asked.text.split_whitespace().count()) {
        ("connect", 1) => Some(Call::Connect),
        ("subscribe", 3) => Some(Call::Subscribe {
            client: asked.client()?,
            topic: asked.topic(alloc)?,
        }),
        ("unsubscribe", 3) => Some(Call::Unsubscribe {
            client: asked.client()?,
            sub: asked.sub()?,
        }),
        ("publish", 4) => Some(Call::Publish {
            client: asked.client()?,
            topic: asked.topic(alloc)?,
            message: name_of(alloc, asked.word(3))?,
        }),
        ("poll", 2) => Some(Call::Poll {
            client: asked.client()?,
        }),
        ("poll", 3) => Some(Call::PollNumbered {
            client: asked.client()?,
            number: asked.number(2)?,
        }),
        ("disconnect", 2) => Some(Call::Disconnect {
            client: asked.client()?,
        }),
        _ => None,
    }
}

/// The call that these words say, in which `#` stands for a number.
pub(crate) fn call(rt: &impl Abort, alloc: Global, text: &str, number: u64) -> Call {
    call_of(alloc, &Asked { text, number }).expect(rt, text)
}

/// The one destination of most tests.
pub(crate) fn chat(rt: &impl Abort, alloc: Global) -> Vec<Name> {
    let name = name_of(alloc, "chat").expect(rt, "a name");
    let mut destinations = Vec::new(alloc);
    destinations.push(name).expect(rt, "memory");
    destinations
}
