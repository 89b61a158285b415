use amf_broker::{Answer, ClientIds, Deliveries, Delivery, Reply, SubIds};
use std::alloc::{AllocError, Global};
use std::str;

/// How many deliveries or bytes are told one by one.
const FEW: usize = 16;

/// An answer in words: its reply, and the clients that expired.
pub(crate) fn told(alloc: Global, answer: &Answer) -> Result<String, AllocError> {
    let mut out = String::new(alloc);
    put_reply(&mut out, &answer.reply)?;
    put_expired(&mut out, &answer.expired)?;
    Ok(out)
}

/// Answers in words, with a `;` between them.
pub(crate) fn put_answers(out: &mut String, answers: &[Answer]) -> Result<(), AllocError> {
    let mut is_first = true;
    for answer in answers {
        if !is_first {
            out.push_str("; ")?;
        }
        is_first = false;
        put_reply(out, &answer.reply)?;
        put_expired(out, &answer.expired)?;
    }
    Ok(())
}

fn put_reply(out: &mut String, reply: &Reply) -> Result<(), AllocError> {
    match reply {
        Reply::Client(client) => put(out, "client", client.0),
        Reply::Subscribed(sub) => put(out, "subscribed", sub.0),
        Reply::Unsubscribed(sub) => put(out, "unsubscribed", sub.0),
        Reply::Published { number, ended } => {
            put(out, "published", *number)?;
            put_ended(out, ended)
        }
        Reply::Batch { deliveries, ended } => {
            out.push_str("batch")?;
            put_batch(out, deliveries, ended)
        }
        Reply::Numbered {
            number,
            deliveries,
            ended,
        } => {
            put(out, "numbered", *number)?;
            put_batch(out, deliveries, ended)
        }
        Reply::Again {
            number,
            deliveries,
            ended,
        } => {
            put(out, "again", *number)?;
            put_batch(out, deliveries, ended)
        }
        refusal => put_refusal(out, refusal),
    }
}

fn put_refusal(out: &mut String, reply: &Reply) -> Result<(), AllocError> {
    match reply {
        Reply::Bye => out.push_str("bye"),
        Reply::Full(most) => put(out, "full", u64::from(*most)),
        Reply::NoClient(client) => put(out, "no client", client.0),
        Reply::NoTopic(name) => {
            out.push_str("no topic ")?;
            put_text(out, name.as_bytes())
        }
        Reply::TooLong(most) => put(out, "too long", u64::from(*most)),
        Reply::TooManySubs(most) => put(out, "too many", u64::from(*most)),
        Reply::NoSub(sub) => put(out, "no subscription", sub.0),
        Reply::BadNumber(last) => put(out, "bad number", *last),
        _ => out.push_str("no refusal"),
    }
}

fn put(out: &mut String, word: &str, number: u64) -> Result<(), AllocError> {
    write!(out, "{word} {number}")
}

/// The text of a few bytes, or else how many they are.
fn put_text(out: &mut String, bytes: &[u8]) -> Result<(), AllocError> {
    if bytes.len() > FEW {
        return put(out, "*", bytes.len() as u64);
    }
    out.push_str(str::from_utf8(bytes).unwrap_or("?"))
}

fn put_batch(out: &mut String, deliveries: &Deliveries, ended: &SubIds) -> Result<(), AllocError> {
    put_deliveries(out, deliveries.as_slice())?;
    put_ended(out, ended)
}

/// A few deliveries, each with its subscription, its number and its message, or else how many they are, and which is the
/// first where they follow one another at one subscription.
pub(crate) fn put_deliveries(out: &mut String, deliveries: &[Delivery]) -> Result<(), AllocError> {
    if deliveries.len() > FEW {
        put(out, "", deliveries.len() as u64)?;
        return match deliveries.first() {
            Some(first) if are_in_row(deliveries, first.sub.0, first.number) => {
                write!(out, " from {}:{}", first.sub.0, first.number)
            }
            _ => Ok(()),
        };
    }
    for delivery in deliveries {
        write!(out, " {}:{}:", delivery.sub.0, delivery.number)?;
        put_text(out, delivery.message.as_bytes())?;
    }
    Ok(())
}

/// Whether all are of this subscription, and numbered from this one on.
fn are_in_row(deliveries: &[Delivery], sub: u64, first: u64) -> bool {
    let mut number = first;
    for delivery in deliveries {
        if delivery.sub.0 != sub || delivery.number != number {
            return false;
        }
        number = number.wrapping_add(1);
    }
    true
}

fn put_ended(out: &mut String, ended: &SubIds) -> Result<(), AllocError> {
    for sub in ended.as_slice() {
        put(out, " ended", sub.0)?;
    }
    Ok(())
}

fn put_expired(out: &mut String, expired: &ClientIds) -> Result<(), AllocError> {
    for client in expired.as_slice() {
        put(out, " expired", client.0)?;
    }
    Ok(())
}
