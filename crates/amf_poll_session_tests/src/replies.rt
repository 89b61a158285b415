use amf_test_rows::{Row, Table};
use itoa::Buffer;
use std::alloc::Global;
use std::test::Fail;

/// An AcknowledgeMessage with its headers and its correlation identifier.
const ACKNOWLEDGE: &[u8] =
    b"\x0A\x23\x55flex.messaging.messages.AcknowledgeMessage\x0Fheaders\x1BcorrelationId";

/// A CommandMessage with its body, its correlation identifier and its operation.
const COMMAND: &[u8] =
    b"\x0A\x33\x4Dflex.messaging.messages.CommandMessage\x09body\x1BcorrelationId\x13operation";

/// Replies, one a row: the target of the one message, and the AMF 3 value of its body, behind the class and the names of an AcknowledgeMessage,
/// 1, or of a CommandMessage, 2. They are named by their places, from 0.
///
/// 0 to 4 answer a ping, a subscribe, the polls 1 and 2 and a disconnect. 5 to 7 are batches: of poll 1, of poll 2, and of poll 1 with an
/// end of a subscription. 8 to 16 are no answers to poll 1, 17 and 18 none to a ping, and 19 none to a subscribe. The last two are faults.
pub(crate) static REPLIES: Table = Table {
    rows: 22,
    fields: 3,
    text: r"
'/1/onResult' | 1 | 0A0B01 09 'DSId' 06 03 '7' 01 06 03 'p'
'/1/onResult' | 1 | 01 06 03 's'
'/1/onResult' | 1 | 01 06 03 '1'
'/1/onResult' | 1 | 01 06 03 '2'
'/1/onResult' | 1 | 01 06 03 'd'
'/1/onResult' | 2 | 09 03 01 0A 13 49 'flex.messaging.messages.AsyncMessage' 09 'body' 06 05 'hi' 06 03 '1' 04 04
'/1/onResult' | 2 | 09 03 01 0A 13 49 'flex.messaging.messages.AsyncMessage' 09 'body' 04 05 06 03 '2' 04 04
'/1/onResult' | 2 | 090501 0A134D'flex.messaging.messages.CommandMessage'13'operation'040A 0A1349'flex.messaging.messages.AsyncMessage'09'body'03 0603'1'0404
'/1/onResult' | 2 | 01 06 03 '1' 04 04
'/1/onResult' | 2 | 09 01 03 'a' 01 01 06 03 '1' 04 04
'/1/onResult' | 2 | 09 03 01 01 06 03 '1' 04 04
'/1/onResult' | 2 | 09 03 01 0A 13 4D 'flex.messaging.messages.CommandMessage' 13 'operation' 04 04 06 03 '1' 04 04
'/1/onResult' | 2 | 09 01 01 06 03 '1' 04 05
'/1/onResult' | 2 | 09 01 01 06 03 '1' 01
'/1/onResult' | 0 | 0A 23 49 'flex.messaging.messages.AsyncMessage' 09 'body' 1B 'correlationId' 01 06 03 '1'
'/1/onResult' | 0 | 0A 13 01 1B 'correlationId' 06 03 '1'
'/1/onResult' | 0 | 01
'/1/onResult' | 1 | 0A0B01 01 06 03 'p'
'/1/onResult' | 1 | 0A0B01 09 'DSId' 04 07 01 06 03 'p'
'/1/onResult' | 1 | 01 01
'/1/onStatus' | 0 | 0A 0B 01 09 'code' 06 03 'c' 17 'description' 06 03 't' 01
'/1/onStatus' | 0 | 0A 23 49 'flex.messaging.messages.ErrorMessage' 13 'faultCode' 17 'faultString' 06 03 'e' 06 03 'f'
",
};

/// Adds bytes with the digits of a number behind them.
fn add_number(bytes: &mut Vec<u8>, before: &[u8], number: usize) -> Result<(), Fail> {
    let mut digits = Buffer::new();
    bytes.extend_from_slice(before)?;
    bytes.extend_from_slice(digits.format(number).as_bytes())?;
    Ok(())
}

/// Adds the bytes of the reply of a row: a packet with one message behind a head.
fn add_reply(alloc: Global, bytes: &mut Vec<u8>, row: Row<'_>) -> Result<(), Fail> {
    let target = row.bytes(alloc, 0)?;
    let class: &[u8] = match row.number(1)? {
        0 => b"",
        1 => ACKNOWLEDGE,
        _ => COMMAND,
    };
    let value = row.bytes(alloc, 2)?;
    let size = class.len().wrapping_add(value.len()).wrapping_add(30);
    add_number(
        bytes,
        b"HTTP/1.1 200 OK\r\nContent-Type: application/x-amf\r\nContent-Length: ",
        size,
    )?;
    bytes.extend_from_slice(b"\r\n\r\n\0\x03\0\0\0\x01\0\x0B")?;
    bytes.extend_from_slice(&target)?;
    bytes.extend_from_slice(b"\0\x04null\xFF\xFF\xFF\xFF\x11")?;
    bytes.extend_from_slice(class)?;
    bytes.extend_from_slice(&value)?;
    Ok(())
}

/// The replies at these places, one behind the other.
pub(crate) fn replies_at(alloc: Global, places: &[u8]) -> Result<Vec<u8>, Fail> {
    let mut bytes = Vec::new(alloc);
    for place in places {
        for (row, at) in REPLIES.rows(alloc)?.into_iter().zip(0u8..) {
            if at == *place {
                add_reply(alloc, &mut bytes, row)?;
            }
        }
    }
    Ok(bytes)
}
