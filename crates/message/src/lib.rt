// A message's header: with a version (strict), or in the older layout that starts with the name.
#![tactic(auto)]

ghost use Rattle.std.specs.Prelude.{◌≡◌};
ghost use Rattle.wire.specs.Answer.{stay_at};
ghost use Rattle.wire.specs.Refusals.{told, told_moved};
ghost use Rattle.message.specs.Messages.{message_type_at, sequence_at, unversioned_at, versioned_at, message_at, name_of};
ghost use Rattle.text.specs.Texts.{part_found};

use codes::TMessageType;
use config::configuration::TConfiguration;
use text::Span;
use wire::Result;
use wire::cursor::Cursor;
use wire::refusal::Kind;

#[derive(Clone, Copy, Debug, PartialEq, Eq)]
pub struct TMessageIdentifier {
    pub name: Span,
    pub message_type: TMessageType,
    pub sequence_number: i32,
}

// A message type at the cursor. Refuses 2, 1, 4.
// 01 at 0 gives Call and ends at 1; 05 at 0 is refused: 4 at 0.
#[tactic(auto, unfolding(crate::specs::Messages::message_type_at, wire::specs::Answer::and_then))]
pub fn read_message_type(bytes: &[u8], cursor: Cursor) -> Result<(TMessageType, Cursor)>
    ensures { told result ≡ message_type_at bytes.now cursor.at }
{
    let (b, next) = number::read_byte(bytes, cursor)?;
    let Ok(message_type) = TMessageType::try_from(b) else {
        return Err(Kind::BadMessageType.at(cursor.at));
    };
    Ok((message_type, next))
}

// The sequence number, which comes last in both layouts.
#[tactic(auto, unfolding(crate::specs::Messages::sequence_at, wire::specs::Answer::and_then))]
fn read_sequence(
    bytes: &[u8],
    cursor: Cursor,
    name: Span,
    message_type: TMessageType,
) -> Result<(TMessageIdentifier, Cursor)>
    ensures { told result ≡ sequence_at name message_type bytes.now cursor.at }
{
    let (sequence_number, end) = number::read_i32(bytes, cursor)?;
    let message = TMessageIdentifier {
        name,
        message_type,
        sequence_number,
    };
    Ok((message, end))
}

// After a version: the type, the name, the sequence number.
#[tactic(auto, unfolding(crate::specs::Messages::versioned_at, wire::specs::Answer::and_then))]
fn read_versioned(
    bytes: &[u8],
    cursor: Cursor,
    config: TConfiguration,
) -> Result<(TMessageIdentifier, Cursor)>
    ensures { told result ≡ versioned_at config.max_string_size bytes.now cursor.at }
{
    let (message_type, named) = read_message_type(bytes, cursor)?;
    let (name, next) = text::read_string(bytes, named, config)?;
    read_sequence(bytes, next, name, message_type)
}

// The older layout: the name, the type, the sequence number.
#[tactic(auto, unfolding(crate::specs::Messages::unversioned_at, wire::specs::Answer::and_then))]
fn read_unversioned(
    bytes: &[u8],
    cursor: Cursor,
    config: TConfiguration,
) -> Result<(TMessageIdentifier, Cursor)>
    ensures { told result ≡ unversioned_at config.max_string_size bytes.now cursor.at }
{
    let (name, typed) = text::read_string(bytes, cursor, config)?;
    let (message_type, next) = read_message_type(bytes, typed)?;
    read_sequence(bytes, next, name, message_type)
}

// A message's header: the name's span, the type and the sequence number. Refuses 2, 1 for its four first bytes, 3; then
// with a version 4, the name's 1, 6, 7, 1, 13, and 1 for the sequence number; without one the name's 7, 1, 13, then
// 1, 4 for the type and 1. The top bit of the first byte tells the layouts apart; byte 2 of a version is not looked at.
// 80 01 00 01 00 00 00 02 61 62 00 00 00 07 at 0 gives 8 to 10, Call, 7 and ends at 14; without a version,
// 00 00 00 02 61 62 01 00 00 00 07 at 0 gives 4 to 6, Call, 7 and ends at 11, but in strict mode is refused: 3 at 0.
#[tactic(auto, using(wire::proofs::Within::inside), unfolding(crate::specs::Messages::message_at, wire::specs::Answer::and_then, wire::specs::Answer::refuse_if))]
pub fn read_message_begin(
    bytes: &[u8],
    cursor: Cursor,
    strict: bool,
    config: TConfiguration,
) -> Result<(TMessageIdentifier, Cursor)>
    ensures { told result ≡ message_at strict config.max_string_size bytes.now cursor.at }
{
    let at = cursor.at;
    cursor.past(bytes, 4)?;
    match (bytes[at], bytes[at + 1]) {
        (0..0x80, _) if !strict => read_unversioned(bytes, cursor, config),
        (0x80, 0x01) => read_versioned(bytes, Cursor::new(at + 3), config),
        _ => Err(Kind::BadVersion.at(at)),
    }
}

// A message's end, which has no byte. Refuses 2.
// 00 at 1 stays at 1; 00 at 2 is refused: 2 at 2.
pub fn read_message_end(bytes: &[u8], cursor: Cursor) -> Result<Cursor>
    ensures { told_moved result ≡ stay_at bytes.now cursor.at }
{
    cursor.stay(bytes)
}

// The very bytes of the name that `read_message_begin` finds, none where it refuses. Refuses nothing.
// 00 00 00 02 61 62 01 00 00 00 07 at 0 gives 61 62; in strict mode it gives none.
pub fn name_part(bytes: &[u8], cursor: Cursor, strict: bool, config: TConfiguration) -> &[u8]
    ensures { result.now ≡ part_found bytes.now (name_of (message_at strict config.max_string_size bytes.now cursor.at)) }
{
    let read = read_message_begin(bytes, cursor, strict, config);
    text::found(bytes, read.map(|(message, next)| (message.name, next)))
}
