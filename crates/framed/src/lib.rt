// Frames: a size, then as many bytes. The payload of a frame that is read is a part of the lent bytes.
#![tactic(auto)]

ghost use Rattle.std.specs.Prelude.{◌≡◌};
ghost use Rattle.wire.specs.Refusals.{told};
ghost use Rattle.wire.specs.Writes.{Wrote};
ghost use Rattle.text.specs.Texts.{part_found};
ghost use Rattle.framed.specs.Frames.{frame_at, payload_of, frame_write};

use config::configuration::TConfiguration;
use text::{Body, Span};
use wire::Result;
use wire::cursor::Cursor;

// A frame: the span of its payload, or None at the end, where no byte is left. Refuses 2, 1, 6, 18, then 1 for the body.
// 00 00 00 00 at 0 gives 4 to 4 and ends at 4; 00 00 00 02 61 at 0 is refused: 1 at 4.
#[tactic(auto, unfolding(crate::specs::Frames::frame_at))]
pub fn read_frame(
    bytes: &[u8],
    cursor: Cursor,
    config: TConfiguration,
) -> Result<(Option<Span>, Cursor)>
    ensures { told result ≡ frame_at config.max_frame_size bytes.now cursor.at }
{
    if cursor.at == bytes.len() {
        return Ok((None, cursor));
    }
    let (payload, next) = text::read_sized(bytes, cursor, config.max_frame_size, Body::Frame)?;
    Ok((Some(payload), next))
}

// The very bytes of the payload that `read_frame` finds, none at the end and where it refuses. Refuses nothing.
// 00 00 00 01 61 at 0 gives 61; 00 00 00 02 61 at 0 gives none.
#[tactic(auto, using(text::proofs::Texts::part_empty))]
pub fn payload_part(bytes: &[u8], cursor: Cursor, config: TConfiguration) -> &[u8]
    ensures { result.now ≡ part_found bytes.now (payload_of (frame_at config.max_frame_size bytes.now cursor.at)) }
{
    match read_frame(bytes, cursor, config) {
        Ok((Some(payload), _)) => text::part(bytes, payload),
        _ => &[],
    }
}

// A payload behind its length; an empty one writes nothing. Refuses 2, 16, 15: the frame limit is the reader's.
// 61 at 0 of 5 bytes AA leaves 00 00 00 01 61 and ends at 5; 61 at 1 of them is refused: 15 at 1.
#[tactic(auto, using(wire::proofs::Writes::laid_none), unfolding(crate::specs::Frames::frame_output, wire::specs::Writes::write_at, wire::specs::Writes::left, wire::specs::Writes::room_for, wire::specs::Writes::unless_fails, wire::specs::Answer::and_then, wire::specs::Answer::refuse_if))]
pub fn write_frame(out: &mut [u8], cursor: Cursor, payload: &[u8]) -> Result<Cursor>
    ensures { Wrote result out.new out.old (frame_write payload.now out.old cursor.at) }
{
    if payload.is_empty() {
        return cursor.room(out.len(), 0);
    }
    write::string::write_bytes(out, cursor, payload)
}
