// A size, then as many bytes: texts, names and frames are read here, and their bytes handed out.
#![tactic(auto)]

ghost use Rattle.std.specs.Prelude.{◌≡◌};
ghost use Rattle.wire.specs.Refusals.{kind_number, told};
ghost use Rattle.text.specs.Texts.{over_number, size_at, limited_at, sized_at, bytes_at, string_at, uuid_at, part_marked, part_found};

use config::configuration::TConfiguration;
use config::limit;
use wire::Result;
use wire::cursor::Cursor;
use wire::refusal::Kind;

// From its first byte up to the one after its last.
#[derive(Clone, Copy, Debug, PartialEq, Eq)]
pub struct Span {
    pub start: usize,
    pub end: usize,
}

// What a size counts the bytes of: each has a refusal of its own above its limit.
#[derive(Clone, Copy, Debug, PartialEq, Eq)]
pub enum Body {
    Text,
    Frame,
}

impl Body {
    fn above_limit(self) -> Kind
        ensures { kind_number result ≡ over_number self }
    {
        match self {
            Body::Text => Kind::StringLimit,
            Body::Frame => Kind::FrameLimit,
        }
    }
}

// A 32-bit size at the cursor, which must not be negative. Refuses 2, 1, 6.
// 00 00 00 02 at 0 gives 2 and ends at 4; FF FF FF FF at 0 is refused: 6 at 0.
#[tactic(auto, using(crate::proofs::Texts::not_negative), unfolding(crate::specs::Texts::size_at, wire::specs::Answer::and_then, wire::specs::Answer::refuse_if))]
pub fn read_size(bytes: &[u8], cursor: Cursor) -> Result<(usize, Cursor)>
    ensures { told result ≡ size_at bytes.now cursor.at }
{
    let (size, next) = number::read_i32(bytes, cursor)?;
    if size < 0 {
        return Err(Kind::NegativeSize.at(cursor.at));
    }
    Ok((size as usize, next))
}

// A size within its limit. Refuses 2, 1, 6, then 7 for a text's and 18 for a frame's.
// 00 00 00 02 at 0, a text's, limit 2, gives 2 and ends at 4; limit 1 is refused: 7 at 0.
#[tactic(auto, unfolding(crate::specs::Texts::limited_at, wire::specs::Answer::and_then, wire::specs::Answer::refuse_if))]
pub fn read_limited(
    bytes: &[u8],
    cursor: Cursor,
    limit: Option<usize>,
    body: Body,
) -> Result<(usize, Cursor)>
    ensures { told result ≡ limited_at body limit bytes.now cursor.at }
{
    let (size, next) = read_size(bytes, cursor)?;
    if limit::exceeded(limit, size) {
        return Err(body.above_limit().at(cursor.at));
    }
    Ok((size, next))
}

// Such a size, then as many bytes: the span in which they stand. Refuses 2, 1, 6, 7 or 18, then 1 for the body.
// 00 00 00 02 61 62 at 0 gives 4 to 6 and ends at 6; 00 00 00 02 61 at 0 is refused: 1 at 4.
#[tactic(auto, unfolding(crate::specs::Texts::sized_at, wire::specs::Answer::and_then))]
pub fn read_sized(
    bytes: &[u8],
    cursor: Cursor,
    limit: Option<usize>,
    body: Body,
) -> Result<(Span, Cursor)>
    ensures { told result ≡ sized_at body limit bytes.now cursor.at }
{
    let (size, first) = read_limited(bytes, cursor, limit, body)?;
    let next = first.past(bytes, size)?;
    Ok((
        Span {
            start: first.at,
            end: next.at,
        },
        next,
    ))
}

// Bytes behind their length, whatever they are: their span. Refuses 2, 1, 6, 7, then 1 for the body.
// 00 00 00 01 FF at 0 gives 4 to 5 and ends at 5; 00 00 00 01 at 0 is refused: 1 at 4.
pub fn read_bytes(bytes: &[u8], cursor: Cursor, config: TConfiguration) -> Result<(Span, Cursor)>
    ensures { told result ≡ bytes_at config.max_string_size bytes.now cursor.at }
{
    read_sized(bytes, cursor, config.max_string_size, Body::Text)
}

// A string or a name behind its length, which must be UTF-8: its span. Refuses 2, 1, 6, 7, then 1 for the body, 13.
// 00 00 00 02 61 62 at 0 gives 4 to 6 and ends at 6; 00 00 00 01 FF at 0 is refused: 13 at 4.
#[tactic(auto, unfolding(crate::specs::Texts::string_at, wire::specs::Answer::and_then, wire::specs::Answer::refuse_if))]
pub fn read_string(bytes: &[u8], cursor: Cursor, config: TConfiguration) -> Result<(Span, Cursor)>
    ensures { told result ≡ string_at config.max_string_size bytes.now cursor.at }
{
    let (span, next) = read_bytes(bytes, cursor, config)?;
    let text = part(bytes, span);
    if utf8::valid_up_to(text) < text.len() {
        return Err(Kind::NotUtf8.at(span.start));
    }
    Ok((span, next))
}

// A UUID at the cursor, sixteen bytes that are one item: their span. Refuses 2, 1.
// 00 01 02 03 04 05 06 07 08 09 0A 0B 0C 0D 0E 0F at 0 gives 0 to 16 and ends at 16;
// without the last byte it is refused: 1 at 0.
#[tactic(auto, unfolding(crate::specs::Texts::uuid_at, wire::specs::Answer::and_then))]
pub fn read_uuid(bytes: &[u8], cursor: Cursor) -> Result<(Span, Cursor)>
    ensures { told result ≡ uuid_at bytes.now cursor.at }
{
    let next = cursor.past(bytes, 16)?;
    Ok((
        Span {
            start: cursor.at,
            end: next.at,
        },
        next,
    ))
}

// The very bytes in a span, none where it does not lie inside. Refuses nothing.
// Of 61 62 63, the span 1 to 3 gives 62 63; 2 to 4 and 3 to 1 give none.
#[tactic(auto, using(crate::proofs::Texts::part_empty, crate::proofs::Texts::part_outside, crate::proofs::Texts::part_inside))]
pub fn part(bytes: &[u8], span: Span) -> &[u8]
    ensures { result.now ≡ part_marked bytes.now span }
{
    bytes.get(span.start..span.end).unwrap_or(&[])
}

// The very bytes that a read found, none where it refused. Refuses nothing.
// Of 61 62 63, a read that gave 1 to 3 gives 62 63; one that was refused gives none.
pub fn found(bytes: &[u8], read: Result<(Span, Cursor)>) -> &[u8]
    ensures { result.now ≡ part_found bytes.now (told read) }
{
    match read {
        Ok((span, _)) => part(bytes, span),
        Err(_) => &[],
    }
}

// The very bytes that `read_bytes` finds, none where it refuses. Refuses nothing.
// 00 00 00 01 FF at 0 gives FF; 00 00 00 01 at 0 gives none.
pub fn bytes_part(bytes: &[u8], cursor: Cursor, config: TConfiguration) -> &[u8]
    ensures { result.now ≡ part_found bytes.now (bytes_at config.max_string_size bytes.now cursor.at) }
{
    found(bytes, read_bytes(bytes, cursor, config))
}

// The very bytes that `read_string` finds, none where it refuses. Refuses nothing.
// 00 00 00 02 61 62 at 0 gives 61 62; 00 00 00 01 FF at 0 gives none.
pub fn string_part(bytes: &[u8], cursor: Cursor, config: TConfiguration) -> &[u8]
    ensures { result.now ≡ part_found bytes.now (string_at config.max_string_size bytes.now cursor.at) }
{
    found(bytes, read_string(bytes, cursor, config))
}

// The very bytes that `read_uuid` finds, none where it refuses. Refuses nothing.
// 00 01 02 03 04 05 06 07 08 09 0A 0B 0C 0D 0E 0F at 0 gives these sixteen bytes;
// without the last byte it gives none.
pub fn uuid_part(bytes: &[u8], cursor: Cursor) -> &[u8]
    ensures { result.now ≡ part_found bytes.now (uuid_at bytes.now cursor.at) }
{
    found(bytes, read_uuid(bytes, cursor))
}
