// A type byte, and a field's header.
ghost use Rattle.std.specs.Prelude.{◌≡◌};
ghost use Rattle.wire.specs.Answer.{stay_at};
ghost use Rattle.wire.specs.Refusals.{told, told_moved};
ghost use Rattle.read.specs.Headers.{type_at, field_at};

use codes::TType;
use wire::Result;
use wire::cursor::Cursor;
use wire::refusal::Kind;

// The field's type and id; a Stop has id 0.
#[derive(Clone, Copy, Debug, PartialEq, Eq)]
pub struct TFieldIdentifier {
    pub field_type: TType,
    pub id: i16,
}

// A type byte at the cursor. Refuses 2, 1, 5.
// 0C at 0 gives Struct and ends at 1; 05 at 0 is refused: 5 at 0.
#[tactic(auto, unfolding(crate::specs::Headers::type_at, wire::specs::Answer::and_then))]
pub fn read_type(bytes: &[u8], cursor: Cursor) -> Result<(TType, Cursor)>
    ensures { told result ≡ type_at bytes.now cursor.at }
{
    let (b, next) = number::read_byte(bytes, cursor)?;
    let field_type = codes::field_type_from_u8(b).ok_or(Kind::UnknownType.at(cursor.at))?;
    Ok((field_type, next))
}

// A field's header: type and id, or a Stop, which is one byte with id 0. Refuses 2, 1, 5, then 1 for the id.
// 08 00 01 at 0 gives I32, id 1, and ends at 3; 08 00 at 0 is refused: 1 at 1.
#[tactic(auto, unfolding(crate::specs::Headers::field_at, wire::specs::Answer::and_then))]
pub fn read_field_begin(bytes: &[u8], cursor: Cursor) -> Result<(TFieldIdentifier, Cursor)>
    ensures { told result ≡ field_at bytes.now cursor.at }
{
    let (field_type, next) = read_type(bytes, cursor)?;
    if field_type.is_stop() {
        return Ok((TFieldIdentifier { field_type, id: 0 }, next));
    }
    let (id, end) = number::read_i16(bytes, next)?;
    Ok((TFieldIdentifier { field_type, id }, end))
}

// A field's end, which has no byte. Refuses 2.
// 00 at 1 stays at 1; 00 at 2 is refused: 2 at 2.
pub fn read_field_end(bytes: &[u8], cursor: Cursor) -> Result<Cursor>
    ensures { told_moved result ≡ stay_at bytes.now cursor.at }
{
    cursor.stay(bytes)
}
