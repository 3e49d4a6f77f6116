// A field's header, and the stop that ends a struct's fields.
ghost use Rattle.std.specs.Prelude.{◌≡◌, ltb};
ghost use Rattle.wire.specs.Answer.{stay_at, refuse_if, refused};
ghost use Rattle.wire.specs.Refusals.{told_moved};
ghost use Rattle.wire.specs.Writes.{Wrote};
ghost use Rattle.write_headers.specs.Outputs.{field_write, stop_write};

use codes::TType;
use wire::Result;
use wire::cursor::Cursor;
use wire::refusal::Kind;
use write::item::write_item;

// Something that must be written is not there: 2 comes first.
#[tactic(auto, unfolding(wire::specs::Writes::room_for, wire::specs::Answer::refuse_if))]
pub(crate) fn missing(len: usize, cursor: Cursor) -> Result<Cursor>
    ensures { told_moved result ≡ refuse_if (ltb len cursor.at) 2 cursor.at (refused 17 cursor.at) }
{
    cursor.room(len, 0)?;
    Err(Kind::Missing.at(cursor.at))
}

// A field's header: type and id, which only a Stop may lack; one with an id has three bytes, one without has one.
// Refuses 2, 17, 15.
// Stop, id 5 at 0 of AA AA AA leaves 00 00 05 and ends at 3; I32 without an id at 0 is refused: 17 at 0.
#[tactic(auto, unfolding(crate::specs::Outputs::field_output, number::specs::BigEndian::bytes_of, wire::specs::Writes::write_at, wire::specs::Writes::left, wire::specs::Writes::fail_if, wire::specs::Writes::unless_fails, wire::specs::Answer::refuse_if))]
pub fn write_field_begin(
    out: &mut [u8],
    cursor: Cursor,
    field_type: TType,
    id: Option<i16>,
) -> Result<Cursor>
    ensures { Wrote result out.new out.old (field_write field_type id out.old cursor.at) }
{
    let code = codes::field_type_to_u8(field_type);
    match id {
        Some(id) => {
            let [high, low] = id.to_be_bytes();
            write_item(out, cursor, [code, high, low])
        }
        None if field_type.is_stop() => write_item(out, cursor, [code]),
        None => missing(out.len(), cursor),
    }
}

// A field's end, which has no byte. Refuses 2.
// AA at 1 stays at 1; AA at 2 is refused: 2 at 2.
pub fn write_field_end(out: &[u8], cursor: Cursor) -> Result<Cursor>
    ensures { told_moved result ≡ stay_at out.now cursor.at }
{
    cursor.stay(out)
}

// The Stop that ends a struct's fields, one byte. Refuses 2, 15.
// At 0 of AA it leaves 00 and ends at 1; at 1 of AA it is refused: 15 at 1.
pub fn write_field_stop(out: &mut [u8], cursor: Cursor) -> Result<Cursor>
    ensures { Wrote result out.new out.old (stop_write out.old cursor.at) }
{
    write_item(out, cursor, [codes::field_type_to_u8(TType::Stop)])
}
