// Headers of lists, sets and maps. Sizes are written as they are given, negative ones too.
ghost use Rattle.std.specs.Prelude.{◌≡◌};
ghost use Rattle.wire.specs.Answer.{stay_at};
ghost use Rattle.wire.specs.Refusals.{told_moved};
ghost use Rattle.wire.specs.Writes.{Wrote};
ghost use Rattle.write_headers.specs.Outputs.{list_write, map_write};

use crate::field::missing;
use codes::TType;
use read::container::{TListIdentifier, TSetIdentifier};
use wire::Result;
use wire::cursor::Cursor;
use write::item::write_item;

// A list and a set are laid out alike.
#[tactic(auto, unfolding(number::specs::BigEndian::bytes_of))]
fn write_elements(out: &mut [u8], cursor: Cursor, element_type: TType, size: i32) -> Result<Cursor>
    ensures { Wrote result out.new out.old (list_write element_type size out.old cursor.at) }
{
    let code = codes::field_type_to_u8(element_type);
    let [a, b, c, d] = size.to_be_bytes();
    write_item(out, cursor, [code, a, b, c, d])
}

// A list's header: element type and size. Refuses 2, 15.
// I08, 2 at 0 of 5 bytes AA leaves 03 00 00 00 02 and ends at 5; at 1 of them it is refused: 15 at 1.
pub fn write_list_begin(out: &mut [u8], cursor: Cursor, list: TListIdentifier) -> Result<Cursor>
    ensures { Wrote result out.new out.old (list_write list.element_type list.size out.old cursor.at) }
{
    write_elements(out, cursor, list.element_type, list.size)
}

// A list's end, which has no byte. Refuses 2.
// AA at 1 stays at 1; AA at 2 is refused: 2 at 2.
pub fn write_list_end(out: &[u8], cursor: Cursor) -> Result<Cursor>
    ensures { told_moved result ≡ stay_at out.now cursor.at }
{
    cursor.stay(out)
}

// A set's header: element type and size. Refuses 2, 15.
// I08, 2 at 0 of 5 bytes AA leaves 03 00 00 00 02 and ends at 5; at 1 of them it is refused: 15 at 1.
pub fn write_set_begin(out: &mut [u8], cursor: Cursor, set: TSetIdentifier) -> Result<Cursor>
    ensures { Wrote result out.new out.old (list_write set.element_type set.size out.old cursor.at) }
{
    write_elements(out, cursor, set.element_type, set.size)
}

// A set's end, which has no byte. Refuses 2.
// AA at 1 stays at 1; AA at 2 is refused: 2 at 2.
pub fn write_set_end(out: &[u8], cursor: Cursor) -> Result<Cursor>
    ensures { told_moved result ≡ stay_at out.now cursor.at }
{
    cursor.stay(out)
}

// A map's header: key type, value type and size. Refuses 2, 17, 15.
// I32, String, 2 at 0 of 6 bytes AA leaves 08 0B 00 00 00 02 and ends at 6; I32, no type, 2 is refused: 17 at 0.
#[tactic(auto, unfolding(crate::specs::Outputs::map_output, number::specs::BigEndian::bytes_of, wire::specs::Writes::write_at, wire::specs::Writes::left, wire::specs::Writes::fail_if, wire::specs::Writes::unless_fails, wire::specs::Answer::refuse_if))]
pub fn write_map_begin(
    out: &mut [u8],
    cursor: Cursor,
    key_type: Option<TType>,
    value_type: Option<TType>,
    size: i32,
) -> Result<Cursor>
    ensures { Wrote result out.new out.old (map_write key_type value_type size out.old cursor.at) }
{
    let (Some(key_type), Some(value_type)) = (key_type, value_type) else {
        return missing(out.len(), cursor);
    };
    let key = codes::field_type_to_u8(key_type);
    let value = codes::field_type_to_u8(value_type);
    let [a, b, c, d] = size.to_be_bytes();
    write_item(out, cursor, [key, value, a, b, c, d])
}

// A map's end, which has no byte. Refuses 2.
// AA at 1 stays at 1; AA at 2 is refused: 2 at 2.
pub fn write_map_end(out: &[u8], cursor: Cursor) -> Result<Cursor>
    ensures { told_moved result ≡ stay_at out.now cursor.at }
{
    cursor.stay(out)
}
