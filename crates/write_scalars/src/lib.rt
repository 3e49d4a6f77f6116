// Bytes, bools, numbers and doubles into a lent buffer at a cursor: the moved cursor, or the refusal with the buffer as
// it was.
#![tactic(auto, unfolding(number::specs::BigEndian::bytes_of))]

ghost use Rattle.wire.specs.Writes.{Wrote};
ghost use Rattle.write.specs.Outputs.{byte_write, bool_write, i8_write, i16_write, i32_write, i64_write, double_write};

use wire::Result;
use wire::cursor::Cursor;
use write::item::write_item;

// A bool at the cursor: 1 or 0. Refuses 2, 15.
// true at 0 of AA leaves 01 and ends at 1; true at 1 of AA is refused: 15 at 1.
pub fn write_bool(out: &mut [u8], cursor: Cursor, b: bool) -> Result<Cursor>
    ensures { Wrote result out.new out.old (bool_write b out.old cursor.at) }
{
    write_byte(out, cursor, u8::from(b))
}

// An 8-bit signed number at the cursor. Refuses 2, 15.
// 7 at 0 of AA leaves 07 and ends at 1; 7 at 1 of AA is refused: 15 at 1.
pub fn write_i8(out: &mut [u8], cursor: Cursor, i: i8) -> Result<Cursor>
    ensures { Wrote result out.new out.old (i8_write i out.old cursor.at) }
{
    write_item(out, cursor, i8::to_be_bytes(i))
}

// A 16-bit signed number at the cursor. Refuses 2, 15.
// 7 at 0 of 2 bytes AA leaves 00 07 and ends at 2; 7 at 1 of them is refused: 15 at 1.
pub fn write_i16(out: &mut [u8], cursor: Cursor, i: i16) -> Result<Cursor>
    ensures { Wrote result out.new out.old (i16_write i out.old cursor.at) }
{
    write_item(out, cursor, i16::to_be_bytes(i))
}

// A 32-bit signed number at the cursor. Refuses 2, 15.
// 7 at 0 of 4 bytes AA leaves 00 00 00 07 and ends at 4; 7 at 1 of them is refused: 15 at 1.
pub fn write_i32(out: &mut [u8], cursor: Cursor, i: i32) -> Result<Cursor>
    ensures { Wrote result out.new out.old (i32_write i out.old cursor.at) }
{
    write_item(out, cursor, i32::to_be_bytes(i))
}

// A 64-bit signed number at the cursor. Refuses 2, 15.
// 7 at 0 of 8 bytes AA leaves 00 00 00 00 00 00 00 07 and ends at 8; 7 at 1 of them is refused: 15 at 1.
pub fn write_i64(out: &mut [u8], cursor: Cursor, i: i64) -> Result<Cursor>
    ensures { Wrote result out.new out.old (i64_write i out.old cursor.at) }
{
    write_item(out, cursor, i64::to_be_bytes(i))
}

// A double at the cursor, by its eight bytes; a NaN is written as 7F F8 00 00 00 00 00 00, and write_i64 keeps its
// payload. Refuses 2, 15.
// 1 at 0 of 8 bytes AA leaves 3F F0 00 00 00 00 00 00 and ends at 8; 1 at 1 of them is refused: 15 at 1.
pub fn write_double(out: &mut [u8], cursor: Cursor, d: f64) -> Result<Cursor>
    ensures { Wrote result out.new out.old (double_write d out.old cursor.at) }
{
    write_item(out, cursor, sign::pattern(d).to_be_bytes())
}

// A byte at the cursor. Refuses 2, 15.
// 7 at 0 of AA leaves 07 and ends at 1; 7 at 1 of AA is refused: 15 at 1.
pub fn write_byte(out: &mut [u8], cursor: Cursor, b: u8) -> Result<Cursor>
    ensures { Wrote result out.new out.old (byte_write b out.old cursor.at) }
{
    write_item(out, cursor, [b])
}
