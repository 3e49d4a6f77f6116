// Bytes and strings behind their length, and UUIDs.
ghost use Rattle.std.specs.Prelude.{◌≡◌};
ghost use Rattle.wire.specs.Refusals.{told_moved};
ghost use Rattle.wire.specs.Writes.{Wrote};
ghost use Rattle.write.specs.Outputs.{name_checked, bytes_write, string_write, uuid_write};

use crate::item::write_item;
use wire::Result;
use wire::cursor::Cursor;
use wire::refusal::Kind;

// Bytes behind their length, whatever they are. Refuses 2, 16, 15.
// FF at 0 of 5 bytes AA leaves 00 00 00 01 FF and ends at 5; FF at 1 of them is refused: 15 at 1.
#[tactic(auto, using(crate::proofs::Whole::starts, crate::proofs::Whole::landing, crate::proofs::Whole::sized_size), unfolding(crate::specs::Outputs::bytes_output, wire::specs::Writes::write_at, wire::specs::Writes::left, wire::specs::Writes::room_for, wire::specs::Writes::fail_if, wire::specs::Writes::unless_fails, wire::specs::Answer::and_then, wire::specs::Answer::refuse_if))]
pub fn write_bytes(out: &mut [u8], cursor: Cursor, b: &[u8]) -> Result<Cursor>
    ensures { Wrote result out.new out.old (bytes_write b.now out.old cursor.at) }
{
    let at = cursor.at;
    if out.len() < at {
        return Err(Kind::StartBeyond.at(at));
    }
    if 2_147_483_647 < b.len() {
        return Err(Kind::TooLong.at(at));
    }
    let next = cursor.room(out.len(), 4 + b.len())?;
    put::put_sized(&mut out[at..], b);
    Ok(next)
}

// What is judged of a name or string to be written before room is asked for it. Refuses 2, 16, 13.
// 61 62 at 3, in a buffer of 3 bytes, stays at 3; FF at 3 is refused: 13 at 0, counted in the name.
#[tactic(auto, unfolding(crate::specs::Outputs::name_checked, crate::specs::Outputs::named_output, wire::specs::Answer::refuse_if, wire::specs::Writes::fail_if, wire::specs::Writes::unless_fails))]
pub fn check_name(len: usize, cursor: Cursor, name: &[u8]) -> Result<Cursor>
    ensures { told_moved result ≡ name_checked len cursor.at name.now }
{
    let at = cursor.at;
    if len < at {
        return Err(Kind::StartBeyond.at(at));
    }
    if 2_147_483_647 < name.len() {
        return Err(Kind::TooLong.at(at));
    }
    if utf8::valid_up_to(name) < name.len() {
        return Err(Kind::NotUtf8.at(0));
    }
    Ok(cursor)
}

// A string behind its length, which must be UTF-8. Refuses 2, 16, 13, 15.
// 61 at 0 of 5 bytes AA leaves 00 00 00 01 61 and ends at 5; FF at 1 of them is refused: 13 at 0, counted in the text.
#[tactic(auto, unfolding(crate::specs::Outputs::bytes_output, crate::specs::Outputs::name_checked, crate::specs::Outputs::named_output, wire::specs::Writes::write_at, wire::specs::Writes::left, wire::specs::Writes::fail_if, wire::specs::Writes::unless_fails, wire::specs::Answer::refuse_if))]
pub fn write_string(out: &mut [u8], cursor: Cursor, s: &[u8]) -> Result<Cursor>
    ensures { Wrote result out.new out.old (string_write s.now out.old cursor.at) }
{
    check_name(out.len(), cursor, s)?;
    write_bytes(out, cursor, s)
}

// A UUID at the cursor, its sixteen bytes. Refuses 2, 15.
// 00 01 02 03 04 05 06 07 08 09 0A 0B 0C 0D 0E 0F at 0 of 16 bytes AA leaves these and ends at 16;
// at 1 of them it is refused: 15 at 1.
pub fn write_uuid(out: &mut [u8], cursor: Cursor, uuid: [u8; 16]) -> Result<Cursor>
    ensures { Wrote result out.new out.old (uuid_write uuid out.old cursor.at) }
{
    write_item(out, cursor, uuid)
}
