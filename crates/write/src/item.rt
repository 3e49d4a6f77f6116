// Items, so many bytes given by value: numbers, UUIDs and the headers of fields and containers are written through here.
ghost use Rattle.wire.specs.Writes.{Wrote, put_at};

use wire::Result;
use wire::cursor::Cursor;

// The bytes of an item at the cursor, all of them or none. Refuses 2, 15.
// 00 07 at 0 of 2 bytes AA leaves 00 07 and ends at 2; at 1 of them it is refused: 15 at 1.
#[tactic(auto, using(crate::proofs::Whole::starts, crate::proofs::Whole::landing), unfolding(wire::specs::Writes::write_at, wire::specs::Writes::left, wire::specs::Writes::room_for, wire::specs::Writes::unless_fails, wire::specs::Answer::and_then, wire::specs::Answer::refuse_if))]
pub fn write_item<const W: usize>(out: &mut [u8], cursor: Cursor, item: [u8; W]) -> Result<Cursor>
    ensures { Wrote result out.new out.old (put_at item.entry out.old cursor.at) }
{
    let next = cursor.room(out.len(), W)?;
    put::put_bytes(&mut out[cursor.at..], &item);
    Ok(next)
}
