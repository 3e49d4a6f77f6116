// Numbers read at a cursor of a lent slice: the value with the moved cursor, or the refusal.
#![tactic(auto)]

ghost use Rattle.std.specs.Prelude.{◌≡◌};
ghost use Rattle.wire.specs.Answer.{item_at};
ghost use Rattle.wire.specs.Refusals.{told};
ghost use Rattle.number.specs.Reads.{byte_at, bool_at, i8_at, i16_at, i32_at, i64_at, double_at};

use wire::Result;
use wire::cursor::Cursor;

// The bytes of an item, as many as are asked for: every number is read through here. Refuses 2, 1.
// 00 07 at 0, two bytes, gives 00 07 and ends at 2; 00 at 0, two bytes, is refused: 1 at 0.
#[tactic(auto, using(wire::proofs::Within::no_item, wire::proofs::Within::item_there))]
fn read_item<const W: usize>(bytes: &[u8], cursor: Cursor) -> Result<([u8; W], Cursor)>
    ensures { told result ≡ item_at bytes.now cursor.at W }
{
    let next = cursor.past(bytes, W)?;
    let item = <[u8; W]>::try_from(&bytes[cursor.at..next.at]).unwrap();
    Ok((item, next))
}

// A byte at the cursor. Refuses 2, 1.
// 07 at 0 gives 7 and ends at 1; no byte at 0 is refused: 1 at 0.
#[tactic(auto, using(crate::proofs::Widths::no_number, crate::proofs::Items::byte_read))]
pub fn read_byte(bytes: &[u8], cursor: Cursor) -> Result<(u8, Cursor)>
    ensures { told result ≡ byte_at bytes.now cursor.at }
{
    let (item, next) = read_item(bytes, cursor)?;
    Ok((u8::from_be_bytes(item), next))
}

// A bool at the cursor: 0 is false, every other byte true. Refuses 2, 1.
// 02 at 0 gives true and ends at 1; no byte at 0 is refused: 1 at 0.
#[tactic(auto, using(crate::proofs::Widths::none_seen, crate::proofs::Widths::seen))]
pub fn read_bool(bytes: &[u8], cursor: Cursor) -> Result<(bool, Cursor)>
    ensures { told result ≡ bool_at bytes.now cursor.at }
{
    let (b, next) = read_byte(bytes, cursor)?;
    Ok((b != 0, next))
}

// An 8-bit signed number at the cursor. Refuses 2, 1.
// 07 at 0 gives 7 and ends at 1; no byte at 0 is refused: 1 at 0.
#[tactic(auto, using(crate::proofs::Widths::no_number, crate::proofs::Items::i8_read))]
pub fn read_i8(bytes: &[u8], cursor: Cursor) -> Result<(i8, Cursor)>
    ensures { told result ≡ i8_at bytes.now cursor.at }
{
    let (item, next) = read_item(bytes, cursor)?;
    Ok((i8::from_be_bytes(item), next))
}

// A 16-bit signed number at the cursor. Refuses 2, 1.
// 00 07 at 0 gives 7 and ends at 2; 00 at 0 is refused: 1 at 0.
#[tactic(auto, using(crate::proofs::Widths::no_number, crate::proofs::Items::i16_read))]
pub fn read_i16(bytes: &[u8], cursor: Cursor) -> Result<(i16, Cursor)>
    ensures { told result ≡ i16_at bytes.now cursor.at }
{
    let (item, next) = read_item(bytes, cursor)?;
    Ok((i16::from_be_bytes(item), next))
}

// A 32-bit signed number at the cursor. Refuses 2, 1.
// 00 00 00 07 at 0 gives 7 and ends at 4; 00 00 00 at 0 is refused: 1 at 0.
#[tactic(auto, using(crate::proofs::Widths::no_number, crate::proofs::Items::i32_read))]
pub fn read_i32(bytes: &[u8], cursor: Cursor) -> Result<(i32, Cursor)>
    ensures { told result ≡ i32_at bytes.now cursor.at }
{
    let (item, next) = read_item(bytes, cursor)?;
    Ok((i32::from_be_bytes(item), next))
}

// A 64-bit signed number at the cursor. Refuses 2, 1.
// 00 00 00 00 00 00 00 07 at 0 gives 7 and ends at 8; 00 00 00 00 00 00 00 at 0 is refused: 1 at 0.
#[tactic(auto, using(crate::proofs::Widths::no_number, crate::proofs::Items::i64_read))]
pub fn read_i64(bytes: &[u8], cursor: Cursor) -> Result<(i64, Cursor)>
    ensures { told result ≡ i64_at bytes.now cursor.at }
{
    let (item, next) = read_item(bytes, cursor)?;
    Ok((i64::from_be_bytes(item), next))
}

// A double at the cursor, by its eight bytes. Refuses 2, 1. Any NaN comes as the one NaN: read_i64 keeps its payload.
// 3F F0 00 00 00 00 00 00 at 0 gives 1 and ends at 8; 3F F0 00 00 00 00 00 at 0 is refused: 1 at 0.
#[tactic(auto, using(crate::proofs::Widths::no_number, crate::proofs::Items::double_read))]
pub fn read_double(bytes: &[u8], cursor: Cursor) -> Result<(f64, Cursor)>
    ensures { told result ≡ double_at bytes.now cursor.at }
{
    let (item, next) = read_item(bytes, cursor)?;
    Ok((sign::double(u64::from_be_bytes(item)), next))
}
