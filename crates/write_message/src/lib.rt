// A message's header: with a version (strict), or in the older layout that starts with the name.
#![tactic(auto)]

ghost use Rattle.std.specs.Prelude.{◌≡◌, ◌+◌, ◌≤◌, cond, length};
ghost use Rattle.wire.specs.Answer.{stay_at};
ghost use Rattle.wire.specs.Refusals.{told_moved};
ghost use Rattle.wire.specs.Writes.{Wrote, in_front};
ghost use Rattle.message.specs.Layouts.{message_layout};
ghost use Rattle.write_message.specs.Outputs.{message_write};

use codes::TMessageType;
use wire::Result;
use wire::cursor::Cursor;

// A header in front, which has room: the version with the type, the name, the sequence number; in the older layout the
// name, the type, the sequence number.
#[tactic(auto, using(crate::proofs::Pieces::versioned, crate::proofs::Pieces::unversioned))]
fn put_header(out: &mut [u8], strict: bool, name: &[u8], message_type: TMessageType, sequence: u32)
    requires { cond strict 12 9 + length name.now ≤ length out.old }
    ensures { out.new ≡ in_front (message_layout strict name.now message_type sequence) out.old }
{
    let code = u8::from(message_type);
    if strict {
        put::put_bytes(out, &[0x80, 0x01, 0x00, code]);
        put::put_sized(&mut out[4..], name);
        put::put32(&mut out[8 + name.len()..], sequence);
    } else {
        put::put_sized(out, name);
        put::put8(&mut out[4 + name.len()..], code);
        put::put32(&mut out[5 + name.len()..], sequence);
    }
}

// A message's header, with a version in strict mode and else in the older layout. Refuses 2, 16, 13, 15.
// 61 62, Call, 7, strict, at 0 of 14 bytes AA leaves 80 01 00 01 00 00 00 02 61 62 00 00 00 07 and ends at 14;
// at 0 of 13 bytes AA it is refused: 15 at 0, and they stay.
#[tactic(auto, using(write::proofs::Whole::starts, write::proofs::Whole::landing, sign::proofs::TwosComplement::sent, crate::proofs::Pieces::length_layout), unfolding(write::specs::Outputs::name_checked, write::specs::Outputs::named_output, wire::specs::Writes::write_at, wire::specs::Writes::left, wire::specs::Writes::room_for, wire::specs::Writes::fail_if, wire::specs::Writes::unless_fails, wire::specs::Answer::and_then, wire::specs::Answer::refuse_if))]
pub fn write_message_begin(
    out: &mut [u8],
    cursor: Cursor,
    strict: bool,
    name: &[u8],
    message_type: TMessageType,
    sequence_number: i32,
) -> Result<Cursor>
    ensures { Wrote result out.new out.old (message_write strict name.now message_type sequence_number out.old cursor.at) }
{
    write::string::check_name(out.len(), cursor, name)?;
    let fixed = if strict { 12 } else { 9 };
    let next = cursor.room(out.len(), fixed + name.len())?;
    let sequence = sequence_number.cast_unsigned();
    put_header(&mut out[cursor.at..], strict, name, message_type, sequence);
    Ok(next)
}

// A message's end, which has no byte. Refuses 2.
// AA at 1 stays at 1; AA at 2 is refused: 2 at 2.
pub fn write_message_end(out: &[u8], cursor: Cursor) -> Result<Cursor>
    ensures { told_moved result ≡ stay_at out.now cursor.at }
{
    cursor.stay(out)
}
