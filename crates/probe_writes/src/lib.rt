// Every write by a number: what it is asked with, the record that it comes to, and what it leaves in the buffer.
#![tactic(auto)]

ghost use Rattle.std.specs.Prelude.{◌≡◌};
ghost use Rattle.wire.specs.Writes.{Wrote};
ghost use Rattle.probe_numbers.specs.Numbers.{write_step_of};
ghost use Rattle.probe_writes.specs.Writes.{writing_of, low8, low16, low32, unless_absent, put_write, headed_write, map_asked, still_row, headed_does, map_does, message_does, uuid_does, does_of, WriteSays};

use codes::{TMessageType, TType};
use config::configuration::TConfiguration;
use config::limit;
use probe_numbers::{Headed, Put, Still, WriteStep};
use probe_rows::{Row, of_moved, of_read};
use read::container::{TListIdentifier, TSetIdentifier};
use wire::Result;
use wire::cursor::Cursor;

// What a write may be asked with.
#[derive(Clone, Copy, Debug, PartialEq, Eq)]
pub struct Writing {
    pub place: usize,
    pub strict: bool,
    pub kind: u8,
    pub other: u8,
    pub absent: u8,
    pub number: u64,
    pub struct_depth: usize,
    pub structs: Option<usize>,
}

// What a write is asked with, from plain numbers; strict where its number is not 0. Refuses nothing.
pub fn asked_with(
    place: usize,
    strict: u8,
    kind: u8,
    other: u8,
    absent: u8,
    number: u64,
    struct_depth: usize,
    structs: usize,
) -> Writing
    ensures { result ≡ writing_of place strict «kind» other absent number struct_depth structs }
{
    Writing {
        place,
        strict: strict != 0,
        kind,
        other,
        absent,
        number,
        struct_depth,
        structs: limit::from_number(structs),
    }
}

fn low_i8(number: u64) -> i8
    ensures { result ≡ low8 number }
{
    ((number % 256) as u8).cast_signed()
}

fn low_i16(number: u64) -> i16
    ensures { result ≡ low16 number }
{
    ((number % 65_536) as u16).cast_signed()
}

fn low_i32(number: u64) -> i32
    ensures { result ≡ low32 number }
{
    ((number % 4_294_967_296) as u32).cast_signed()
}

fn put(out: &mut [u8], at: Cursor, number: u64, text: &[u8], step: Put) -> Result<Cursor>
    ensures { Wrote result out.new out.old (put_write step number text.now out.old at.at) }
{
    match step {
        Put::Stop => write_headers::field::write_field_stop(out, at),
        Put::Byte => write_scalars::write_byte(out, at, (number % 256) as u8),
        Put::Bool => write_scalars::write_bool(out, at, number != 0),
        Put::I8 => write_scalars::write_i8(out, at, low_i8(number)),
        Put::I16 => write_scalars::write_i16(out, at, low_i16(number)),
        Put::I32 => write_scalars::write_i32(out, at, low_i32(number)),
        Put::I64 => write_scalars::write_i64(out, at, number.cast_signed()),
        Put::Double => write_scalars::write_double(out, at, sign::double(number)),
        Put::Bytes => write::string::write_bytes(out, at, text),
        Put::String => write::string::write_string(out, at, text),
        Put::Frame => framed::write_frame(out, at, text),
    }
}

// What is there unless bit 0 says that it is missing.
fn unless_absent<T: Drop>(absent: u8, value: T) -> Option<T>
    ensures { result ≡ unless_absent absent value }
{
    (absent % 2 != 1).then_some(value)
}

fn headed(out: &mut [u8], at: Cursor, call: Writing, step: Headed, t: TType) -> Result<Cursor>
    ensures { Wrote result out.new out.old (headed_write step t call out.old at.at) }
{
    let size = low_i32(call.number);
    match step {
        Headed::Field => {
            let id = unless_absent(call.absent, low_i16(call.number));
            write_headers::field::write_field_begin(out, at, t, id)
        }
        Headed::List => write_headers::container::write_list_begin(
            out,
            at,
            TListIdentifier {
                element_type: t,
                size,
            },
        ),
        Headed::Set => write_headers::container::write_set_begin(
            out,
            at,
            TSetIdentifier {
                element_type: t,
                size,
            },
        ),
    }
}

fn map(out: &mut [u8], at: Cursor, call: Writing, key: TType, value: TType) -> Result<Cursor>
    ensures { Wrote result out.new out.old (map_asked key value call out.old at.at) }
{
    let absent = call.absent;
    let key_type = unless_absent(absent, key);
    let value_type = unless_absent(absent / 2, value);
    write_headers::container::write_map_begin(out, at, key_type, value_type, low_i32(call.number))
}

fn still(out: &[u8], at: Cursor, call: Writing, step: Still) -> Row
    ensures { result ≡ still_row step call out.now at.at }
{
    let depth = call.struct_depth;
    let limits = TConfiguration::no_limits().max_recursion_depth(call.structs);
    match step {
        Still::MessageEnd => of_moved(write_message::write_message_end(out, at)),
        Still::StructBegin => of_read(write::structs::write_struct_begin(out, at, depth, limits)),
        Still::StructEnd => of_read(write::structs::write_struct_end(out, at, depth)),
        Still::FieldEnd => of_moved(write_headers::field::write_field_end(out, at)),
        Still::ListEnd => of_moved(write_headers::container::write_list_end(out, at)),
        Still::SetEnd => of_moved(write_headers::container::write_set_end(out, at)),
        Still::MapEnd => of_moved(write_headers::container::write_map_end(out, at)),
    }
}

#[tactic(auto, using(crate::proofs::Steps::put_down, crate::proofs::Steps::undone))]
fn headed_by_kind(out: &mut [u8], at: Cursor, call: Writing, step: Headed) -> Option<Row>
    ensures { WriteSays (headed_does step call out.old at.at) result out.new out.old }
{
    let t = probe_numbers::kind(call.kind)?;
    Some(of_moved(headed(out, at, call, step, t)))
}

#[tactic(auto, using(crate::proofs::Steps::put_down, crate::proofs::Steps::undone))]
fn map_by_kinds(out: &mut [u8], at: Cursor, call: Writing) -> Option<Row>
    ensures { WriteSays (map_does call out.old at.at) result out.new out.old }
{
    let key = probe_numbers::kind(call.kind)?;
    let value = probe_numbers::kind(call.other)?;
    Some(of_moved(map(out, at, call, key, value)))
}

#[tactic(auto, using(crate::proofs::Steps::put_down, crate::proofs::Steps::undone))]
fn message_by_kind(out: &mut [u8], at: Cursor, call: Writing, name: &[u8]) -> Option<Row>
    ensures { WriteSays (message_does call name.now out.old at.at) result out.new out.old }
{
    let strict = call.strict;
    let sequence = low_i32(call.number);
    let t = TMessageType::try_from(call.kind).ok()?;
    let moved = write_message::write_message_begin(out, at, strict, name, t, sequence);
    Some(of_moved(moved))
}

#[tactic(auto, using(crate::proofs::Steps::put_down, crate::proofs::Steps::undone))]
fn uuid(out: &mut [u8], at: Cursor, text: &[u8]) -> Option<Row>
    ensures { WriteSays (uuid_does text.now out.old at.at) result out.new out.old }
{
    let uuid = <[u8; 16]>::try_from(text).ok()?;
    Some(of_moved(write::string::write_uuid(out, at, uuid)))
}

#[tactic(auto, using(crate::proofs::Steps::put_down, crate::proofs::Steps::stayed))]
fn by_step(out: &mut [u8], step: WriteStep, call: Writing, text: &[u8]) -> Option<Row>
    ensures { WriteSays (does_of (Some step) call text.now out.old) result out.new out.old }
{
    let at = Cursor { at: call.place };
    match step {
        WriteStep::Put(p) => Some(of_moved(put(out, at, call.number, text, p))),
        WriteStep::Headed(h) => headed_by_kind(out, at, call, h),
        WriteStep::Map => map_by_kinds(out, at, call),
        WriteStep::Message => message_by_kind(out, at, call, text),
        WriteStep::Uuid => uuid(out, at, text),
        WriteStep::Still(s) => Some(still(out, at, call, s)),
    }
}

// The record that the write of a number comes to, its refusals among them, or None where there is no such step or type.
// Refuses nothing itself.
#[tactic(auto, using(crate::proofs::Steps::undone))]
pub fn by_number(out: &mut [u8], step: u8, call: Writing, text: &[u8]) -> Option<Row>
    ensures { WriteSays (does_of (write_step_of step) call text.now out.old) result out.new out.old }
{
    by_step(out, probe_numbers::write_step(step)?, call, text)
}
