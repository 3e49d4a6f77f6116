// Every read by a number: what it is asked with, and the record that it comes to.
#![tactic(auto)]

ghost use Rattle.std.specs.Prelude.{◌≡◌};
ghost use Rattle.config.specs.Limits.{limits_of};
ghost use Rattle.probe_numbers.specs.Numbers.{read_step_of};
ghost use Rattle.probe_reads.specs.Reads.{reading_of, plain_row, bounded_row, scalar_step, SkipStep, ReadSays};

use codes::TType;
use config::configuration::TConfiguration;
use probe_numbers::{Bounded, Plain, ReadStep};
use probe_rows::{Row, of_limits, of_moved, of_read, of_scalar, of_skip};
use wire::cursor::Cursor;

// What a read may be asked with.
#[derive(Clone, Copy, Debug, PartialEq, Eq)]
pub struct Reading {
    pub place: usize,
    pub strict: bool,
    pub kind: Option<TType>,
    pub depth: usize,
    pub struct_depth: usize,
    pub limits: TConfiguration,
}

// What a read is asked with, from plain numbers; strict where its number is not 0. Refuses nothing.
pub fn asked_with(
    place: usize,
    strict: u8,
    kind: u8,
    depth: usize,
    struct_depth: usize,
    message: usize,
    frame: usize,
    structs: usize,
    container: usize,
    string: usize,
) -> Reading
    ensures { result ≡ reading_of place strict «kind» depth struct_depth (limits_of message frame structs container string) }
{
    Reading {
        place,
        strict: strict != 0,
        kind: probe_numbers::kind(kind),
        depth,
        struct_depth,
        limits: TConfiguration::from_numbers(message, frame, structs, container, string),
    }
}

fn plain(bytes: &[u8], cursor: Cursor, step: Plain) -> Row
    ensures { result ≡ plain_row step bytes.now cursor.at }
{
    match step {
        Plain::Byte => of_read(number::read_byte(bytes, cursor)),
        Plain::Bool => of_read(number::read_bool(bytes, cursor)),
        Plain::I8 => of_read(number::read_i8(bytes, cursor)),
        Plain::I16 => of_read(number::read_i16(bytes, cursor)),
        Plain::I32 => of_read(number::read_i32(bytes, cursor)),
        Plain::I64 => of_read(number::read_i64(bytes, cursor)),
        Plain::Double => of_read(number::read_double(bytes, cursor)),
        Plain::Uuid => of_read(text::read_uuid(bytes, cursor)),
        Plain::Type => of_read(read::field::read_type(bytes, cursor)),
        Plain::Field => of_read(read::field::read_field_begin(bytes, cursor)),
        Plain::MessageType => of_read(message::read_message_type(bytes, cursor)),
        Plain::MessageEnd => of_moved(message::read_message_end(bytes, cursor)),
        Plain::FieldEnd => of_moved(read::field::read_field_end(bytes, cursor)),
        Plain::ListEnd => of_moved(read::container::read_list_end(bytes, cursor)),
        Plain::SetEnd => of_moved(read::container::read_set_end(bytes, cursor)),
        Plain::MapEnd => of_moved(read::container::read_map_end(bytes, cursor)),
    }
}

fn bounded(bytes: &[u8], call: Reading, step: Bounded) -> Row
    ensures { result ≡ bounded_row step bytes.now call }
{
    let at = Cursor { at: call.place };
    let limits = call.limits;
    let depth = call.struct_depth;
    let strict = call.strict;
    match step {
        Bounded::Bytes => of_read(text::read_bytes(bytes, at, limits)),
        Bounded::String => of_read(text::read_string(bytes, at, limits)),
        Bounded::List => of_read(read::container::read_list_begin(bytes, at, limits)),
        Bounded::Set => of_read(read::container::read_set_begin(bytes, at, limits)),
        Bounded::Map => of_read(read::container::read_map_begin(bytes, at, limits)),
        Bounded::StructBegin => of_read(nesting::read_struct_begin(bytes, at, depth, limits)),
        Bounded::StructEnd => of_read(nesting::read_struct_end(bytes, at, depth)),
        Bounded::Message => of_read(message::read_message_begin(bytes, at, strict, limits)),
        Bounded::Frame => of_read(framed::read_frame(bytes, at, limits)),
        Bounded::Limits => of_limits(limits.build()),
    }
}

fn scalar(bytes: &[u8], call: Reading) -> Option<Row>
    ensures { result ≡ scalar_step call.kind bytes.now call.place }
{
    let t = call.kind?;
    let read = scalar::read_scalar(bytes, Cursor { at: call.place }, t);
    Some(of_scalar(t, read))
}

#[tactic(auto, using(crate::proofs::Steps::skip_step, crate::proofs::Steps::no_kind))]
fn skip_one(bytes: &[u8], call: Reading) -> Option<Row>
    ensures { SkipStep call.kind bytes.now call result }
{
    let t = call.kind?;
    let at = Cursor { at: call.place };
    let depth = call.depth;
    let struct_depth = call.struct_depth;
    Some(of_skip(skip::till_depth::skip_till_depth(bytes, at, t, depth, struct_depth, call.limits)))
}

fn by_step(bytes: &[u8], step: ReadStep, call: Reading) -> Option<Row>
    ensures { ReadSays (Some step) bytes.now call result }
{
    match step {
        ReadStep::Plain(p) => Some(plain(bytes, Cursor { at: call.place }, p)),
        ReadStep::Bounded(b) => Some(bounded(bytes, call, b)),
        ReadStep::Scalar => scalar(bytes, call),
        ReadStep::Skip => skip_one(bytes, call),
    }
}

// The record that the read of a number comes to, its refusals among them, or None where there is no such step or type.
// Refuses nothing itself.
pub fn by_number(bytes: &[u8], step: u8, call: Reading) -> Option<Row>
    ensures { ReadSays (read_step_of step) bytes.now call result }
{
    by_step(bytes, probe_numbers::read_step(step)?, call)
}
