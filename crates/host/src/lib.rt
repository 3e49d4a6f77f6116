// The calls for C and Rust: a skip of one value, under the default limits or under any, its answer in a lent record.
#![tactic(auto)]

ghost use Rattle.std.specs.Prelude.{◌≡◌, ◌≤◌, length};
ghost use Rattle.skip.specs.Skips.{told_skipped};
ghost use Rattle.host.specs.Host.{row_of, filled, NoType, HostAnswers, Hosted, HostedByDefault, skip_limits};

use config::configuration::TConfiguration;
use config::limit;
use leaf::Halt;
use skip::till_depth::{Skipped, enter, skip_till_depth};
use wire::cursor::Cursor;
use wire::refusal::Kind;

// What the record is set to: the refusal's number or 0, the end or the refusal's place, the count.
#[derive(Clone, Copy)]
struct Row {
    number: u64,
    place: u64,
    count: u64,
}

impl From<Result<Skipped, Halt>> for Row {
    ghost from_gives = { λ skipped row. row ≡ row_of (told_skipped skipped) };

    fn from(skipped: Result<Skipped, Halt>) -> Row {
        match skipped {
            Ok(passed) => Row {
                number: 0,
                place: passed.next.at as u64,
                count: passed.count as u64,
            },
            Err(halt) => Row {
                number: u8::from(halt.refusal.kind) as u64,
                place: halt.refusal.place as u64,
                count: halt.count as u64,
            },
        }
    }
}

// An unknown type byte: the entry's refusals come before its own.
#[tactic(auto, using(crate::proofs::Rows::unknown_as))]
fn unknown_type(
    bytes: &[u8],
    cursor: Cursor,
    depth: usize,
    struct_depth: usize,
) -> Result<Skipped, Halt>
    ensures { NoType struct_depth bytes.now cursor.at depth (told_skipped result) }
{
    let refusal = match enter(bytes, cursor, depth, struct_depth) {
        Ok(_) => Kind::UnknownType.at(cursor.at),
        Err(refusal) => refusal,
    };
    Err(Halt { refusal, count: 0 })
}

#[tactic(auto, using(crate::proofs::Rows::by_type))]
fn skip_by_byte(
    bytes: &[u8],
    cursor: Cursor,
    depth: usize,
    type_byte: u8,
    struct_depth: usize,
    limits: TConfiguration,
) -> Result<Skipped, Halt>
    ensures { HostAnswers limits struct_depth bytes.now cursor.at depth type_byte (told_skipped result) }
{
    match codes::field_type_from_u8(type_byte) {
        Some(field_type) => {
            skip_till_depth(bytes, cursor, field_type, depth, struct_depth, limits)
        }
        None => unknown_type(bytes, cursor, depth, struct_depth),
    }
}

fn fill(kept: &mut [u8], row: Row)
    requires { 24 ≤ length kept.old }
    ensures { kept.new ≡ filled row kept.old }
{
    put::put64(kept, row.number);
    put::put64(&mut kept[8..], row.place);
    put::put64(&mut kept[16..], row.count);
}

// Returns 15 where the record has fewer than 24 bytes, and else 0 with the record's first 24 bytes set.
#[tactic(auto, using(crate::proofs::Rows::too_small))]
fn answer(
    bytes: &[u8],
    place: usize,
    depth: usize,
    type_byte: u8,
    struct_depth: usize,
    limits: TConfiguration,
    kept: &mut [u8],
) -> u32
    ensures { Hosted limits struct_depth bytes.now place depth type_byte kept.old result kept.new }
{
    if kept.len() < 24 {
        return 15;
    }
    let cursor = Cursor { at: place };
    let skipped = skip_by_byte(bytes, cursor, depth, type_byte, struct_depth, limits);
    fill(kept, skipped.into());
    0
}

// Skips one value under the default limits with no struct open, its answer in the record; returns 0, or 15 where the
// record has fewer than 24 bytes. Refuses 2, 20, 5 for the type byte, with count 0; then of each value, as it is met,
// 10, 12, 11 and what its header or bytes refuse: 1, 5, 6, 7, 9, with the values begun.
// 03 00 00 00 02 05 06 at 0 as 0F, depth 2, ends at 7, count 3; depth 1 is refused: 10 at 5, count 2.
pub fn thrift_skip(bytes: &[u8], place: usize, depth: usize, type_byte: u8, kept: &mut [u8]) -> u32
    ensures { HostedByDefault bytes.now place depth type_byte kept.old result kept.new }
{
    answer(
        bytes,
        place,
        depth,
        type_byte,
        0,
        TConfiguration::default(),
        kept,
    )
}

// The same under the limits given, the greatest number for none, and inside as many open structs as are given.
// Refuses 2, 20, 5 for the type byte, with count 0; then 10, 12, 11, 1, 5, 6, 7, 8, 9 in the same way.
// 00 at 0 as 0C, depth 1, struct depth 1, ends at 1, count 1, where structs is 2; where it is 1: 11 at 0, count 1.
pub fn thrift_skip_within(
    bytes: &[u8],
    place: usize,
    depth: usize,
    type_byte: u8,
    struct_depth: usize,
    message: usize,
    structs: usize,
    container: usize,
    string: usize,
    kept: &mut [u8],
) -> u32
    ensures { Hosted (skip_limits message structs container string) struct_depth bytes.now place depth type_byte kept.old result kept.new }
{
    let limits = TConfiguration::from_numbers(message, limit::NO_LIMIT, structs, container, string);
    answer(bytes, place, depth, type_byte, struct_depth, limits, kept)
}
