// The public skip.
ghost use Rattle.std.specs.Prelude.{◌≡◌};
ghost use Rattle.wire.specs.Refusals.{told_moved};
ghost use Rattle.tree.specs.Answers.{skip_entry};
ghost use Rattle.skip.specs.Skips.{SkipSays, default_depth};

use codes::TType;
use config::configuration::TConfiguration;
use leaf::Halt;
use wire::cursor::Cursor;
use wire::refusal::Kind;

// The depth that `skip` starts with.
pub const MAXIMUM_SKIP_DEPTH: usize = 64;

// The cursor past the value, the struct depth as it was and the number of values.
#[derive(Clone, Copy, Debug, PartialEq, Eq)]
pub struct Skipped {
    pub next: Cursor,
    pub struct_depth: usize,
    pub count: usize,
}

// What is judged before any value begins: the start and both depths. Refuses 2, 20.
// 00 at 0, depth 127, struct depth 65,535, stays at 0; depth 128 is refused: 20 at 0.
#[tactic(auto, unfolding(tree::specs::Answers::skip_entry, nesting::specs::Structs::depth_entry, wire::specs::Answer::stay_at, wire::specs::Answer::refuse_if))]
pub fn enter(
    bytes: &[u8],
    cursor: Cursor,
    depth: usize,
    struct_depth: usize,
) -> wire::Result<Cursor>
    ensures { told_moved result ≡ skip_entry depth struct_depth bytes.now cursor.at }
{
    let at = cursor.at;
    cursor.stay(bytes)?;
    if 65_535 < struct_depth {
        return Err(Kind::DepthBeyond.at(at));
    }
    if 127 < depth {
        return Err(Kind::DepthBeyond.at(at));
    }
    Ok(cursor)
}

// Passes one value of the type, whole, and counts the values in it. Refuses 2, 20, with count 0; then of each value, as
// it is met, 10, 12, 11 and what its header or bytes refuse: 1, 5, 6, 7, 8, 9, with the values begun.
// 03 00 00 00 02 05 06 at 0 as List, depth 2, ends at 7, count 3; depth 1 is refused: 10 at 5, count 2.
#[tactic(auto, using(crate::proofs::Entry::barred, crate::proofs::Entry::let_in))]
pub fn skip_till_depth(
    bytes: &[u8],
    cursor: Cursor,
    field_type: TType,
    depth: usize,
    struct_depth: usize,
    config: TConfiguration,
) -> Result<Skipped, Halt>
    ensures { SkipSays config bytes.now cursor.at depth struct_depth field_type result }
{
    if let Err(refusal) = enter(bytes, cursor, depth, struct_depth) {
        return Err(Halt { refusal, count: 0 });
    }
    let passed = skip_value::skip_value(bytes, cursor, field_type, depth, struct_depth, config)?;
    Ok(Skipped {
        next: passed.next,
        struct_depth,
        count: passed.count,
    })
}

// The same at depth 64. Refuses 2, 20 for the struct depth, with count 0; then as `skip_till_depth`.
// 08 00 01 00 00 00 09 00 at 0 as Struct ends at 8, count 2; FF FF FF FF at 0 as String is refused: 6 at 0, count 1.
pub fn skip(
    bytes: &[u8],
    cursor: Cursor,
    field_type: TType,
    struct_depth: usize,
    config: TConfiguration,
) -> Result<Skipped, Halt>
    ensures { SkipSays config bytes.now cursor.at default_depth struct_depth field_type result }
{
    skip_till_depth(
        bytes,
        cursor,
        field_type,
        MAXIMUM_SKIP_DEPTH,
        struct_depth,
        config,
    )
}
