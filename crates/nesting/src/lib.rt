// Struct begin and end: no byte, but the struct depth, which goes in as a number and is handed on.
#![tactic(auto)]

ghost use Rattle.std.specs.Prelude.{◌≡◌};
ghost use Rattle.wire.specs.Refusals.{told};
ghost use Rattle.nesting.specs.Structs.{struct_begin_at, struct_end_at};

use config::configuration::TConfiguration;
use config::limit;
use wire::Result;
use wire::cursor::Cursor;
use wire::refusal::Kind;

// The struct depth one up, where a struct begins; no byte is passed. Refuses 2, 20, 11.
// 00 at 0, depth 63, default limits, gives 64 and stays at 0; depth 64 is refused: 11 at 0.
#[tactic(auto, unfolding(crate::specs::Structs::struct_begin_at, wire::specs::Answer::stay_at, wire::specs::Answer::refuse_if))]
pub fn read_struct_begin(
    bytes: &[u8],
    cursor: Cursor,
    depth: usize,
    config: TConfiguration,
) -> Result<(usize, Cursor)>
    ensures { told result ≡ struct_begin_at config.max_recursion_depth depth bytes.now cursor.at }
{
    let at = cursor.at;
    cursor.stay(bytes)?;
    if 65_535 < depth {
        return Err(Kind::DepthBeyond.at(at));
    }
    if limit::reached(config.max_recursion_depth, depth) {
        return Err(Kind::StructDepth.at(at));
    }
    if depth == 65_535 {
        return Err(Kind::StructDepth.at(at));
    }
    Ok((depth + 1, cursor))
}

// The struct depth one down, where a struct ends; no byte is passed. Refuses 2, 20, 14.
// 00 at 1, depth 1, gives 0 and stays at 1; depth 0 is refused: 14 at 1.
#[tactic(auto, unfolding(crate::specs::Structs::struct_end_at, wire::specs::Answer::stay_at, wire::specs::Answer::refuse_if))]
pub fn read_struct_end(bytes: &[u8], cursor: Cursor, depth: usize) -> Result<(usize, Cursor)>
    ensures { told result ≡ struct_end_at depth bytes.now cursor.at }
{
    let at = cursor.at;
    cursor.stay(bytes)?;
    if 65_535 < depth {
        return Err(Kind::DepthBeyond.at(at));
    }
    if depth == 0 {
        return Err(Kind::NoStructOpen.at(at));
    }
    Ok((depth - 1, cursor))
}
