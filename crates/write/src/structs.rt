// Struct begin and end, which put down nothing: the same judgement of the struct depth as on reading.
ghost use Rattle.std.specs.Prelude.{◌≡◌};
ghost use Rattle.wire.specs.Refusals.{told};
ghost use Rattle.nesting.specs.Structs.{struct_begin_at, struct_end_at};

use config::configuration::TConfiguration;
use wire::Result;
use wire::cursor::Cursor;

// The struct depth one up, where a struct begins; no byte is put down. Refuses 2, 20, 11.
// AA at 0, depth 63, default limits, gives 64 and stays at 0; depth 64 is refused: 11 at 0.
pub fn write_struct_begin(
    out: &[u8],
    cursor: Cursor,
    depth: usize,
    config: TConfiguration,
) -> Result<(usize, Cursor)>
    ensures { told result ≡ struct_begin_at config.max_recursion_depth depth out.now cursor.at }
{
    nesting::read_struct_begin(out, cursor, depth, config)
}

// The struct depth one down, where a struct ends; no byte is put down. Refuses 2, 20, 14.
// AA at 1, depth 1, gives 0 and stays at 1; depth 0 is refused: 14 at 1.
pub fn write_struct_end(out: &[u8], cursor: Cursor, depth: usize) -> Result<(usize, Cursor)>
    ensures { told result ≡ struct_end_at depth out.now cursor.at }
{
    nesting::read_struct_end(out, cursor, depth)
}
