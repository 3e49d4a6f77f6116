// A reader that keeps a frame's bytes and a place in one record. It is handed over by value: a call answers with the
// place after what it read, and a new reader is made to stand there.
#![tactic(auto)]

ghost use Rattle.std.specs.Prelude.{◌≡◌};
ghost use Rattle.wire.specs.Refusals.{told};
ghost use Rattle.config.specs.Limits.{default_limits};
ghost use Rattle.read.specs.Headers.{field_at};
ghost use Rattle.skip.specs.Skips.{SkipSays, default_depth};

use codes::TType;
use config::configuration::TConfiguration;
use leaf::Halt;
use read::field::TFieldIdentifier;
use skip::till_depth::Skipped;
use wire::cursor::Cursor;

#[derive(Clone, Copy, Debug, PartialEq, Eq)]
pub struct Reader<'a> {
    pub payload: &'a [u8],
    pub at: usize,
}

impl<'a> Reader<'a> {
    // A reader over a frame's payload, at any place. Refuses nothing.
    // 08 00 01 and 3 give a reader that stands at 3; 08 00 01 and 4 one at 4, whose reads are refused: 2 at 4.
    pub fn new(payload: &'a [u8], at: usize) -> Self
        ensures { (result.payload ≡ payload.entry) × (result.at ≡ at) }
    {
        Reader { payload, at }
    }

    // Where the reader stands. Refuses nothing.
    // A reader made at 3 gives 3.
    pub fn at(self) -> usize
        ensures { result ≡ self.entry.at }
    {
        self.at
    }

    // The next field's header, as `read` has it. Refuses 2, 1, 5, then 1 for the id.
    // 08 00 01 at 0 gives I32 with id 1 and ends at 3; 08 00 at 0 is refused: 1 at 1.
    pub fn read_field_begin(self) -> wire::Result<(TFieldIdentifier, Cursor)>
        ensures { told result ≡ field_at self.entry.payload.now self.entry.at }
    {
        read::field::read_field_begin(self.payload, Cursor { at: self.at })
    }

    // The value where it stands, stepped over at depth 64 under the default limits, with no struct open around it.
    // Refuses 2, with count 0; then of each value, as it is met, 10 and 12 and what its header or bytes refuse: 1, 5, 6,
    // 7, 9, with the values begun. Never 11: where 64 structs are open the depth is used up, and 10 comes first.
    // 08 00 01 00 00 00 09 00 at 0 as Struct ends at 8 with count 2; FF FF FF FF at 0 as String is refused: 6 at 0.
    pub fn skip(self, field_type: TType) -> Result<Skipped, Halt>
        ensures { SkipSays default_limits self.entry.payload.now self.entry.at default_depth 0 field_type result }
    {
        skip_from(self.payload, self.at, field_type)
    }
}

// The same with plain parameters, for callers that hold no record. Refuses as `skip` does.
// 08 00 01 00 00 00 09 00 at 0 as Struct ends at 8 with count 2; FF FF FF FF at 0 as String is refused: 6 at 0.
pub fn skip_from(payload: &[u8], place: usize, field_type: TType) -> Result<Skipped, Halt>
    ensures { SkipSays default_limits payload.now place default_depth 0 field_type result }
{
    skip::till_depth::skip(
        payload,
        Cursor { at: place },
        field_type,
        0,
        TConfiguration::default(),
    )
}
