// Values with no value in them, passed: scalars, UUIDs and texts.
#![tactic(auto)]

ghost use Rattle.std.specs.Prelude.{◌≡◌};
ghost use Rattle.wire.specs.Answer.{judged, within};
ghost use Rattle.wire.specs.Refusals.{kind_number};
ghost use Rattle.text.specs.Texts.{bytes_at};
ghost use Rattle.tree.specs.Answers.{leaf_outcome, cut_off};
ghost use Rattle.leaf.specs.Told.{told_walked};

use config::configuration::TConfiguration;
use text::Body;
use wire::cursor::Cursor;
use wire::refusal::{Kind, Refusal};

// The cursor past a value, and the values in it.
#[derive(Clone, Copy, Debug, PartialEq, Eq)]
pub struct Passed {
    pub next: Cursor,
    pub count: usize,
}

// A refusal, and the values begun.
#[derive(Clone, Copy, Debug, PartialEq, Eq)]
pub struct Halt {
    pub refusal: Refusal,
    pub count: usize,
}

// What passing a value comes to.
pub type Walked = Result<Passed, Halt>;

// The refusal of a value that was begun, with none in it.
impl From<Refusal> for Halt {
    ghost from_gives = { λ refusal halt. halt ≡ record { refusal = refusal; count = 1 } };

    fn from(refusal: Refusal) -> Halt {
        Halt { refusal, count: 1 }
    }
}

// The refusal of a value that was begun, so with a count of 1. Refuses always, by the kind given.
// WrongType at 5 gives 12 at 5, count 1.
pub fn refused(kind: Kind, place: usize) -> Walked
    ensures { told_walked result ≡ cut_off (kind_number kind) place 1 }
{
    Err(kind.at(place).into())
}

// A value of so many bytes, passed: it counts as one. Refuses 2, 1, with count 1.
// 00 00 00 07 at 0, width 4, ends at 4, count 1; 00 00 00 at 0, width 4, is refused: 1 at 0, count 1.
pub fn skip_fixed(bytes: &[u8], cursor: Cursor, width: usize) -> Walked
    ensures { told_walked result ≡ leaf_outcome (within bytes.now cursor.at width) }
{
    let next = cursor.past(bytes, width)?;
    Ok(Passed { next, count: 1 })
}

// A text, passed with no check of UTF-8: it counts as one. Refuses 2, 1, 6, 7, then 1 for the body, with count 1.
// 00 00 00 01 FF at 0 ends at 5, count 1; FF FF FF FF at 0 is refused: 6 at 0, count 1.
pub fn skip_text(bytes: &[u8], cursor: Cursor, config: TConfiguration) -> Walked
    ensures { told_walked result ≡ leaf_outcome (judged (bytes_at config.max_string_size bytes.now cursor.at)) }
{
    let (_, next) = text::read_bytes(bytes, cursor, config)?;
    Ok(Passed { next, count: 1 })
}
