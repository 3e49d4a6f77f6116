// The place in a lent slice, by value: a call is handed one and answers with the moved one.
ghost use Rattle.std.specs.Prelude.{◌≡◌};
ghost use Rattle.wire.specs.Answer.{within, stay_at};
ghost use Rattle.wire.specs.Refusals.{told_moved};
ghost use Rattle.wire.specs.Writes.{room_for};

use crate::Result;
use crate::refusal::{Kind, Refusal};

#[derive(Clone, Copy, Debug, PartialEq, Eq)]
pub struct Cursor {
    pub at: usize,
}

impl Cursor {
    // A cursor at a place, whatever bytes it is used with. Refuses nothing.
    // 5 gives a cursor at 5; with no bytes every read from there is refused: 2 at 5.
    pub fn new(at: usize) -> Self
        ensures { result.at ≡ at }
    {
        Cursor { at }
    }

    // Past an item of so many bytes: every read of bytes goes through here. Refuses 2, 1.
    // 00 00 00 07 at 0, width 4, moves to 4; 00 00 00 at 0, width 4, is refused: 1 at 0.
    #[tactic(auto, unfolding(crate::specs::Answer::within, crate::specs::Answer::refuse_if))]
    pub fn past(self, bytes: &[u8], width: usize) -> Result<Cursor>
        ensures { told_moved result ≡ within bytes.now self.at width }
    {
        let at = self.at;
        if bytes.len() < at {
            return Err(Kind::StartBeyond.at(at));
        }
        if bytes.len() - at < width {
            return Err(Kind::ShortInput.at(at));
        }
        Ok(Cursor { at: at + width })
    }

    // Past nothing: only that the place lies within. Refuses 2.
    // 00 at 1 stays at 1; 00 at 2 is refused: 2 at 2.
    #[tactic(auto, unfolding(crate::specs::Answer::stay_at, crate::specs::Answer::refuse_if))]
    pub fn stay(self, bytes: &[u8]) -> Result<Cursor>
        ensures { told_moved result ≡ stay_at bytes.now self.at }
    {
        if bytes.len() < self.at {
            return Err(Kind::StartBeyond.at(self.at));
        }
        Ok(self)
    }

    // Past an output of so many bytes, in a buffer of so many: every write asks for its room here. Refuses 2, 15.
    // Of a buffer of 4 bytes, 4 from 0 on move to 4; 4 from 1 on are refused: 15 at 1.
    #[tactic(auto, unfolding(crate::specs::Writes::room_for, crate::specs::Answer::refuse_if))]
    pub fn room(self, len: usize, size: usize) -> Result<Cursor>
        ensures { told_moved result ≡ room_for len self.at size }
    {
        let at = self.at;
        if len < at {
            return Err(Kind::StartBeyond.at(at));
        }
        if len - at < size {
            return Err(Kind::OutputFull.at(at));
        }
        Ok(Cursor { at: at + size })
    }
}
