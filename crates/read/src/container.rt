// Headers of lists, sets and maps: the types, then the size within its limits.
ghost use Rattle.std.specs.Prelude.{◌≡◌, ◌≤◌};
ghost use Rattle.wire.specs.Answer.{stay_at};
ghost use Rattle.wire.specs.Refusals.{told, told_moved};
ghost use Rattle.read.specs.Headers.{as_set, count_at, list_at, set_at, map_at};

use crate::field::read_type;
use codes::TType;
use config::configuration::TConfiguration;
use config::limit;
use wire::Result;
use wire::cursor::Cursor;
use wire::refusal::Kind;

#[derive(Clone, Copy, Debug, PartialEq, Eq)]
pub struct TListIdentifier {
    pub element_type: TType,
    pub size: i32,
}

#[derive(Clone, Copy, Debug, PartialEq, Eq)]
pub struct TSetIdentifier {
    pub element_type: TType,
    pub size: i32,
}

#[derive(Clone, Copy, Debug, PartialEq, Eq)]
pub struct TMapIdentifier {
    pub key_type: TType,
    pub value_type: TType,
    pub size: i32,
}

// A set is laid out as a list is.
impl From<TListIdentifier> for TSetIdentifier {
    ghost from_gives = { λ list set. set ≡ as_set list };

    fn from(list: TListIdentifier) -> TSetIdentifier {
        TSetIdentifier {
            element_type: list.element_type,
            size: list.size,
        }
    }
}

// A number of elements of at least so many bytes each, as check_container_size in the crate.
#[tactic(auto, using(text::proofs::Texts::size_below), unfolding(crate::specs::Headers::count_at, wire::specs::Answer::and_then, wire::specs::Answer::refuse_if))]
pub(crate) fn read_count(
    bytes: &[u8],
    cursor: Cursor,
    least: usize,
    config: TConfiguration,
) -> Result<(usize, Cursor)>
    requires { least ≤ 32 }
    ensures { told result ≡ count_at config least bytes.now cursor.at }
{
    let (size, next) = text::read_size(bytes, cursor)?;
    if limit::exceeded(config.max_container_size, size) {
        return Err(Kind::ContainerLimit.at(cursor.at));
    }
    if limit::exceeded(config.max_message_size, size * least) {
        return Err(Kind::MessageLimit.at(cursor.at));
    }
    Ok((size, next))
}

// A list's header: element type and size. Refuses 2, 1, 5, then 1, 6, 8, 9 for the size.
// 03 00 00 00 02 at 0 gives I08, 2 and ends at 5; 03 FF FF FF FF at 0 is refused: 6 at 1.
#[tactic(auto, unfolding(crate::specs::Headers::list_at, wire::specs::Answer::and_then))]
pub fn read_list_begin(
    bytes: &[u8],
    cursor: Cursor,
    config: TConfiguration,
) -> Result<(TListIdentifier, Cursor)>
    ensures { told result ≡ list_at config bytes.now cursor.at }
{
    let (element_type, next) = read_type(bytes, cursor)?;
    let least = codes::min_serialized_size(element_type);
    let (len, end) = read_count(bytes, next, least, config)?;
    let size = len as i32;
    Ok((TListIdentifier { element_type, size }, end))
}

// A list's end, which has no byte. Refuses 2.
// 00 at 1 stays at 1; 00 at 2 is refused: 2 at 2.
pub fn read_list_end(bytes: &[u8], cursor: Cursor) -> Result<Cursor>
    ensures { told_moved result ≡ stay_at bytes.now cursor.at }
{
    cursor.stay(bytes)
}

// A set's header, which is laid out as a list's. Refuses 2, 1, 5, then 1, 6, 8, 9 for the size.
// 03 00 00 00 02 at 0 gives I08, 2 and ends at 5; 03 FF FF FF FF at 0 is refused: 6 at 1.
#[tactic(auto, unfolding(crate::specs::Headers::set_at))]
pub fn read_set_begin(
    bytes: &[u8],
    cursor: Cursor,
    config: TConfiguration,
) -> Result<(TSetIdentifier, Cursor)>
    ensures { told result ≡ set_at config bytes.now cursor.at }
{
    let (list, end) = read_list_begin(bytes, cursor, config)?;
    Ok((list.into(), end))
}

// A set's end, which has no byte. Refuses 2.
// 00 at 1 stays at 1; 00 at 2 is refused: 2 at 2.
pub fn read_set_end(bytes: &[u8], cursor: Cursor) -> Result<Cursor>
    ensures { told_moved result ≡ stay_at bytes.now cursor.at }
{
    cursor.stay(bytes)
}

// A map's header: key type, value type and size. Refuses 2, 1, 5, then 1, 5 for the value type, then 1, 6, 8, 9.
// 08 0B 00 00 00 02 at 0 gives I32, String, 2 and ends at 6; 08 05 00 00 00 00 at 0 is refused: 5 at 1.
#[tactic(auto, unfolding(crate::specs::Headers::map_at, wire::specs::Answer::and_then))]
pub fn read_map_begin(
    bytes: &[u8],
    cursor: Cursor,
    config: TConfiguration,
) -> Result<(TMapIdentifier, Cursor)>
    ensures { told result ≡ map_at config bytes.now cursor.at }
{
    let (key_type, value_at) = read_type(bytes, cursor)?;
    let (value_type, next) = read_type(bytes, value_at)?;
    let key = codes::min_serialized_size(key_type);
    let value = codes::min_serialized_size(value_type);
    let (len, end) = read_count(bytes, next, key + value, config)?;
    let map = TMapIdentifier {
        key_type,
        value_type,
        size: len as i32,
    };
    Ok((map, end))
}

// A map's end, which has no byte. Refuses 2.
// 00 at 1 stays at 1; 00 at 2 is refused: 2 at 2.
pub fn read_map_end(bytes: &[u8], cursor: Cursor) -> Result<Cursor>
    ensures { told_moved result ≡ stay_at bytes.now cursor.at }
{
    cursor.stay(bytes)
}
