// One value, whatever its type. A value's skip calls that of a struct, a list or a map, and they call back for each
// child with the depth less one, so the depth bounds the calls.
#![tactic(auto)]

ghost use Rattle.std.specs.Prelude.{◌≡◌, ◌<◌};
ghost use Rattle.tree.specs.Coding.{fields, items, pairs};
ghost use Rattle.tree.specs.Answers.{Answers, EachAnswers};
ghost use Rattle.binary.specs.Binary.{binary};
ghost use Rattle.leaf.specs.Told.{told_walked};
ghost use Rattle.skip_value.specs.Then.{Room, then, after};

use codes::TType;
use codes::shape::Shape;
use config::configuration::TConfiguration;
use leaf::{Halt, Passed, Walked};
use wire::cursor::Cursor;
use wire::refusal::Kind;

// What was passed so far and then the next value, whose count comes on top, where it is refused too.
fn then(so_far: Passed, next: Walked) -> Walked
    requires { Room so_far.count next }
    ensures { result ≡ then so_far.count next }
{
    match next {
        Ok(value) => Ok(Passed {
            next: value.next,
            count: so_far.count + value.count,
        }),
        Err(halt) => Err(Halt {
            refusal: halt.refusal,
            count: so_far.count + halt.count,
        }),
    }
}

// What comes after so many values is read: where it is refused, these were begun.
fn after<T>(so_far: Passed, read: wire::Result<T>) -> Result<T, Halt>
    ensures { result ≡ after so_far.count read }
{
    read.map_err(|refusal| Halt {
        refusal,
        count: so_far.count,
    })
}

// Passes one value of the type, whole, and counts the values in it, as `skip_till_depth` does once it has judged the start
// and both depths. Refuses of each value, as it is met, 10, 12 and what its struct begin, its header or its bytes refuse:
// 2, 20, 11, 1, 5, 6, 7, 8, 9, with the values begun.
// 08 00 01 00 00 00 09 00 at 0 as Struct, depth 2, ends at 8, count 2; at 9 it is refused: 2 at 9, count 1.
#[cycle(skip_list_skip_map_skip_struct_skip_value)]
#[tactic(auto, using(crate::proofs::Deep::no_depth))]
pub fn skip_value(
    bytes: &[u8],
    cursor: Cursor,
    field_type: TType,
    depth: usize,
    struct_depth: usize,
    config: TConfiguration,
) -> Walked
    ensures { Answers binary config bytes.now cursor.at depth struct_depth field_type (told_walked result) }
{
    if depth == 0 {
        return leaf::refused(Kind::SkipDepth, cursor.at);
    }
    match codes::shape::shape_of(field_type) {
        Shape::Fixed(width) => leaf::skip_fixed(bytes, cursor, width),
        Shape::Text => leaf::skip_text(bytes, cursor, config),
        Shape::Fields => skip_struct(bytes, cursor, depth, struct_depth, config),
        Shape::Items => skip_list(bytes, cursor, depth, struct_depth, config),
        Shape::Pairs => skip_map(bytes, cursor, depth, struct_depth, config),
        Shape::Unfit => leaf::refused(Kind::WrongType, cursor.at),
    }
}

#[cycle(skip_list_skip_map_skip_struct_skip_value)]
fn skip_struct(
    bytes: &[u8],
    cursor: Cursor,
    depth: usize,
    struct_depth: usize,
    config: TConfiguration,
) -> Walked
    requires { 0 < depth }
    ensures { EachAnswers binary fields config bytes.now cursor.at depth struct_depth (told_walked result) }
{
    let (inner, _) = nesting::read_struct_begin(bytes, cursor, struct_depth, config)?;
    let mut so_far = Passed {
        next: cursor,
        count: 1,
    };
    loop {
        let (field, first) = after(so_far, read::field::read_field_begin(bytes, so_far.next))?;
        if field.field_type.is_stop() {
            let (_, next) = after(so_far, nesting::read_struct_end(bytes, first, inner))?;
            return Ok(Passed { next, ..so_far });
        }
        let value = skip_value(bytes, first, field.field_type, depth - 1, inner, config);
        so_far = then(so_far, value)?;
    }
}

// A list or a set.
#[cycle(skip_list_skip_map_skip_struct_skip_value)]
fn skip_list(
    bytes: &[u8],
    cursor: Cursor,
    depth: usize,
    struct_depth: usize,
    config: TConfiguration,
) -> Walked
    requires { 0 < depth }
    ensures { EachAnswers binary items config bytes.now cursor.at depth struct_depth (told_walked result) }
{
    let (list, first) = read::container::read_list_begin(bytes, cursor, config)?;
    let element_type = list.element_type;
    let mut so_far = Passed {
        next: first,
        count: 1,
    };
    for _ in 0..list.size as usize {
        let element = skip_value(
            bytes,
            so_far.next,
            element_type,
            depth - 1,
            struct_depth,
            config,
        );
        so_far = then(so_far, element)?;
    }
    Ok(so_far)
}

#[cycle(skip_list_skip_map_skip_struct_skip_value)]
fn skip_map(
    bytes: &[u8],
    cursor: Cursor,
    depth: usize,
    struct_depth: usize,
    config: TConfiguration,
) -> Walked
    requires { 0 < depth }
    ensures { EachAnswers binary pairs config bytes.now cursor.at depth struct_depth (told_walked result) }
{
    let (map, first) = read::container::read_map_begin(bytes, cursor, config)?;
    let mut so_far = Passed {
        next: first,
        count: 1,
    };
    for _ in 0..map.size as usize {
        let key = skip_value(
            bytes,
            so_far.next,
            map.key_type,
            depth - 1,
            struct_depth,
            config,
        );
        so_far = then(so_far, key)?;
        let value = skip_value(
            bytes,
            so_far.next,
            map.value_type,
            depth - 1,
            struct_depth,
            config,
        );
        so_far = then(so_far, value)?;
    }
    Ok(so_far)
}
