// The archive for C and Rust: `host`'s calls under their C names, with `host`'s own promises.
#![tactic(auto)]

ghost use Rattle.host.specs.Host.{Hosted, HostedByDefault, skip_limits};

// `host::thrift_skip` for C: skips one value under the default limits with no struct open, its answer in the record;
// returns 0, or 15 where the record has fewer than 24 bytes. Refuses what that refuses.
// 03 00 00 00 02 05 06 at 0 as 0F, depth 2, ends at 7, count 3; depth 1 is refused: 10 at 5, count 2.
#[unsafe(no_mangle)]
pub extern "C" fn thrift_skip(
    bytes: &[u8],
    place: usize,
    depth: usize,
    type_byte: u8,
    kept: &mut [u8],
) -> u32
    ensures { HostedByDefault bytes.now place depth type_byte kept.old result kept.new }
{
    host::thrift_skip(bytes, place, depth, type_byte, kept)
}

// `host::thrift_skip_within` for C: the same under the limits given, the greatest number for none, and inside as many
// open structs as are given. Refuses what that refuses.
// 00 at 0 as 0C, depth 1, struct depth 1, ends at 1, count 1, where structs is 2; where it is 1: 11 at 0, count 1.
#[unsafe(no_mangle)]
pub extern "C" fn thrift_skip_within(
    bytes: &[u8],
    place: usize,
    depth: usize,
    type_byte: u8,
    struct_depth: usize,
    message: usize,
    structs: usize,
    container: usize,
    string: usize,
    kept: &mut [u8],
) -> u32
    ensures { Hosted (skip_limits message structs container string) struct_depth bytes.now place depth type_byte kept.old result kept.new }
{
    host::thrift_skip_within(
        bytes,
        place,
        depth,
        type_byte,
        struct_depth,
        message,
        structs,
        container,
        string,
        kept,
    )
}
