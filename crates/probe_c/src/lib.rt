// The archive for C and Rust: `probe`'s calls under their C names, with `probe`'s own promises.
#![tactic(auto)]

ghost use Rattle.config.specs.Limits.{limits_of};
ghost use Rattle.probe_numbers.specs.Numbers.{read_step_of, write_step_of};
ghost use Rattle.probe_reads.specs.Reads.{reading_of};
ghost use Rattle.probe_writes.specs.Writes.{writing_of, does_of};
ghost use Rattle.probe.specs.Reads.{Read};
ghost use Rattle.probe.specs.Writes.{Written};

// `probe::thrift_read` for C: one read by its number, its answer in the record's first 48 bytes. Returns what that returns
// and refuses, in the record, what that refuses.
// Step 4, 00 00 00 07 at 0, sets 0, 4, 7, 0, 0, 0; step 4, 00 00 00 at 0, sets 1, 0, 0, 0, 0, 0.
#[unsafe(no_mangle)]
pub extern "C" fn thrift_read(
    bytes: &[u8],
    place: usize,
    step: u8,
    strict: u8,
    kind: u8,
    depth: usize,
    struct_depth: usize,
    message: usize,
    frame: usize,
    structs: usize,
    container: usize,
    string: usize,
    kept: &mut [u8],
) -> u32
    ensures { Read (read_step_of step) bytes.now (reading_of place strict «kind» depth struct_depth (limits_of message frame structs container string)) kept.old result kept.new }
{
    probe::thrift_read(
        bytes,
        place,
        step,
        strict,
        kind,
        depth,
        struct_depth,
        message,
        frame,
        structs,
        container,
        string,
        kept,
    )
}

// `probe::thrift_write` for C: one write by its number into the buffer. Returns what that returns and refuses, in the
// record, what that refuses, and the buffer stays.
// Step 11, number 7, at 0 of 4 bytes AA leaves 00 00 00 07 and sets 0, 4, 0, 0, 0, 0; at 1 of them it sets 15, 1 and
// four times 0.
#[unsafe(no_mangle)]
pub extern "C" fn thrift_write(
    out: &mut [u8],
    place: usize,
    step: u8,
    strict: u8,
    kind: u8,
    other: u8,
    absent: u8,
    number: u64,
    text: &[u8],
    struct_depth: usize,
    structs: usize,
    kept: &mut [u8],
) -> u32
    ensures { Written (does_of (write_step_of step) (writing_of place strict «kind» other absent number struct_depth structs) text.now out.old) kept.old result kept.new out.old out.new }
{
    probe::thrift_write(
        out,
        place,
        step,
        strict,
        kind,
        other,
        absent,
        number,
        text,
        struct_depth,
        structs,
        kept,
    )
}
