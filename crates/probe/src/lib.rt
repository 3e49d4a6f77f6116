// Single reads and writes for C and Rust, each asked for by a number, with its answer in a lent record.
#![tactic(auto)]

mod kept;

ghost use Rattle.config.specs.Limits.{limits_of};
ghost use Rattle.probe_numbers.specs.Numbers.{read_step_of, write_step_of};
ghost use Rattle.probe_reads.specs.Reads.{reading_of};
ghost use Rattle.probe_writes.specs.Writes.{writing_of, does_of};
ghost use Rattle.probe.specs.Reads.{Read};
ghost use Rattle.probe.specs.Writes.{Written};

// One read by its number, its answer in the record's first 48 bytes: the refusal's number or 0, the place, four values.
// Returns 0; 15 where the record has fewer than 48 bytes; 255, with nothing touched, for a step that there is not, or a
// type that there is not where the step asks for one. Refuses, in the record, what the read of that number refuses.
// Step 4, 00 00 00 07 at 0, sets 0, 4, 7, 0, 0, 0; step 4, 00 00 00 at 0, sets 1, 0, 0, 0, 0, 0.
#[tactic(auto, using(crate::proofs::Steps::too_small, crate::proofs::Steps::done))]
pub fn thrift_read(
    bytes: &[u8],
    place: usize,
    step: u8,
    strict: u8,
    kind: u8,
    depth: usize,
    struct_depth: usize,
    message: usize,
    frame: usize,
    structs: usize,
    container: usize,
    string: usize,
    kept: &mut [u8],
) -> u32
    ensures { Read (read_step_of step) bytes.now (reading_of place strict «kind» depth struct_depth (limits_of message frame structs container string)) kept.old result kept.new }
{
    if kept.len() < 48 {
        return 15;
    }
    let call = probe_reads::asked_with(
        place,
        strict,
        kind,
        depth,
        struct_depth,
        message,
        frame,
        structs,
        container,
        string,
    );
    kept::keep(kept, probe_reads::by_number(bytes, step, call))
}

// The same of a write into the buffer; also 255 for a message type that there is not and a UUID that has not 16 bytes.
// Refuses, in the record, what the write of that number refuses, and the buffer stays.
// Step 11, number 7, at 0 of 4 bytes AA leaves 00 00 00 07 and sets 0, 4, 0, 0, 0, 0; at 1 of them it sets 15, 1 and
// four times 0.
#[tactic(auto, using(crate::proofs::Writes::write_too_small, crate::proofs::Writes::write_done))]
pub fn thrift_write(
    out: &mut [u8],
    place: usize,
    step: u8,
    strict: u8,
    kind: u8,
    other: u8,
    absent: u8,
    number: u64,
    text: &[u8],
    struct_depth: usize,
    structs: usize,
    kept: &mut [u8],
) -> u32
    ensures { Written (does_of (write_step_of step) (writing_of place strict «kind» other absent number struct_depth structs) text.now out.old) kept.old result kept.new out.old out.new }
{
    if kept.len() < 48 {
        return 15;
    }
    let call = probe_writes::asked_with(
        place,
        strict,
        kind,
        other,
        absent,
        number,
        struct_depth,
        structs,
    );
    kept::keep(kept, probe_writes::by_number(out, step, call, text))
}
