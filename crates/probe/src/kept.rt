// The lent record: six numbers.
ghost use Rattle.std.specs.Prelude.{◌≡◌, ◌≤◌, length};
ghost use Rattle.probe.specs.Kept.{filled, Left};

use probe_rows::Row;

fn fill(kept: &mut [u8], row: Row)
    requires { 48 ≤ length kept.old }
    ensures { kept.new ≡ filled row kept.old }
{
    put::put64(kept, row.number);
    put::put64(&mut kept[8..], row.place);
    put::put64(&mut kept[16..], row.a);
    put::put64(&mut kept[24..], row.b);
    put::put64(&mut kept[32..], row.c);
    put::put64(&mut kept[40..], row.d);
}

pub(crate) fn keep(kept: &mut [u8], stepped: Option<Row>) -> u32
    requires { 48 ≤ length kept.old }
    ensures { Left stepped kept.old result kept.new }
{
    match stepped {
        Some(row) => {
            fill(kept, row);
            0
        }
        None => 255,
    }
}
