//! A table of records put into a buffer.

ghost use Rattle.std.specs.Prelude.{◌≡◌, ◌+◌, ◌≤◌, length};
ghost use Rattle.std.specs.List.{flat_map, All};
ghost use Rattle.fields.specs.Buffers.{put};

use records::record::Record;

/// Puts one record behind the other, and answers where the last ended.
pub fn put_table<R: Record + Copy>(table: &[R], out: &mut [u8], at: usize) -> usize
    requires { at + length (flat_map R.Record.laid table.now) ≤ length out.old }
    ensures end { result ≡ at + length (flat_map R.Record.laid table.now) }
    ensures after { out.new ≡ put at (flat_map R.Record.laid table.now) out.old }
    ensures within { All R.Record.fits table.now }
{
    let mut end = at;
    for record in table {
        end = record.put(out, end);
    }
    end
}
