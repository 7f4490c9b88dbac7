// Rows of bytes in a buffer that is lent.
ghost use Rattle.std.specs.Prelude.{◌≡◌, ◌++◌, ◌+◌, ◌≤◌, length, take, drop};

// Copies a row of bytes to the places of `buffer` from `at` on: byte by byte, since `copy_from_slice` takes 240 bytes more of the stack in a
// step of the walk, which has none to spare.
pub fn put(row: &[u8], at: usize, buffer: &mut [u8])
    requires { at + length row.now ≤ length buffer.old }
    ensures { buffer.new
        ≡ take at buffer.old ++ row.now ++ drop (at + length row.now) buffer.old }
{
    for (i, byte) in row.iter().enumerate() {
        buffer[at + i] = *byte;
    }
}
