// Text that is put into a buffer from `at` on, as far as there is room; each answer is where it ends. Buffer and place stay two
// parameters: a struct that lends a `&mut` owes a clause on its loan in each contract.
ghost use Rattle.std.specs.Prelude.{◌≡◌, [], ◌∷◌, ◌++◌, ◌≤◌, length};
ghost use Rattle.definitions.specs.Decimal.{decimal};
ghost use Rattle.steps.specs.Text.{ascii, integer};
ghost use Rattle.steps.specs.Inner.{Put};

// The answer of each function that puts text is where the next byte goes.
pub(crate) fn put_byte(out: &mut [u8], at: usize, byte: u8) -> usize
    requires { at ≤ length out.old }
    ensures { Put out.old at (byte ∷ []) out.new result }
{
    if at < out.len() {
        out[at] = byte;
        return at + 1;
    }
    at
}

pub(crate) fn put_bytes(out: &mut [u8], at: usize, bytes: &[u8]) -> usize
    requires { at ≤ length out.old }
    ensures { Put out.old at bytes.now out.new result }
{
    let n = bytes.len().min(out.len() - at);
    out[at..at + n].copy_from_slice(&bytes[..n]);
    at + n
}

pub(crate) fn put_number(out: &mut [u8], at: usize, value: u64) -> usize
    requires { at ≤ length out.old }
    ensures { Put out.old at (decimal value) out.new result }
{
    let mut digits = [0u8; 20];
    let n = io::decimal(value, &mut digits);
    put_bytes(out, at, &digits[..n])
}

// A blank, then the number.
pub(crate) fn put_next(out: &mut [u8], at: usize, value: u64) -> usize
    requires { at ≤ length out.old }
    ensures { Put out.old at (ascii " " ++ decimal value) out.new result }
{
    let next = put_byte(out, at, b' ');
    put_number(out, next, value)
}

// A blank, a minus sign, then the number.
pub(crate) fn put_negative(out: &mut [u8], at: usize, value: u64) -> usize
    requires { at ≤ length out.old }
    ensures { Put out.old at (ascii " -" ++ decimal value) out.new result }
{
    let next = put_bytes(out, at, b" -");
    put_number(out, next, value)
}

// A blank, then the coordinate.
pub(crate) fn put_coordinate(out: &mut [u8], at: usize, coordinate: i32) -> usize
    requires { at ≤ length out.old }
    ensures { Put out.old at (ascii " " ++ integer coordinate) out.new result }
{
    let size = u64::from(coordinate.unsigned_abs());
    if coordinate < 0 {
        return put_negative(out, at, size);
    }
    put_next(out, at, size)
}
