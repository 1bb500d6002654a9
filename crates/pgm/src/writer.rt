// The header of a written file. A number's digits come from its last one, so each is put where it ends.
ghost use Rattle.std.specs.Prelude.{◌≡◌, ◌+◌, ◌≤◌, length};
ghost use Rattle.std.proofs.lemmas.List.Edits.{sets};
ghost use Rattle.definitions.specs.Decimal.{decimal};
ghost use Rattle.pgm_format.specs.Pgm.{header_bytes};

use super::put_bytes;

// How many digits a number has.
pub(crate) fn digits(n: usize) -> usize
    ensures { result ≡ length (decimal n) }
{
    n.checked_ilog10().unwrap_or(0) as usize + 1
}

// Puts a number in decimal into a buffer, from `first` up to `end`. The caller has counted its digits, and a `u16` is divided in fewer steps:
// counted again, and of a `usize`, a header took a quarter more time of a small frame.
// By hand, where steps has `io::decimal`: pgm would stand on io for it, with steps' law of it beside.
fn put_decimal(file: &mut [u8], first: usize, end: usize, n: u16)
    requires { (end ≡ first + length (decimal n)) × (end ≤ length file.old) }
    ensures { file.new ≡ sets file.old first (decimal n) }
{
    let mut rest = n;
    for at in (first + 1..end).rev() {
        file[at] = (48 + rest % 10) as u8;
        rest /= 10;
    }
    file[first] = (48 + rest) as u8;
}

// Puts a header at the front of a buffer: the width up to the blank, the height up to the line feed behind it.
pub(crate) fn put_header(file: &mut [u8], width: usize, height: usize, blank: usize, feed: usize)
    requires { (width ≤ 8192) × (height ≤ 8192)
        × (blank ≡ 3 + length (decimal width))
        × (feed ≡ blank + 1 + length (decimal height))
        × (feed + 5 ≤ length file.old) }
    ensures { file.new ≡ sets file.old 0 (header_bytes width height) }
{
    put_bytes(file, 0, b"P5\n");
    put_decimal(file, 3, blank, width as u16);
    put_bytes(file, blank, b" ");
    put_decimal(file, blank + 1, feed, height as u16);
    put_bytes(file, feed, b"\n255\n");
}
