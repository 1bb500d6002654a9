// The header of an image, read by its place in the file.
ghost use Rattle.std.specs.Prelude.{◌≡◌, true, false, ◌+◌, ◌-◌, ◌*◌, ◌≤◌, eqb, length, get_or, drop};
ghost use Rattle.definitions.specs.Sum.{bit, sum};
ghost use Rattle.definitions.specs.Decimal.{is_digit, value_from};
ghost use Rattle.pgm_format.specs.Pgm.{is_white, after_gap, digits_of, after_digits, one_white, magic, field_of, header_of};
ghost use Rattle.pgm.specs.Inner.{From, after_comment, kept, PlaceIs, FieldIs, HeaderIs};

// File and place stay two arguments, with `at ≤ length file.now`: the fact is one comparison, and a type would be built anew at each place.

// A number, of which no more than 8,193 is kept, and the place behind its digits.
#[derive(Clone, Copy)]
pub(crate) struct Number {
    pub(crate) value: usize,
    pub(crate) next: usize,
}

// The three numbers of a header, kept so too, and where the samples start.
#[derive(Clone, Copy)]
pub(crate) struct Head {
    pub(crate) width: usize,
    pub(crate) height: usize,
    pub(crate) highest: usize,
    pub(crate) start: usize,
}

// What is kept of a longer number.
const ENOUGH: usize = 8193;

// Bytes of a comment that are looked at together.
const BLOCK: usize = 32;

fn is_white(byte: u8) -> bool
    ensures { result ≡ is_white byte }
{
    byte == b' ' || byte == b'\t' || byte == b'\r' || byte == b'\n'
}

fn is_digit(byte: u8) -> bool
    ensures { result ≡ is_digit byte }
{
    byte.is_ascii_digit()
}

fn one_if_line_feed(byte: u8) -> u8
    ensures { result ≡ bit (eqb byte 10) }
{
    u8::from(byte == b'\n')
}

// How many line feeds there are among the bytes of a block: counted without a branch, so that they are looked at side by side.
fn line_feeds(file: &[u8], at: usize) -> u8
    requires { at + 32 ≤ length file.now }
    ensures { result ≡ sum 32 (λ k. bit (eqb (get_or file.now (at + k) 0) 10)) }
{
    let mut found: u8 = 0;
    for k in 0..BLOCK {
        found += one_if_line_feed(file[at + k]);
    }
    found
}

// The place behind the line feed that ends a comment, or the file's end: by blocks up to the one that has it, then by bytes.
fn after_comment(file: &[u8], at: usize) -> usize
    requires { at ≤ length file.now }
    ensures { From file.now (after_comment (drop at file.now)) result }
{
    let mut from = at;
    for _ in 0..(file.len() - at) / BLOCK {
        if line_feeds(file, from) != 0 {
            break;
        }
        from += BLOCK;
    }
    for i in from..file.len() {
        if file[i] == b'\n' {
            return i + 1;
        }
    }
    file.len()
}

// The place behind white space and comments; the place itself where none stand, as `after_gap` of the format says.
fn after_gap(file: &[u8], at: usize) -> usize
    requires { at ≤ length file.now }
    ensures { From file.now (after_gap false (drop at file.now)) result }
{
    let mut i = at;
    // A comment is passed over at once: how far a turn goes depends on what was read.
    while i < file.len() {
        let byte = file[i];
        if is_white(byte) {
            i += 1;
        } else if byte == b'#' {
            i = after_comment(file, i + 1);
        } else {
            return i;
        }
    }
    file.len()
}

// The place behind a white space byte.
fn after_white(file: &[u8], at: usize) -> Option<usize>
    requires { at ≤ length file.now }
    ensures { PlaceIs file.now (one_white tt (drop at file.now)) result }
{
    if at < file.len() && is_white(file[at]) {
        return Some(at + 1);
    }
    None
}

// A number with one digit more.
fn with_digit(value: usize, byte: u8) -> usize
    requires { (value ≤ 8193) × (is_digit byte ≡ true) }
    ensures { result ≡ kept (10 * value + (byte - 48)) }
{
    let longer = 10 * value + usize::from(byte - b'0');
    longer.min(ENOUGH)
}

// The number that the digits from a place on write, 0 where there are none.
// Its `next` is then the place itself and no `None`, as `after_digits` of the format says.
fn read_number(file: &[u8], at: usize) -> Number
    requires { at ≤ length file.now }
    ensures { (result.value ≡ kept (value_from 0 (digits_of (drop at file.now))))
        × From file.now (after_digits (drop at file.now)) result.next }
{
    let mut value = 0;
    for next in at..file.len() {
        let byte = file[next];
        if !is_digit(byte) {
            return Number { value, next };
        }
        value = with_digit(value, byte);
    }
    Number {
        value,
        next: file.len(),
    }
}

// A number behind white space. That one of the two is missing is seen by a place that did not move.
fn read_field(file: &[u8], at: usize) -> Option<Number>
    requires { at ≤ length file.now }
    ensures { FieldIs file.now (field_of (drop at file.now)) result }
{
    let from = after_gap(file, at);
    if from == at {
        return None;
    }
    let number = read_number(file, from);
    if number.next == from {
        return None;
    }
    Some(number)
}

// The place behind P5.
fn after_magic(file: &[u8], at: usize) -> Option<usize>
    ensures { PlaceIs file.now (magic (drop at file.now)) result }
{
    if file.len().saturating_sub(at) >= 2 && file[at] == b'P' && file[at + 1] == b'5' {
        return Some(at + 2);
    }
    None
}

// The header at a place, which may lie past the end.
pub(crate) fn read_header(file: &[u8], at: usize) -> Option<Head>
    ensures { HeaderIs file.now (header_of (drop at file.now)) result }
{
    let sizes = after_magic(file, at)?;
    let width = read_field(file, sizes)?;
    let height = read_field(file, width.next)?;
    let highest = read_field(file, height.next)?;
    let start = after_white(file, highest.next)?;
    Some(Head {
        width: width.value,
        height: height.value,
        highest: highest.value,
        start,
    })
}
