// PGM files: the image at a place of a file, the images of a file as a stack, and the one way to write a frame.
#![tactic(auto)]

mod header;
pub mod stack;
mod writer;

ghost use Rattle.std.specs.Prelude.{◌≡◌, ◌+◌, ◌-◌, ◌≤◌, length};
ghost use Rattle.std.proofs.lemmas.List.Edits.{sets};
ghost use Rattle.definitions.specs.Refusals.{answer, after};
ghost use Rattle.pgm_format.specs.Pgm as format;
ghost use Rattle.pgm.specs.Answers.{number_of, image_in, answered};

use header::{Head, read_header};
use writer::{digits, put_header};

// What no side of a frame exceeds, and the highest value that a sample has.
const LONGEST_SIDE: usize = 8192;

const HIGHEST: usize = 255;

/// Why a call is refused.
#[derive(Clone, Copy, Debug, PartialEq, Eq)]
pub enum PgmError {
    /// A side is over 8,192.
    Side = 1,
    /// A list of another length than the others ask for, or a buffer that is too short.
    Length = 2,
    /// A stack of more than 16 frames.
    Frames = 6,
    /// No header stands at the place, or the place is past the end of the file.
    Header = 13,
    /// The highest value is not 255.
    Highest = 14,
    /// The file has fewer samples than the header says.
    Short = 15,
}

impl PgmError {
    /// Its number in documents 01 and 02.
    pub fn number(self) -> u32
        ensures { result ≡ number_of self }
    {
        self as u32
    }
}

/// An image of a file: its size, where its samples start, and the place behind them.
// Places and no slice: `mtb_read_pgm`, in C, stores them.
#[derive(Clone, Copy, Debug, PartialEq, Eq)]
pub struct Image {
    pub width: usize,
    pub height: usize,
    pub start: usize,
    pub next: usize,
}

impl Image {
    /// Its samples, a part of the file that it was read from. Of another file, the part between the same places, or the empty part where
    /// these are not in it.
    pub fn samples<'a>(self, file: &'a [u8]) -> &'a [u8]
        ensures { result.now ≡ format.part_of file.now self.start self.next }
    {
        file.get(self.start..self.next).unwrap_or(&[])
    }
}

// Puts bytes into a buffer from a place on. Buffer and place stay two: of a part lent each caller would owe what the whole is then.
fn put_bytes(buffer: &mut [u8], at: usize, bytes: &[u8])
    requires { at + length bytes.now ≤ length buffer.old }
    ensures { buffer.new ≡ sets buffer.old at bytes.now }
{
    let end = at + bytes.len();
    buffer[at..end].copy_from_slice(bytes);
}

// The most samples that are put at once.
const BLOCK: usize = 2097152;

// Puts up to a block of bytes into a buffer from a place on. They go by way of an array of its own, which is known to lie apart from both:
// so it is compiled to one call of memmove from the one to the other, and the array is left out.
fn put_block(buffer: &mut [u8], at: usize, bytes: &[u8])
    requires { (length bytes.now ≤ 2097152) × (at + length bytes.now ≤ length buffer.old) }
    ensures { buffer.new ≡ sets buffer.old at bytes.now }
{
    let mut block = [0u8; BLOCK];
    let n = bytes.len();
    put_bytes(&mut block, 0, bytes);
    put_bytes(buffer, at, &block[..n]);
}

// Puts samples into a buffer from a place on, block by block.
// By number: with `chunks` the place written to would be counted beside.
fn put_samples(buffer: &mut [u8], at: usize, samples: &[u8])
    requires { at + length samples.now ≤ length buffer.old }
    ensures { buffer.new ≡ sets buffer.old at samples.now }
{
    let blocks = samples.len() / BLOCK;
    for k in 0..blocks {
        let done = k * BLOCK;
        put_block(buffer, at + done, &samples[done..done + BLOCK]);
    }
    let done = blocks * BLOCK;
    put_block(buffer, at + done, &samples[done..]);
}

// The image whose header was read, in a file of so many bytes.
fn image_of(head: Head, length: usize) -> Result<Image, PgmError>
    requires { head.start ≤ length }
    ensures { (let sizes : format.Sizes = record { width = head.width; height = head.height; highest = head.highest } in
        answered image_in result ≡ answer (format.sizes_checks sizes (length - head.start)) (format.image_from sizes head.start)) }
{
    let longest = head.width.max(head.height);
    if longest > LONGEST_SIDE {
        return Err(PgmError::Side);
    }
    if head.highest != HIGHEST {
        return Err(PgmError::Highest);
    }
    let promised = head.width * head.height;
    if length - head.start < promised {
        return Err(PgmError::Short);
    }
    Ok(Image {
        width: head.width,
        height: head.height,
        start: head.start,
        next: head.start + promised,
    })
}

/// The image at a place of a file. `Header` if no header stands there; then `Side` if a side is over 8,192, `Highest` if the highest value
/// is not 255, and `Short` if the file ends before its samples do.
pub fn read(file: &[u8], at: usize) -> Result<Image, PgmError>
    ensures { answered image_in result ≡ format.read file.now at }
{
    let head = read_header(file, at).ok_or(PgmError::Header)?;
    image_of(head, file.len())
}

/// Writes a frame as a file at the front of a buffer, and answers the file's length. What lies past it stays.
/// `Side` if a side is over 8,192; then `Length` if there are not width times height samples, or the buffer is shorter than the file.
pub fn write(
    samples: &[u8],
    width: usize,
    height: usize,
    file: &mut [u8],
) -> Result<usize, PgmError>
    ensures { (let frame : format.Frame = record { width = width; height = height; samples = samples.now } in
        (answered (λ end. end) result ≡ format.write frame (length file.old))
        × (file.new ≡ after (format.write_checks frame (length file.old)) (format.written frame file.old) file.old)) }
{
    if width.max(height) > LONGEST_SIDE {
        return Err(PgmError::Side);
    }
    if samples.len() != width * height {
        return Err(PgmError::Length);
    }
    let blank = 3 + digits(width);
    let feed = blank + 1 + digits(height);
    let start = feed + 5;
    let end = start + samples.len();
    if end > file.len() {
        return Err(PgmError::Length);
    }
    put_header(file, width, height, blank, feed);
    put_samples(file, start, samples);
    Ok(end)
}
