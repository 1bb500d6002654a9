// Packed bitmaps: a row is ceil(width / 64) words, lowest bit first, padding clear.
ghost use Rattle.std.specs.Prelude.{◌≡◌, cond, [], ℕ, ◌+◌, ◌-◌, ◌*◌, ◌/◌, ◌%◌, ◌≤◌, ◌<◌, ltb, eqb, length, replicate};
ghost use Rattle.definitions.specs.Sum.{bit};
ghost use Rattle.definitions.specs.Threshold.{threshold_bit, exclusion_bit};
ghost use Rattle.std.proofs.lemmas.List.Edits.{sets};
ghost use Rattle.definitions.specs.Bitmap.{words_per_row, bitmap_words, bit_of, word_of, bit_at, with_bit, total, padding_set, row_of};
ghost use Rattle.definitions.specs.Refusals.{answer, after, pixel_checks, total_checks, row_checks};
ghost use Rattle.mtb_align.specs.Answers.{answered};
ghost use Rattle.mtb_align.specs.Packing.{table_of, bits_from, two_of};

use super::error::{Error, side_over};
use super::ones::ones_in;
use super::sides::Sides;

// Bits per word.
pub(crate) const WORD_BITS: usize = 64;

// How many words each row occupies, padding included.
pub(crate) fn words_per_row(width: usize) -> usize
    ensures { result ≡ words_per_row width }
{
    width.div_ceil(WORD_BITS)
}

// Some padding bit is set: the last words of the rows, laid over each other, have a bit past the pixels.
pub(crate) fn padding_set(words: &[u64], sides: Sides) -> bool
    requires { length words.now ≡ bitmap_words sides.width sides.height }
    ensures { result ≡ ltb 0 (padding_set words.now sides.width sides.height) }
{
    let Sides { width, height, .. } = sides;
    let spare = width % WORD_BITS;
    if spare == 0 {
        return false;
    }
    let n = words_per_row(width);
    let mut any: u64 = 0;
    for y in 0..height {
        any |= words[y * n + width / WORD_BITS];
    }
    any >> spare > 0
}

// Whether a bitmap is in order and has a pixel in column x and row y, by its length and sides.
fn pixel_fits(words: usize, width: usize, height: usize, x: usize, y: usize) -> Result<(), Error>
    ensures { answered (λ done. done) result ≡ answer (pixel_checks width height words x y) tt }
{
    if side_over(width, height) {
        return Err(Error::Side);
    }
    let n = words_per_row(width);
    if words != height * n {
        return Err(Error::Length);
    }
    if x >= width {
        return Err(Error::Outside);
    }
    if y >= height {
        return Err(Error::Outside);
    }
    Ok(())
}

/// Whether the pixel in column x and row y is set. Refused: `Side`, `Length`, `Outside`.
pub fn get(words: &[u64], width: usize, height: usize, x: usize, y: usize) -> Result<bool, Error>
    ensures { answered (λ pixel. pixel) result ≡ answer (pixel_checks width height (length words.now) x y) (eqb (bit_at words.now width x y) 1) }
{
    pixel_fits(words.len(), width, height, x, y)?;
    let n = words_per_row(width);
    Ok((words[y * n + x / WORD_BITS] >> (x % WORD_BITS)) & 1 == 1)
}

// A word with bit i set to the value.
fn with_bit(word: u64, i: usize, value: bool) -> u64
    requires { i < 64 }
    ensures { result ≡ word_of 64 (λ (k : ℕ). cond (eqb k i) (bit value) (bit_of word k)) }
{
    let mask = 1u64 << i;
    let set = word | mask;
    if value {
        return set;
    }
    set ^ mask
}

/// Sets the pixel in column x and row y, or clears it. Refused: `Side`, `Length`, `Outside`.
pub fn set(
    words: &mut [u64],
    width: usize,
    height: usize,
    x: usize,
    y: usize,
    value: bool,
) -> Result<(), Error>
    ensures answer { answered (λ done. done) result ≡ answer (pixel_checks width height (length words.old) x y) tt }
    ensures words { words.new ≡ after (pixel_checks width height (length words.old) x y) (with_bit words.old width x y (bit value)) words.old }
{
    pixel_fits(words.len(), width, height, x, y)?;
    let n = words_per_row(width);
    let at = y * n + x / WORD_BITS;
    words[at] = with_bit(words[at], x % WORD_BITS, value);
    Ok(())
}

/// Ward's BitmapTotal. Padding is clear, so whole words can count. Refused: `Side`, `Length`, `Padding`.
pub fn count_ones(words: &[u64], width: usize, height: usize) -> Result<u64, Error>
    ensures { answered (λ total. total) result ≡ answer (total_checks width height words.now) (total words.now width height) }
{
    if side_over(width, height) {
        return Err(Error::Side);
    }
    if words.len() != height * words_per_row(width) {
        return Err(Error::Length);
    }
    let sides = Sides { width, height };
    if padding_set(words, sides) {
        return Err(Error::Padding);
    }
    Ok(ones_in(words))
}

/// The words of row y as a part of the caller's; the empty part where a side or the length is wrong or there is no such row.
pub fn row<'a>(words: &'a [u64], width: usize, height: usize, y: usize) -> &'a [u64]
    ensures { result.now ≡ after (row_checks width height (length words.now) y) (row_of words.now width y) [] }
{
    if side_over(width, height) {
        return &words[0..0];
    }
    let n = words_per_row(width);
    if words.len() != height * n {
        return &words[0..0];
    }
    if y >= height {
        return &words[0..0];
    }
    let start = y * n;
    let end = start + n;
    &words[start..end]
}

// One word of each bitmap. Both are packed in one pass: a table by value gives a sample's two bits, and 32 samples make one number
// with both halves.
#[derive(Clone, Copy)]
pub(crate) struct Words {
    pub threshold: u64,
    pub exclusion: u64,
}

// The two bits of every sample value at a cut and a tolerance. The entries are lent: 2 KB by value were copied at each call.
#[derive(Clone, Copy)]
pub(crate) struct Table<'a> {
    pub entries: &'a [u64; 256],
    pub cut: u16,
    pub tolerance: u8,
    ghost filled: { entries.now ≡ table_of cut tolerance },
}

// The two bits of every sample value, run by run: far below the cut, near it and not above, near it and above, far above.
pub(crate) fn fill_table(table: &mut [u64; 256], cut: u16, tolerance: u8)
    requires { length table.old ≡ 256 }
    ensures { table.new ≡ table_of cut tolerance }
{
    let middle = cut as usize;
    let spread = tolerance as usize;
    let near = middle.saturating_sub(spread).min(256);
    let above = (middle + 1).min(256);
    let far = (middle + 1 + spread).min(256);
    table[..near].fill(4294967296);
    table[near..above].fill(0);
    table[above..far].fill(1);
    table[far..].fill(4294967297);
}

// The two bits of up to 32 samples, from the last one on: what is there is moved up by one bit, and no sample has a shift of its own.
fn pack_half(samples: &[u8], from: usize, span: usize, table: Table<'_>) -> u64
    requires { (span ≤ 32) × (from + span ≤ length samples.now) }
    ensures { result ≡ two_of samples.now table.entry.cut table.entry.tolerance from span }
{
    let mut sum: u64 = 0;
    for i in (0..span).rev() {
        sum = sum * 2 + table.entries[samples[from + i] as usize];
    }
    sum
}

// Two halves, of 32 samples and of up to 32 more, as two words.
fn join_halves(a: u64, b: u64) -> Words
    ensures { (result.threshold ≡ a % 4294967296 + b % 4294967296 * 4294967296) × (result.exclusion ≡ a / 4294967296 + b / 4294967296 * 4294967296) }
{
    Words {
        threshold: a % 4294967296 + b % 4294967296 * 4294967296,
        exclusion: a / 4294967296 + b / 4294967296 * 4294967296,
    }
}

// The words of 64 samples. Two forms: a whole word has two halves of 32, a last one one or two of fewer. `from` beside `samples`: places of
// one row after another in one lent frame.
pub(crate) fn pack_word(samples: &[u8], from: usize, table: Table<'_>) -> Words
    requires { (from + 64 ≤ length samples.now) }
    ensures { (result.threshold ≡ word_of 64 (bits_from samples.now (threshold_bit table.entry.cut) from))
        × (result.exclusion ≡ word_of 64 (bits_from samples.now (exclusion_bit table.entry.cut table.entry.tolerance) from)) }
{
    let a = pack_half(samples, from, 32, table);
    let b = pack_half(samples, from + 32, 32, table);
    join_halves(a, b)
}

// The words of fewer than 64 samples, which are the last of a row.
pub(crate) fn pack_last(samples: &[u8], from: usize, span: usize, table: Table<'_>) -> Words
    requires { (span < 64) × (from + span ≤ length samples.now) }
    ensures { (result.threshold ≡ word_of span (bits_from samples.now (threshold_bit table.entry.cut) from))
        × (result.exclusion ≡ word_of span (bits_from samples.now (exclusion_bit table.entry.cut table.entry.tolerance) from)) }
{
    if span < 32 {
        return join_halves(pack_half(samples, from, span, table), 0);
    }
    let a = pack_half(samples, from, 32, table);
    let b = pack_half(samples, from + 32, span - 32, table);
    join_halves(a, b)
}
