// Loops over rows: both bitmaps of a frame are packed in one pass.
ghost use Rattle.std.specs.Prelude.{◌≡◌, ◌+◌, ◌*◌, ◌≤◌, length};
ghost use Rattle.std.proofs.lemmas.List.Edits.{sets};
ghost use Rattle.definitions.specs.Threshold.{threshold_bit, exclusion_bit};
ghost use Rattle.definitions.specs.Bitmap.{words_per_row, bitmap_words, packed};
ghost use Rattle.definitions.specs.Difference.{bitmaps_of};
ghost use Rattle.mtb_align.specs.Packing.{bits_from, words_of_row};

use super::bitmap::{Table, WORD_BITS, fill_table, pack_last, pack_word, words_per_row};
use super::frame::Gray;

// A row's words of both bitmaps, from the samples at `from` on, stored at `at`.
fn pack_row(
    samples: &[u8],
    from: usize,
    width: usize,
    table: Table<'_>,
    threshold: &mut [u64],
    exclusion: &mut [u64],
    at: usize,
)
    requires { (width ≤ 8192)
        × (from + width ≤ length samples.now)
        × (at + words_per_row width ≤ length threshold.old)
        × (at + words_per_row width ≤ length exclusion.old) }
    ensures { (threshold.new ≡ sets threshold.old at (words_of_row width (bits_from samples.now (threshold_bit table.entry.cut) from)))
        × (exclusion.new ≡ sets exclusion.old at (words_of_row width (bits_from samples.now (exclusion_bit table.entry.cut table.entry.tolerance) from))) }
{
    let n = width / WORD_BITS;
    let span = width % WORD_BITS;
    for k in 0..n {
        let b = pack_word(samples, from + k * WORD_BITS, table);
        threshold[at + k] = b.threshold;
        exclusion[at + k] = b.exclusion;
    }
    if span == 0 {
        return;
    }
    let b = pack_last(samples, from + n * WORD_BITS, span, table);
    threshold[at + n] = b.threshold;
    exclusion[at + n] = b.exclusion;
}

// Both bitmaps of a frame at a cut and a tolerance.
pub(crate) fn pack(
    frame: &Gray<'_>,
    cut: u16,
    tolerance: u8,
    threshold: &mut [u64],
    exclusion: &mut [u64],
)
    requires { let f = frame.now in
        (length threshold.old ≡ bitmap_words f.width f.height) × (length exclusion.old ≡ bitmap_words f.width f.height) }
    ensures { let f = frame.now in
        (threshold.new ≡ packed f.width f.height (bitmaps_of f.width f.samples.now cut tolerance).threshold)
        × (exclusion.new ≡ packed f.width f.height (bitmaps_of f.width f.samples.now cut tolerance).exclusion) }
{
    let mut entries = [0u64; 256];
    fill_table(&mut entries, cut, tolerance);
    let table = Table {
        entries: &entries,
        cut,
        tolerance,
    };
    let samples = frame.samples;
    let width = frame.width;
    let n = words_per_row(width);
    for y in 0..frame.height {
        pack_row(
            samples,
            y * width,
            width,
            table,
            threshold,
            exclusion,
            y * n,
        );
    }
}
