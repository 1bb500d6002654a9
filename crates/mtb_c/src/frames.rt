// Single frames.
ghost use Rattle.std.specs.Prelude.{◌≡◌, cond, ◌*◌, eqb, length, take, drop};
ghost use Rattle.definitions.specs.Gray.{from_rgb};
ghost use Rattle.definitions.specs.Shrink.{average, subsample, shrink2};
ghost use Rattle.definitions.specs.Sum.{bit};
ghost use Rattle.definitions.specs.Threshold.{cut as cut_of};
ghost use Rattle.definitions.specs.Bitmap.{words_per_row, packed, bit_at, with_bit, total as total_of};
ghost use Rattle.definitions.specs.Difference.{bitmaps_of};
ghost use Rattle.definitions.specs.Refusals.{answer, after, from_rgb_checks, shrink_checks, cut_checks, packing_checks, pixel_checks, total_checks, row_checks};
ghost use Rattle.mtb_align.specs.Answers.{answered, mode_of};
ghost use Rattle.mtb_c.specs.Status.{status_of, row_part};

use mtb_align::error::Error;
use mtb_align::shrink::Shrink;

pub(crate) fn status(o: Result<(), Error>) -> u32
    ensures { result ≡ status_of (answered (λ done. done) o) }
{
    match o {
        Ok(()) => 0,
        Err(e) => e.number(),
    }
}

// How a frame is halved. C says it by a bool (mtb.h).
pub(crate) fn mode(subsampled: bool) -> Shrink
    ensures { mode_of result ≡ cond subsampled subsample average }
{
    if subsampled {
        return Shrink::Subsample;
    }
    Shrink::Average
}

#[unsafe(no_mangle)]
pub extern "C" fn mtb_from_rgb(rgb: &[u8], width: usize, height: usize, gray: &mut [u8]) -> u32
    ensures status { result ≡ status_of (answer (from_rgb_checks width height (length rgb.now) (length gray.old)) (tt {0})) }
    ensures gray { gray.new ≡ after (from_rgb_checks width height (length rgb.now) (length gray.old))
        (from_rgb width height rgb.now) gray.old }
{
    status(mtb_align::gray::from_rgb(rgb, width, height, gray))
}

#[unsafe(no_mangle)]
pub extern "C" fn mtb_shrink2(
    samples: &[u8],
    width: usize,
    height: usize,
    subsampled: bool,
    shrunk: &mut [u8],
) -> u32
    ensures status { result ≡ status_of (answer (shrink_checks width height (length samples.now) (length shrunk.old)) (tt {0})) }
    ensures shrunk { shrunk.new ≡ after (shrink_checks width height (length samples.now) (length shrunk.old))
        (shrink2 (cond subsampled subsample average) width height samples.now) shrunk.old }
{
    status(mtb_align::shrink::shrink2(samples, width, height, mode(subsampled), shrunk))
}

#[unsafe(no_mangle)]
pub extern "C" fn mtb_threshold(
    samples: &[u8],
    width: usize,
    height: usize,
    percentile: u8,
    cut: &mut u16,
) -> u32
    ensures status { result ≡ status_of (answer (cut_checks width height (length samples.now) percentile) (tt {0})) }
    ensures cut { cut.new ≡ after (cut_checks width height (length samples.now) percentile) (cut_of samples.now percentile) cut.old }
{
    match mtb_align::threshold::threshold(samples, width, height, percentile) {
        Ok(c) => {
            *cut = c;
            0
        }
        Err(e) => e.number(),
    }
}

#[unsafe(no_mangle)]
pub extern "C" fn mtb_compute_bitmaps(
    samples: &[u8],
    width: usize,
    height: usize,
    percentile: u8,
    tolerance: u8,
    threshold: &mut [u64],
    exclusion: &mut [u64],
) -> u32
    ensures status { result ≡ status_of (answer
        (packing_checks width height (length samples.now) (length threshold.old) (length exclusion.old) percentile) (tt {0})) }
    ensures threshold { threshold.new ≡ after
        (packing_checks width height (length samples.now) (length threshold.old) (length exclusion.old) percentile)
        (packed width height (bitmaps_of width samples.now (cut_of samples.now percentile) tolerance).threshold)
        threshold.old }
    ensures exclusion { exclusion.new ≡ after
        (packing_checks width height (length samples.now) (length threshold.old) (length exclusion.old) percentile)
        (packed width height (bitmaps_of width samples.now (cut_of samples.now percentile) tolerance).exclusion)
        exclusion.old }
{
    status(mtb_align::threshold::compute_bitmaps(
        samples, width, height, percentile, tolerance, threshold, exclusion,
    ))
}

#[unsafe(no_mangle)]
pub extern "C" fn mtb_get(
    words: &[u64],
    width: usize,
    height: usize,
    x: usize,
    y: usize,
    pixel: &mut bool,
) -> u32
    ensures status { result ≡ status_of (answer (pixel_checks width height (length words.now) x y) (tt {0})) }
    ensures pixel { pixel.new ≡ after (pixel_checks width height (length words.now) x y) (eqb (bit_at words.now width x y) 1) pixel.old }
{
    match mtb_align::bitmap::get(words, width, height, x, y) {
        Ok(b) => {
            *pixel = b;
            0
        }
        Err(e) => e.number(),
    }
}

#[unsafe(no_mangle)]
pub extern "C" fn mtb_set(
    words: &mut [u64],
    width: usize,
    height: usize,
    x: usize,
    y: usize,
    value: bool,
) -> u32
    ensures status { result ≡ status_of (answer (pixel_checks width height (length words.old) x y) (tt {0})) }
    ensures words { words.new ≡ after (pixel_checks width height (length words.old) x y) (with_bit words.old width x y (bit value)) words.old }
{
    status(mtb_align::bitmap::set(words, width, height, x, y, value))
}

#[unsafe(no_mangle)]
pub extern "C" fn mtb_count_ones(words: &[u64], width: usize, height: usize, total: &mut u64) -> u32
    ensures status { result ≡ status_of (answer (total_checks width height words.now) (tt {0})) }
    ensures total { total.new ≡ after (total_checks width height words.now) (total_of words.now width height) total.old }
{
    match mtb_align::bitmap::count_ones(words, width, height) {
        Ok(n) => {
            *total = n;
            0
        }
        Err(e) => e.number(),
    }
}

/// Row y as a part of the words: how many it has, and into `start` where it stands; both 0 where 1, 2 or 11 holds.
#[unsafe(no_mangle)]
pub extern "C" fn mtb_row(
    words: &[u64],
    width: usize,
    height: usize,
    y: usize,
    start: &mut usize,
) -> usize
    ensures count { result ≡ after (row_checks width height (length words.now) y) (words_per_row width) 0 }
    ensures start { start.new ≡ after (row_checks width height (length words.now) y) (y * words_per_row width) 0 }
    ensures part { row_part words.now width height y ≡ take result (drop start.new words.now) }
{
    let n = mtb_align::bitmap::row(words, width, height, y).len();
    *start = y * n;
    n
}
