// Both counts of two packed pairs at a shift. rt and re are the reference's threshold and exclusion bitmap, st and se the target's,
// which is the source of what is shown on the reference.
ghost use Rattle.std.specs.Prelude.{◌≡◌, ltb};
ghost use Rattle.definitions.specs.Bitmap.{bitmap_words};
ghost use Rattle.definitions.specs.Difference.{bitmaps_in, counts};
ghost use Rattle.definitions.specs.Refusals.{answer, counting_checks};
ghost use Rattle.laws.specs.bitmaps.Bitmaps.{IsBitmap};
ghost use Rattle.laws.specs.checks.ChecksDifference.{Long, padding_of};
ghost use Rattle.mtb_align.specs.Answers.{answered, shift_in, counts_in};

use super::bitmap::{WORD_BITS, words_per_row};
use super::error::{Error, Size, side_over};
use super::geometry::{Shift, first_covered, source};
use super::rectangles::moved;
use super::sides::Sides;

/// How many pixels disagree, and how many were compared.
#[derive(Clone, Copy, Debug, PartialEq, Eq)]
pub struct Counts {
    pub disagreeing: u64,
    pub compared: u64,
}

// Both counts of bitmaps whose lengths and padding are in order. The rows and columns that have a source follow each other: where the
// first has none, no other has.
pub(crate) fn count(
    rt: &[u64],
    re: &[u64],
    st: &[u64],
    se: &[u64],
    sides: Sides,
    shift: Shift,
) -> Counts
    requires { let w = sides.width in
        let h = sides.height in
        IsBitmap rt.now w h × IsBitmap re.now w h × IsBitmap st.now w h × IsBitmap se.now w h }
    ensures { let w = sides.width in
        counts_in result ≡ counts w sides.height (bitmaps_in w rt.now re.now) (bitmaps_in w st.now se.now) (shift_in shift) }
{
    let Sides { width, height, .. } = sides;
    let column = first_covered(shift.x, width);
    let Some(source_column) = source(column, shift.x, width) else {
        return Counts {
            disagreeing: 0,
            compared: 0,
        };
    };
    let y = first_covered(shift.y, height);
    let Some(source_y) = source(y, shift.y, height) else {
        return Counts {
            disagreeing: 0,
            compared: 0,
        };
    };
    let n = words_per_row(width);
    let m = (column + 63) / WORD_BITS;
    let rest = m * WORD_BITS - column + source_column;
    let rows = (height - y).min(height - source_y);
    moved(
        rt,
        re,
        st,
        se,
        n,
        rows,
        y * n,
        source_y * n,
        m,
        rest / WORD_BITS,
        rest % WORD_BITS,
    )
}

// Some padding bit of the four is set. The last words of a bitmap's rows are taken together, each bitmap by itself, so that no OR
// waits for another. All four at once, beside `padding_set`: on small frames this check was half of the time. `at += n`: `y * n` in its
// place proved, and cost 6 to 9 % of a count on 100 by 80. n by its sum: LLVM knows the quotient of `words_per_row` here for one more
// than `width / WORD_BITS`, and keeps eight addresses in place of four: small counts then took 1.1 to 1.5 times as long.
fn padded(rt: &[u64], re: &[u64], st: &[u64], se: &[u64], sides: Sides) -> bool
    requires { Long rt.now re.now st.now se.now (bitmap_words sides.width sides.height) }
    ensures { result ≡ ltb 0 (padding_of rt.now re.now st.now se.now sides.width sides.height) }
{
    let Sides { width, height, .. } = sides;
    let spare = width % WORD_BITS;
    if spare == 0 {
        return false;
    }
    let n = (width + 63) / WORD_BITS;
    let mut in_rt: u64 = 0;
    let mut in_re: u64 = 0;
    let mut in_st: u64 = 0;
    let mut in_se: u64 = 0;
    let mut at = width / WORD_BITS;
    for _ in 0..height {
        in_rt = in_rt | rt[at];
        in_re = in_re | re[at];
        in_st = in_st | st[at];
        in_se = in_se | se[at];
        at += n;
    }
    (in_rt | in_re | in_st | in_se) >> spare > 0
}

/// Both counts of two packed pairs at a shift of the target. The reference's pair is width by height, the target's target_width by
/// target_height. Refused: `Side` for either size, `SizeMismatch`, `Length`, `Padding`.
pub fn disagreement(
    reference_threshold: &[u64],
    reference_exclusion: &[u64],
    width: usize,
    height: usize,
    target_threshold: &[u64],
    target_exclusion: &[u64],
    target_width: usize,
    target_height: usize,
    shift: Shift,
) -> Result<Counts, Error>
    ensures { answered counts_in result
        ≡ answer
        (counting_checks width height target_width target_height reference_threshold.now reference_exclusion.now
        target_threshold.now target_exclusion.now)
        (counts width height (bitmaps_in width reference_threshold.now reference_exclusion.now)
        (bitmaps_in width target_threshold.now target_exclusion.now) (shift_in shift)) }
{
    if side_over(width, height) {
        return Err(Error::Side);
    }
    if side_over(target_width, target_height) {
        return Err(Error::Side);
    }
    let size = Size { width, height };
    let target_size = Size {
        width: target_width,
        height: target_height,
    };
    if width != target_width {
        return Err(Error::SizeMismatch(size, target_size));
    }
    if height != target_height {
        return Err(Error::SizeMismatch(size, target_size));
    }
    let words = height * words_per_row(width);
    if reference_threshold.len() != words {
        return Err(Error::Length);
    }
    if reference_exclusion.len() != words {
        return Err(Error::Length);
    }
    if target_threshold.len() != words {
        return Err(Error::Length);
    }
    if target_exclusion.len() != words {
        return Err(Error::Length);
    }
    let sides = Sides { width, height };
    if padded(
        reference_threshold,
        reference_exclusion,
        target_threshold,
        target_exclusion,
        sides,
    ) {
        return Err(Error::Padding);
    }
    Ok(count(
        reference_threshold,
        reference_exclusion,
        target_threshold,
        target_exclusion,
        sides,
        shift,
    ))
}
