// Two packed pairs of bitmaps that are compared.
ghost use Rattle.std.specs.Prelude.{◌≡◌, ◌*◌, ◌≤◌, length};
ghost use Rattle.definitions.specs.Bitmap.{bitmap_words};
ghost use Rattle.laws.specs.bitmaps.Bitmaps.{IsBitmap};
ghost use Rattle.mtb_align.specs.Layout.{map_at};

use super::bitmap::words_per_row;
use super::difference::{Counts, count};
use super::geometry::Shift;
use super::sides::Sides;

// Two pairs of one size within the limits, in one slice of words and nothing else: the reference's threshold and exclusion bitmap,
// then the target's.
#[derive(Clone, Copy)]
pub(crate) struct Packed<'a> {
    pub(crate) words: &'a [u64],
    pub(crate) width: usize,
    pub(crate) height: usize,
    pub(crate) ghost wide: { width ≤ 8192 },
    pub(crate) ghost high: { height ≤ 8192 },
    pub(crate) ghost long: { length words.now ≡ 4 * bitmap_words width height },
    pub(crate) ghost reference_threshold: { IsBitmap (map_at words.now width height 0) width height },
    pub(crate) ghost reference_exclusion: { IsBitmap (map_at words.now width height 1) width height },
    pub(crate) ghost target_threshold: { IsBitmap (map_at words.now width height 2) width height },
    pub(crate) ghost target_exclusion: { IsBitmap (map_at words.now width height 3) width height },
}

impl Packed<'_> {
    ghost use Rattle.mtb_align.specs.Answers.{shift_in, counts_in};
    ghost use Rattle.mtb_align.specs.Packed.{counts_of};

    // Both counts at a shift.
    pub(crate) fn counts_at(&self, shift: Shift) -> Counts
        ensures { counts_in result ≡ counts_of self.now (shift_in shift) }
    {
        let words = self.words;
        let n = self.height * words_per_row(self.width);
        let second = 2 * n;
        let third = 3 * n;
        let end = 4 * n;
        let sides = Sides {
            width: self.width,
            height: self.height,
        };
        count(
            &words[0..n],
            &words[n..second],
            &words[second..third],
            &words[third..end],
            sides,
            shift,
        )
    }
}
