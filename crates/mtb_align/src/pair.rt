// Two frames that a step is sought of. Two slices and one size: two `Gray` would say the size twice, and owe that both are the same.
ghost use Rattle.std.specs.Prelude.{◌≡◌, ◌*◌, ◌≤◌, length};

use super::align::Options;
use super::frame::Gray;

// A reference and a target of one size, within 01's limits: their samples, the percentile that each is cut at, and how the search is
// run.
#[derive(Clone, Copy)]
pub(crate) struct Pair<'a> {
    pub(crate) reference: &'a [u8],
    pub(crate) target: &'a [u8],
    pub(crate) width: usize,
    pub(crate) height: usize,
    pub(crate) first: u8,
    pub(crate) second: u8,
    pub(crate) options: Options,
    pub(crate) ghost wide: { width ≤ 8192 },
    pub(crate) ghost high: { height ≤ 8192 },
    pub(crate) ghost first_in: { first ≤ 100 },
    pub(crate) ghost second_in: { second ≤ 100 },
    pub(crate) ghost reference_whole: { length reference.now ≡ width * height },
    pub(crate) ghost target_whole: { length target.now ≡ width * height },
}

impl<'a> Pair<'a> {
    // The reference by itself.
    pub(crate) fn reference_frame(&self) -> Gray<'a>
        ensures { (result.samples.now ≡ self.now.reference.now) × (result.width ≡ self.now.width) × (result.height ≡ self.now.height) }
    {
        Gray {
            samples: self.reference,
            width: self.width,
            height: self.height,
        }
    }

    // The target by itself.
    pub(crate) fn target_frame(&self) -> Gray<'a>
        ensures { (result.samples.now ≡ self.now.target.now) × (result.width ≡ self.now.width) × (result.height ≡ self.now.height) }
    {
        Gray {
            samples: self.target,
            width: self.width,
            height: self.height,
        }
    }
}
