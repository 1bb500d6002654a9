// The frames of a stack, in hand, and what a report asks of it.
ghost use Rattle.std.specs.Prelude.{◌≡◌, ℕ, ◌*◌, ◌≤◌, ◌<◌, length, get_or};

use super::align::Options;
use super::pair::Pair;
use super::report::Terms;

// The frames of a stack, all of one size and within 01's limits: a percentile for each (so that there are as many frames), their samples one
// after another, their sides, which is the reference, and how the search is run.
#[derive(Clone, Copy)]
pub(crate) struct Stack<'a> {
    pub(crate) percentiles: &'a [u8],
    pub(crate) samples: &'a [u8],
    pub(crate) width: usize,
    pub(crate) height: usize,
    pub(crate) reference: usize,
    pub(crate) options: Options,
    pub(crate) ghost wide: { width ≤ 8192 },
    pub(crate) ghost high: { height ≤ 8192 },
    pub(crate) ghost few: { length percentiles.now ≤ 16 },
    pub(crate) ghost inside: { reference < length percentiles.now },
    pub(crate) ghost cut: { (k : ℕ) → get_or percentiles.now k 0 ≤ 100 },
    pub(crate) ghost whole: { length percentiles.now * (width * height) ≤ length samples.now },
}

// A stack whose report is asked for, and terms that reach no further than 01's limit.
#[derive(Clone, Copy)]
pub(crate) struct Asked<'a> {
    pub(crate) stack: Stack<'a>,
    pub(crate) terms: Terms,
    pub(crate) ghost near: { terms.reach ≤ 64 },
}

impl<'a> Stack<'a> {
    ghost use Rattle.definitions.specs.Align.{exposure};
    ghost use Rattle.mtb_align.specs.Search.{reference_in, target_in};
    ghost use Rattle.mtb_align.specs.Stack.{stack_in};

    // Frame j as the reference and frame k as the target, each with its percentile.
    #[tactic(auto, using(crate::proofs::Taken::taken_is))]
    pub(crate) fn pair(&self, j: usize, k: usize) -> Pair<'a>
        requires { (j < length self.now.percentiles.now) × (k < length self.now.percentiles.now) }
        ensures reference { reference_in result ≡ exposure (stack_in self.now) j }
        ensures target { target_in result ≡ exposure (stack_in self.now) k }
        ensures shared { (result.width ≡ self.now.width) × (result.height ≡ self.now.height) × (result.options ≡ self.now.options) }
    {
        let size = self.width * self.height;
        let start = j * size;
        let end = start + size;
        let target = k * size;
        let target_end = target + size;
        Pair {
            reference: &self.samples[start..end],
            target: &self.samples[target..target_end],
            width: self.width,
            height: self.height,
            first: self.percentiles[j],
            second: self.percentiles[k],
            options: self.options,
        }
    }
}
