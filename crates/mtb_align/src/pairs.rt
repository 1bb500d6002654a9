// Two frames cut and packed into one slice of words: both bitmaps of the reference, then both of the target.
ghost use Rattle.std.specs.Prelude.{◌≡◌, ◌≤◌, length};
ghost use Rattle.std.proofs.lemmas.List.Edits.{sets};
ghost use Rattle.definitions.specs.Align.{step_words};
ghost use Rattle.mtb_align.specs.Search.{reference_in, target_in, four_of};

use super::bitmap::words_per_row;
use super::pair::Pair;
use super::strips::pack;
use super::threshold::cut_of;

// Both frames cut and packed: the reference's pair of bitmaps, then the target's.
pub(crate) fn pack_both(pair: &Pair<'_>, words: &mut [u64])
    requires { step_words pair.now.width pair.now.height ≤ length words.old }
    ensures { words.new ≡ sets words.old 0
        (four_of pair.now.width pair.now.height pair.now.options.tolerance (reference_in pair.now) (target_in pair.now)) }
{
    let tolerance = pair.options.tolerance;
    let n = pair.height * words_per_row(pair.width);
    let (threshold, words) = words.split_at_mut(n);
    let (exclusion, words) = words.split_at_mut(n);
    let reference = pair.reference_frame();
    let cut = cut_of(&reference, pair.first);
    pack(&reference, cut, tolerance, threshold, exclusion);
    let (threshold, words) = words.split_at_mut(n);
    let (exclusion, _) = words.split_at_mut(n);
    let target = pair.target_frame();
    let cut = cut_of(&target, pair.second);
    pack(&target, cut, tolerance, threshold, exclusion);
}
