// The two counts of packed pairs.
ghost use Rattle.std.specs.Prelude.{◌≡◌, List};
ghost use Rattle.definitions.specs.Align.{shift};
ghost use Rattle.definitions.specs.Difference.{Bitmaps, bitmaps_in, counts};
ghost use Rattle.definitions.specs.Refusals.{Check, answer, after, counting_checks};
ghost use Rattle.mtb_c.specs.Status.{status_of, values_after};

use super::refusals::put_values;
use mtb_align::geometry::Shift;

/// Both counts. Refusal 4 gives both sizes.
#[unsafe(no_mangle)]
pub extern "C" fn mtb_disagreement(
    reference_threshold: &[u64],
    reference_exclusion: &[u64],
    width: usize,
    height: usize,
    target_threshold: &[u64],
    target_exclusion: &[u64],
    target_width: usize,
    target_height: usize,
    x: i32,
    y: i32,
    disagreeing: &mut u64,
    compared: &mut u64,
    values: &mut [usize; 5],
) -> u32
    ensures { (let reference : Bitmaps = bitmaps_in width reference_threshold.now reference_exclusion.now in
        let target : Bitmaps = bitmaps_in width target_threshold.now target_exclusion.now in
        let checks : List Check = counting_checks width height target_width target_height
        reference_threshold.now reference_exclusion.now target_threshold.now target_exclusion.now in
        (result ≡ status_of (answer checks (tt {0})))
        × (disagreeing.new ≡ after checks (counts width height reference target (shift x y)).disagreeing disagreeing.old)
        × (compared.new ≡ after checks (counts width height reference target (shift x y)).compared compared.old)
        × (values.new ≡ values_after (answer checks (tt {0})) values.old)) }
{
    match mtb_align::difference::disagreement(
        reference_threshold,
        reference_exclusion,
        width,
        height,
        target_threshold,
        target_exclusion,
        target_width,
        target_height,
        Shift { x, y },
    ) {
        Ok(c) => {
            *disagreeing = c.disagreeing;
            *compared = c.compared;
            0
        }
        Err(e) => {
            put_values(e, values);
            e.number()
        }
    }
}
