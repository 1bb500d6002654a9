// The report, which the original has not: every rival of each frame's step, a verdict on each frame, and the crop.
// What is lent to be written keeps its room as a requires, since a struct of `&mut` owes a clause on its loan in each contract.
ghost use Rattle.std.specs.Prelude.{◌≡◌, [], ◌*◌, ◌≤◌, length, take};
ghost use Rattle.std.proofs.lemmas.List.Edits.{sets};
ghost use Rattle.definitions.specs.Geometry.{listed};
ghost use Rattle.definitions.specs.Align.{shifts as stack_shifts, stack_bytes, stack_words};
ghost use Rattle.definitions.specs.Refusals.{FreeUpTo, report_checks};
ghost use Rattle.definitions.specs.Report.{records_bytes, records_needed};
ghost use Rattle.definitions.specs.Report as reports;
ghost use Rattle.laws.specs.report.Kept.{kept_in};
ghost use Rattle.mtb_align.specs.Search.{options_in};
ghost use Rattle.mtb_align.specs.Stack.{stack_in};
ghost use Rattle.mtb_align.specs.Survey.{terms_in, reported_in, Found};
ghost use Rattle.mtb_align.specs.Answers.{answered};
ghost use Rattle.mtb_align.specs.Asked.{itself, Written, ReportPromise};

use super::align::Options;
use super::checks::report_fits;
use super::error::Error;
use super::geometry::{Rect, crop_of};
use super::placed::Walked;
use super::rivals::survey_frames;
use super::stack::{Asked, Stack};
use super::survey::RECORD_BYTES;
use super::walk::walk;

/// What counts as a rival of a step.
#[derive(Clone, Copy, Debug, PartialEq, Eq)]
pub struct Terms {
    /// How far from the step it may lie along each axis, in pixels: at most 64.
    pub reach: u32,
    /// How many pixels it compares at least.
    pub floor: u32,
    /// In how many pixels more than the step it may disagree.
    pub margin: u32,
}

/// What a report says of the whole stack.
#[derive(Clone, Copy, Debug, PartialEq, Eq)]
pub struct Summary {
    /// The region that every moved frame covers.
    pub crop: Rect,
    /// How many records were written, of 20 bytes each.
    pub records: usize,
}

// The verdicts and the records, as they were kept or, where there were too many records to keep, by a second survey.
fn put_found(
    walked: &Walked<'_>,
    judged: &[u8],
    kept: &[u8],
    needed: usize,
    verdicts: &mut [u8],
    records: &mut [u8],
    words: &mut [u64],
)
    requires room { stack_words (stack_in walked.now.asked.stack) ≤ length words.old }
    requires found { Found (stack_in walked.now.asked.stack) (terms_in walked.now.asked.terms) judged.now kept.now needed }
    requires verdicts_len { (length verdicts.old ≡ length walked.now.asked.stack.percentiles.now) × (20 * needed ≤ length records.old) }
    ensures verdicts_after { verdicts.new ≡ reports.verdicts (stack_in walked.now.asked.stack) (terms_in walked.now.asked.terms) }
    ensures records_after { records.new ≡ sets records.old 0 (records_bytes (reports.records (stack_in walked.now.asked.stack) (terms_in walked.now.asked.terms))) }
    ensures free_up_to { FreeUpTo (stack_words (stack_in walked.now.asked.stack)) words.old words.new }
{
    let bytes = RECORD_BYTES * needed;
    if bytes <= kept.len() {
        let n = verdicts.len();
        verdicts.copy_from_slice(&judged[..n]);
        records[..bytes].copy_from_slice(&kept[..bytes]);
        return;
    }
    survey_frames(walked, verdicts, records, words);
}

// The shifts, the verdicts and the records go to the caller if the records fit, and nothing does if not.
fn write_report(
    walked: &Walked<'_>,
    judged: &[u8],
    kept: &[u8],
    needed: usize,
    shifts: &mut [i32],
    verdicts: &mut [u8],
    records: &mut [u8],
    words: &mut [u64],
) -> Result<Summary, Error>
    requires room { stack_words (stack_in walked.now.asked.stack) ≤ length words.old }
    requires found { Found (stack_in walked.now.asked.stack) (terms_in walked.now.asked.terms) judged.now kept.now needed }
    requires shifts_len { (length shifts.old ≡ 2 * length walked.now.asked.stack.percentiles.now) × (length verdicts.old ≡ length walked.now.asked.stack.percentiles.now) }
    ensures written { Written itself (report_checks [] (records_needed (stack_in walked.now.asked.stack) (terms_in walked.now.asked.terms)) (length records.old))
        (stack_in walked.now.asked.stack) (terms_in walked.now.asked.terms) (answered reported_in result)
        (record { shifts = shifts.old; verdicts = verdicts.old; records = records.old })
        (record { shifts = shifts.new; verdicts = verdicts.new; records = records.new }) }
    ensures words { FreeUpTo (stack_words (stack_in walked.now.asked.stack)) words.old words.new }
{
    if records.len() < RECORD_BYTES * needed {
        return Err(Error::Records(needed));
    }
    put_found(walked, judged, kept, needed, verdicts, records, words);
    let n = shifts.len();
    shifts.copy_from_slice(&walked.shifts[..n]);
    let crop = crop_of(shifts, walked.asked.stack.width, walked.asked.stack.height);
    Ok(Summary {
        crop,
        records: needed,
    })
}

// The report of a stack that is in order: the walk, then the survey of each frame, and then all that is written. Counting comes
// before writing, so that a refusal has nothing to undo.
fn report_within(
    asked: &Asked<'_>,
    placed: &mut [i32],
    judged: &mut [u8],
    kept: &mut [u8],
    shifts: &mut [i32],
    verdicts: &mut [u8],
    records: &mut [u8],
    bytes: &mut [u8],
    words: &mut [u64],
) -> Result<Summary, Error>
    requires room { (stack_bytes (stack_in asked.now.stack) ≤ length bytes.old) × (stack_words (stack_in asked.now.stack) ≤ length words.old) }
    requires count_in_bounds { (2 * length asked.now.stack.percentiles.now ≤ length placed.old) × (length asked.now.stack.percentiles.now ≤ length judged.old) }
    requires shifts_len { (length shifts.old ≡ 2 * length asked.now.stack.percentiles.now) × (length verdicts.old ≡ length asked.now.stack.percentiles.now) }
    ensures written { Written itself (report_checks [] (records_needed (stack_in asked.now.stack) (terms_in asked.now.terms)) (length records.old))
        (stack_in asked.now.stack) (terms_in asked.now.terms) (answered reported_in result)
        (record { shifts = shifts.old; verdicts = verdicts.old; records = records.old })
        (record { shifts = shifts.new; verdicts = verdicts.new; records = records.new }) }
    ensures bytes { FreeUpTo (stack_bytes (stack_in asked.now.stack)) bytes.old bytes.new }
    ensures words { FreeUpTo (stack_words (stack_in asked.now.stack)) words.old words.new }
    ensures placed { placed.new ≡ sets placed.old 0 (listed (stack_shifts (stack_in asked.now.stack))) }
    ensures judged { judged.new ≡ sets judged.old 0 (reports.verdicts (stack_in asked.now.stack) (terms_in asked.now.terms)) }
    ensures kept { kept.new ≡ kept_in kept.old 0 (records_bytes (reports.records (stack_in asked.now.stack) (terms_in asked.now.terms))) }
{
    let stack = &asked.stack;
    walk(stack, placed, bytes, words);
    let walked = Walked {
        asked: *asked,
        shifts: placed,
    };
    let needed = survey_frames(&walked, judged, kept, words);
    write_report(
        &walked, judged, kept, needed, shifts, verdicts, records, words,
    )
}

/// Every rival of each frame's step, a verdict on each frame (0 reference, 1 weak, 2 alone, 3 contested), the stack's shifts and their
/// crop. `records` takes 20 bytes for each rival, `verdicts` a byte for each frame, and the rest is lent as to `align_stack`. Refused
/// as there, `Length` for `verdicts` after `shifts`, then `Reach` if the terms reach further than 64, `Scratch`, and last `Records`,
/// with the number of records that have to fit; all that is lent is as it was then, but after `Records` the scratch. What a caller is
/// owed by its promise, in 01's words, is `report_owed` of specs/Owed.antt.
pub fn report(
    widths: &[usize],
    heights: &[usize],
    percentiles: &[u8],
    samples: &[u8],
    reference: usize,
    options: Options,
    terms: Terms,
    shifts: &mut [i32],
    verdicts: &mut [u8],
    records: &mut [u8],
    bytes: &mut [u8],
    words: &mut [u64],
) -> Result<Summary, Error>
    ensures { ReportPromise itself
        (record {
          stack = record {
            widths = widths.now;
            heights = heights.now;
            percentiles = percentiles.now;
            samples = samples.now;
            reference = reference;
            options = options_in options;
            shifts = length shifts.old;
            bytes = length bytes.old;
            words = length words.old;
          };
          terms = terms_in terms;
          verdicts = length verdicts.old;
          records = length records.old;
        })
        (answered reported_in result)
        (record {
          lists = record { shifts = shifts.old; verdicts = verdicts.old; records = records.old };
          bytes = bytes.old;
          words = words.old;
        })
        (record {
          lists = record { shifts = shifts.new; verdicts = verdicts.new; records = records.new };
          bytes = bytes.new;
          words = words.new;
        }) }
{
    report_fits(
        widths,
        heights,
        percentiles,
        reference,
        options.bits,
        samples.len(),
        shifts.len(),
        verdicts.len(),
        terms.reach,
        bytes.len(),
        words.len(),
    )?;
    let stack = Stack {
        percentiles,
        samples,
        width: widths[0],
        height: heights[0],
        reference,
        options,
    };
    let asked = Asked { stack, terms };
    // Room for the shifts and the verdicts of 16 frames, and for the first 3,276 records: arrays, since no heap is used below the programs.
    let mut placed = [0i32; 32];
    let mut judged = [0u8; 16];
    let mut kept = [0u8; 65520];
    report_within(
        &asked,
        &mut placed[0..32],
        &mut judged[0..16],
        &mut kept[0..65520],
        shifts,
        verdicts,
        records,
        bytes,
        words,
    )
}
