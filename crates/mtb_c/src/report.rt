// The report of a stack.
ghost use Rattle.std.specs.Prelude.{◌≡◌, length};
ghost use Rattle.definitions.specs.Refusals.{answer, after};
ghost use Rattle.mtb_align.specs.Survey.{Reported};
ghost use Rattle.mtb_align.specs.Asked.{ReportAsked, stack_asked, all_checks, reported_of, ReportPromise};
ghost use Rattle.mtb_c.specs.Status.{status_of, values_after, options_of, terms_of};

use super::frames::mode;
use super::refusals::put_values;
use mtb_align::align::Options;
use mtb_align::report::Terms;

/// The crop's left, top, width and height, and the number of records, from an accepted report alone: how many records 10 asks for is
/// the first of the values.
#[unsafe(no_mangle)]
pub extern "C" fn mtb_report(
    widths: &[usize],
    heights: &[usize],
    percentiles: &[u8],
    samples: &[u8],
    reference: usize,
    bits: u32,
    tolerance: u8,
    subsampled: bool,
    reach: u32,
    floor: u32,
    margin: u32,
    shifts: &mut [i32],
    verdicts: &mut [u8],
    records: &mut [u8],
    bytes: &mut [u8],
    words: &mut [u64],
    left: &mut usize,
    top: &mut usize,
    wide: &mut usize,
    high: &mut usize,
    count: &mut usize,
    values: &mut [usize; 5],
) -> u32
    ensures { (let a : ReportAsked = record {
      stack = record {
        widths = widths.now;
        heights = heights.now;
        percentiles = percentiles.now;
        samples = samples.now;
        reference = reference;
        options = options_of bits tolerance subsampled;
        shifts = length shifts.old;
        bytes = length bytes.old;
        words = length words.old;
      };
      terms = terms_of reach floor margin;
      verdicts = length verdicts.old;
      records = length records.old;
    } in
        let s : Reported = reported_of (stack_asked a.stack) a.terms in
        ReportPromise status_of a result
        (record {
          lists = record { shifts = shifts.old; verdicts = verdicts.old; records = records.old };
          bytes = bytes.old;
          words = words.old;
        })
        (record {
          lists = record { shifts = shifts.new; verdicts = verdicts.new; records = records.new };
          bytes = bytes.new;
          words = words.new;
        })
        × (left.new ≡ after (all_checks a) s.crop.x left.old)
        × (top.new ≡ after (all_checks a) s.crop.y top.old)
        × (wide.new ≡ after (all_checks a) s.crop.width wide.old)
        × (high.new ≡ after (all_checks a) s.crop.height high.old)
        × (count.new ≡ after (all_checks a) s.records count.old)
        × (values.new ≡ values_after (answer (all_checks a) (tt {0})) values.old)) }
{
    let options = Options {
        bits,
        tolerance,
        shrink: mode(subsampled),
    };
    let terms = Terms {
        reach,
        floor,
        margin,
    };
    match mtb_align::report::report(
        widths,
        heights,
        percentiles,
        samples,
        reference,
        options,
        terms,
        shifts,
        verdicts,
        records,
        bytes,
        words,
    ) {
        Ok(s) => {
            *left = s.crop.x;
            *top = s.crop.y;
            *wide = s.crop.width;
            *high = s.crop.height;
            *count = s.records;
            0
        }
        Err(e) => {
            put_values(e, values);
            e.number()
        }
    }
}
