// The text that the program stacksteps prints for its input: the report of up to eight frames of 64 by 64 samples.
// `out` and `at` stay two parameters: see text.rt.
#![tactic(auto)]

mod records;
mod text;

ghost use Rattle.std.specs.Prelude.{◌≡◌, cond, ◌++◌, ◌+◌, ◌*◌, ◌/◌, ◌%◌, ◌≤◌, ◌<◌, min, eqb, length, take, drop, replicate};
ghost use Rattle.definitions.specs.Build.{joined};
ghost use Rattle.definitions.specs.Geometry.{listed};
ghost use Rattle.definitions.specs.Align as stacks;
ghost use Rattle.definitions.specs.Report as reports;
ghost use Rattle.mtb_align.specs.Answers.{rect_in};
ghost use Rattle.mtb_align.specs.Search.{options_in};
ghost use Rattle.mtb_align.specs.Survey.{terms_in};
ghost use Rattle.steps.specs.Text.{ascii, heading, verdict_word, frame_line, input_stack, input_options, input_terms, refusal_text, text};
ghost use Rattle.steps.specs.Inner.{Put, frame_text_in};

use mtb_align::align::Options;
use mtb_align::geometry::Rect;
use mtb_align::report::{Summary, Terms};
use records::{RECORD_BYTES, number_of, put_records};
use text::{put_byte, put_bytes, put_coordinate, put_next, put_number};

// An input has frames of this side, no more than so many.
const SIDE: usize = 64;

const FRAMES: usize = 8;

// Each is cut at this percentile.
const PERCENTILE: u8 = 50;

// Samples of a frame, and of the longest input.
const FRAME: usize = SIDE * SIDE;

const INPUT: usize = FRAMES * FRAME;

// At a reach of 1 only the step itself can be a rival, so that there is one for each frame but the reference.
const RECORD_SPACE: usize = 7 * RECORD_BYTES;

// The halved levels of two frames, and the bitmaps of both.
const SCRATCH: usize = 2 * (32 * 32 + 16 * 16 + 8 * 8 + 4 * 4 + 2 * 2);

const SCRATCH_WORDS: usize = 4 * SIDE;

// A blank, then the verdict's word. The report's list has bytes, as in C, and any byte has a word: an enum between them would only be
// tested for what it is not.
fn put_verdict(out: &mut [u8], at: usize, verdict: u8) -> usize
    requires { at ≤ length out.old }
    ensures { Put out.old at (ascii " " ++ verdict_word verdict) out.new result }
{
    match verdict {
        0 => put_bytes(out, at, b" reference"),
        1 => put_bytes(out, at, b" weak"),
        2 => put_bytes(out, at, b" alone"),
        _ => put_bytes(out, at, b" contested"),
    }
}

// A frame's line: its number, its shift, the verdict, and how many records it has.
fn put_frame_line(
    out: &mut [u8],
    at: usize,
    k: usize,
    x: i32,
    y: i32,
    verdict: u8,
    records: usize,
) -> usize
    requires { at ≤ length out.old }
    ensures { Put out.old at (frame_line k (record { x = x; y = y }) verdict records) out.new result }
{
    let mut next = put_number(out, at, k as u64);
    next = put_coordinate(out, next, x);
    next = put_coordinate(out, next, y);
    next = put_verdict(out, next, verdict);
    next = put_next(out, next, records as u64);
    put_byte(out, next, b'\n')
}

// What a report leaves in its lists.
#[derive(Clone, Copy)]
struct Lists<'a> {
    shifts: &'a [i32],
    verdicts: &'a [u8],
    records: &'a [u8],
}

// Frame k's line and those of its records.
fn put_frame(out: &mut [u8], at: usize, k: usize, lists: &Lists<'_>) -> usize
    requires { (at ≤ length out.old) × (2 * k + 2 ≤ length lists.now.shifts.now) × (k < length lists.now.verdicts.now) }
    ensures { Put out.old at (frame_text_in lists.now.shifts.now lists.now.verdicts.now lists.now.records.now (length lists.now.records.now / 20) k) out.new result }
{
    let number = number_of(lists.records, k);
    let next = put_frame_line(
        out,
        at,
        k,
        lists.shifts[2 * k],
        lists.shifts[2 * k + 1],
        lists.verdicts[k],
        number,
    );
    put_records(out, next, lists.records, k)
}

// Those of each frame.
fn put_frames(out: &mut [u8], at: usize, lists: &Lists<'_>) -> usize
    requires { (at ≤ length out.old) × (2 * length lists.now.verdicts.now ≤ length lists.now.shifts.now) }
    ensures { Put out.old at
        (joined (length lists.now.verdicts.now) (frame_text_in lists.now.shifts.now lists.now.verdicts.now lists.now.records.now (length lists.now.records.now / 20)))
        out.new result }
{
    let mut next = at;
    for k in 0..lists.verdicts.len() {
        next = put_frame(out, next, k, lists);
    }
    next
}

// The first line: how many frames, and the crop.
fn put_heading(out: &mut [u8], n: usize, crop: Rect) -> usize
    ensures { Put out.old 0 (heading n (rect_in crop)) out.new result }
{
    let mut next = put_bytes(out, 0, b"frames");
    next = put_next(out, next, n as u64);
    next = put_bytes(out, next, b" crop");
    next = put_next(out, next, crop.x as u64);
    next = put_next(out, next, crop.y as u64);
    next = put_next(out, next, crop.width as u64);
    next = put_next(out, next, crop.height as u64);
    put_byte(out, next, b'\n')
}

// An accepted report.
fn put_summary(out: &mut [u8], summary: Summary, lists: &Lists<'_>) -> usize
    requires { (20 * summary.records ≤ length lists.now.records.now) × (2 * length lists.now.verdicts.now ≤ length lists.now.shifts.now) }
    ensures { Put out.old 0
        (heading (length lists.now.verdicts.now) (rect_in summary.crop)
        ++ joined (length lists.now.verdicts.now) (frame_text_in lists.now.shifts.now lists.now.verdicts.now lists.now.records.now summary.records))
        out.new result }
{
    let at = put_heading(out, lists.verdicts.len(), summary.crop);
    let records = &lists.records[..RECORD_BYTES * summary.records];
    put_frames(out, at, &Lists { records, ..*lists })
}

// A refusal by its number: the text has the number alone (`refusal_text`), so that the error itself would only be turned into it here.
fn put_refusal(out: &mut [u8], number: u32) -> usize
    ensures { Put out.old 0 (refusal_text number) out.new result }
{
    let mut next = put_bytes(out, 0, b"refused");
    next = put_next(out, next, u64::from(number));
    put_byte(out, next, b'\n')
}

// ---- the program

fn options() -> Options
    ensures { options_in result ≡ input_options }
{
    Options::default()
}

fn terms() -> Terms
    ensures { terms_in result ≡ input_terms }
{
    Terms {
        reach: 1,
        floor: 1,
        margin: 0,
    }
}

// The text for frames of 64 by 64, up to eight. Their shifts and verdicts are left in the two lists.
fn put_answer(
    widths: &[usize],
    heights: &[usize],
    percentiles: &[u8],
    samples: &[u8],
    shifts: &mut [i32],
    verdicts: &mut [u8],
    out: &mut [u8],
) -> usize
    requires widths_len_bound { (length widths.now ≤ 8) × (widths.now ≡ replicate (length widths.now) 64) × (heights.now ≡ widths.now) }
    requires percentiles_value { percentiles.now ≡ replicate (length widths.now) 50 }
    requires samples_len { (length samples.now ≡ length widths.now * 4096) × (length shifts.old ≡ 2 * length widths.now) × (length verdicts.old ≡ length widths.now) }
    ensures text { Put out.old 0 (text samples.now) out.new result }
    ensures shifts { shifts.new ≡ cond (eqb (length widths.now) 0) shifts.old (listed (stacks.shifts (input_stack samples.now))) }
    ensures verdicts { verdicts.new ≡ cond (eqb (length widths.now) 0) verdicts.old (reports.verdicts (input_stack samples.now) input_terms) }
{
    let mut records = [0u8; RECORD_SPACE];
    let mut bytes = [0u8; SCRATCH];
    let mut words = [0u64; SCRATCH_WORDS];
    let answer = mtb_align::report::report(
        widths,
        heights,
        percentiles,
        samples,
        0,
        options(),
        terms(),
        shifts,
        verdicts,
        &mut records,
        &mut bytes,
        &mut words,
    );
    match answer {
        Ok(summary) => {
            let lists = Lists {
                shifts,
                verdicts,
                records: &records,
            };
            put_summary(out, summary, &lists)
        }
        Err(error) => put_refusal(out, error.number()),
    }
}

// The text for whole frames.
fn put_report(samples: &[u8], out: &mut [u8]) -> usize
    requires { (length samples.now ≤ 32768) × (length samples.now % 4096 ≡ 0) }
    ensures { Put out.old 0 (text samples.now) out.new result }
{
    let n = samples.len() / FRAME;
    let widths = [SIDE; FRAMES];
    let heights = [SIDE; FRAMES];
    let percentiles = [PERCENTILE; FRAMES];
    let mut shifts = [0i32; 2 * FRAMES];
    let mut verdicts = [0u8; FRAMES];
    put_answer(
        &widths[0..n],
        &heights[0..n],
        &percentiles[0..n],
        samples,
        &mut shifts[0..2 * n],
        &mut verdicts[0..n],
        out,
    )
}

/// The text for an input at the start of `out`, as far as there is room; the answer is its length there. 8,192 bytes are room enough for
/// any (`text_fits` in proofs/Room.antt).
pub fn put_text(input: &[u8], out: &mut [u8]) -> usize
    ensures length { result ≡ min (length (text input.now)) (length out.old) }
    ensures text { out.new ≡ take (length out.old) (text input.now) ++ drop (length (text input.now)) out.old }
{
    let len = input.len();
    if len > INPUT {
        return put_bytes(out, 0, b"bad input\n");
    }
    if len % FRAME != 0 {
        return put_bytes(out, 0, b"bad input\n");
    }
    put_report(input, out)
}
