// The cut of a frame, and its two bitmaps.
ghost use Rattle.std.specs.Prelude.{◌≡◌, ℕ, ◌+◌, ◌*◌, ◌/◌, ◌≤◌, ◌<◌, length, get_or, set, take, drop};
ghost use Rattle.std.proofs.lemmas.List.Edits.{sets};
ghost use Rattle.definitions.specs.Sum.{sum};
ghost use Rattle.definitions.specs.Build.{build};
ghost use Rattle.definitions.specs.Threshold.{bins, last_rows, bins_added, cut};
ghost use Rattle.definitions.specs.Bitmap.{packed};
ghost use Rattle.definitions.specs.Difference.{bitmaps_of};
ghost use Rattle.definitions.specs.Refusals.{answer, after, cut_checks, packing_checks};
ghost use Rattle.mtb_align.specs.Answers.{answered};
ghost use Rattle.mtb_align.specs.Tally.{lane_total, Tally, More, Room};

use super::bitmap::words_per_row;
use super::error::{Error, HIGHEST_PERCENTILE, side_over};
use super::frame::Gray;
use super::strips::pack;

// Distinct sample values.
const LEVELS: usize = 256;

// Values whose lanes are folded at a time.
const PART: usize = 64;

// The lanes are no type with `Room` or `Tally` as its invariant: they are lent to be written, with another number of samples at each call.

// One sample, into the lane that starts at `lane`.
fn count_one(lanes: &mut [u32; 4 * LEVELS], lane: usize, sample: u8)
    requires { (length lanes.old ≡ 1024) × (lane ≤ 768) × (get_or lanes.old (lane + sample) 0 < 67108864) }
    ensures { lanes.new ≡ set lanes.old (lane + sample) (get_or lanes.old (lane + sample) 0 + 1) }
{
    lanes[lane + sample as usize] += 1;
}

// Four samples, each into a lane of its own, so that no count waits for the one before it. How a value's count is spread over
// the lanes is left open on purpose, here and in what calls this: only the total of the four is read.
fn count_four(lanes: &mut [u32; 4 * LEVELS], samples: &[u8], at: usize)
    requires { Room lanes.old 4 × (at + 4 ≤ length samples.now) }
    ensures { More lanes.old lanes.new (take 4 (drop at samples.now)) }
{
    count_one(lanes, 0, samples[at]);
    count_one(lanes, LEVELS, samples[at + 1]);
    count_one(lanes, 2 * LEVELS, samples[at + 2]);
    count_one(lanes, 3 * LEVELS, samples[at + 3]);
}

// The first samples, at most three, each into a lane of its own too: very narrow frames have no others. Written
// out, since LLVM makes loops of their own for rows of one, two and three samples: with a loop into one lane 3 by 8,192 had 0.30 to 0.59 of
// the speed.
fn count_rest(lanes: &mut [u32; 4 * LEVELS], samples: &[u8], rest: usize)
    requires { (rest ≤ 3) × (rest ≤ length samples.now) × Room lanes.old rest }
    ensures { More lanes.old lanes.new (take rest samples.now) }
{
    if rest == 0 {
        return;
    }
    count_one(lanes, 0, samples[0]);
    if rest == 1 {
        return;
    }
    count_one(lanes, LEVELS, samples[1]);
    if rest == 2 {
        return;
    }
    count_one(lanes, 2 * LEVELS, samples[2]);
}

// All of these samples. They are gone through backwards, as the rows are, since memory is read ahead in one direction.
fn tally_samples(lanes: &mut [u32; 4 * LEVELS], samples: &[u8])
    requires { Room lanes.old (length samples.now) }
    ensures { More lanes.old lanes.new samples.now }
{
    let n = samples.len();
    // By the length and not by its rest of four: LLVM then knows that the rows of a single column lie next to each other. By the rest a column
    // took 1.6 times as long.
    if n < 4 {
        count_rest(lanes, samples, n);
        return;
    }
    let rest = n % 4;
    for k in (0..n / 4).rev() {
        count_four(lanes, samples, rest + 4 * k);
    }
    count_rest(lanes, samples, rest);
}

// Row height - 1 - k, on top of the k rows below it.
fn tally_row(lanes: &mut [u32; 4 * LEVELS], frame: &Gray<'_>, k: usize)
    requires { (k < frame.now.height) × Tally lanes.old (last_rows frame.now.width frame.now.height frame.now.samples.now k) }
    ensures { Tally lanes.new (last_rows frame.now.width frame.now.height frame.now.samples.now (k + 1)) }
{
    let start = (frame.height - 1 - k) * frame.width;
    let end = start + frame.width;
    tally_samples(lanes, &frame.samples[start..end]);
}

// All rows. The last one is tallied first, as the camera's driver fills a frame from there.
fn tally_rows(lanes: &mut [u32; 4 * LEVELS], frame: &Gray<'_>)
    requires { Tally lanes.old (last_rows frame.now.width frame.now.height frame.now.samples.now 0) }
    ensures { Tally lanes.new (last_rows frame.now.width frame.now.height frame.now.samples.now frame.now.height) }
{
    // By value: behind the reference width and samples are read again after each count, and rows of one to three samples have no loop
    // of their own; 1 and 3 by 8,192 then took 2.8 times as long.
    let frame = *frame;
    for k in 0..frame.height {
        tally_row(lanes, &frame, k);
    }
}

// What the four lanes hold together at the value v.
fn lane_total(lanes: &[u32; 4 * LEVELS], v: usize) -> u32
    requires { (v < 256) × (lane_total lanes.now v ≤ 67108864) }
    ensures { result ≡ lane_total lanes.now v }
{
    lanes[v] + lanes[LEVELS + v] + lanes[2 * LEVELS + v] + lanes[3 * LEVELS + v]
}

// The totals of the values from v on, as many as are folded at a time, in the lanes' own width: LLVM then adds four at a time, and two
// where each total is made a bin at once.
fn part_totals(lanes: &[u32; 4 * LEVELS], v: usize) -> [u32; PART]
    requires { (v + 64 ≤ 256) × Room lanes.now 0 }
    ensures { result ≡ build 64 (λ (i : ℕ). lane_total lanes.now (v + i)) }
{
    let mut totals = [0u32; PART];
    for i in 0..PART {
        totals[i] = lane_total(lanes, v + i);
    }
    totals
}

// The bins of these values.
fn fold_part(bins: &mut [u64; LEVELS], lanes: &[u32; 4 * LEVELS], v: usize)
    requires { (v + 64 ≤ 256) × Room lanes.now 0 }
    ensures { bins.new ≡ sets bins.old v (build 64 (λ (i : ℕ). lane_total lanes.now (v + i))) }
{
    let totals = part_totals(lanes, v);
    for i in 0..PART {
        bins[v + i] = totals[i] as u64;
    }
}

// The four lanes as one.
fn fold_lanes(lanes: &[u32; 4 * LEVELS]) -> [u64; LEVELS]
    requires { Room lanes.now 0 }
    ensures { result ≡ build 256 (lane_total lanes.now) }
{
    let mut bins = [0u64; LEVELS];
    for part in 0..LEVELS / PART {
        fold_part(&mut bins, lanes, part * PART);
    }
    bins
}

// How many samples have each of the 256 values.
pub(crate) fn histogram(frame: &Gray<'_>) -> [u64; LEVELS]
    ensures { result ≡ bins frame.now.samples.now }
{
    let mut lanes = [0u32; 4 * LEVELS];
    tally_rows(&mut lanes, frame);
    fold_lanes(&lanes)
}

// The number of bins that are added before their sum reaches the goal, where the first `from` of them, which hold `held` samples,
// are added already.
fn bins_added_from(bins: &[u64; LEVELS], goal: u64, from: usize, held: u64) -> u16
    requires { (length bins.now ≡ 256) × (from ≤ 256) × (held ≡ sum from (λ (i : ℕ). get_or bins.now i 0)) × (sum 256 (λ (i : ℕ). get_or bins.now i 0) ≤ 67108864) }
    ensures { result ≡ from + bins_added (drop from bins.now) goal held }
{
    let mut added = held;
    for level in from..LEVELS {
        if added >= goal {
            return level as u16;
        }
        added += bins[level];
    }
    LEVELS as u16
}

// The same from the first bin on: four at a time while four more do not reach the goal.
pub(crate) fn bins_added(bins: [u64; LEVELS], goal: u64) -> u16
    requires { sum 256 (λ (i : ℕ). get_or bins i 0) ≤ 67108864 }
    ensures { result ≡ bins_added bins goal 0 }
{
    let mut added: u64 = 0;
    for four in 0..LEVELS / 4 {
        let level = 4 * four;
        let next = added + bins[level] + bins[level + 1] + bins[level + 2] + bins[level + 3];
        if next >= goal {
            return bins_added_from(&bins, goal, level, added);
        }
        added = next;
    }
    LEVELS as u16
}

// The cut of a frame at a percentile that was checked.
pub(crate) fn cut_of(frame: &Gray<'_>, percentile: u8) -> u16
    requires { percentile ≤ 100 }
    ensures { result ≡ cut frame.now.samples.now percentile }
{
    let goal = frame.samples.len() as u64 * percentile as u64 / 100;
    bins_added(histogram(frame), goal)
}

/// The sample value that the bitmaps are cut at, 0 to 256. Refused: `Side`, `Length`, `Percentile`.
pub fn threshold(samples: &[u8], width: usize, height: usize, percentile: u8) -> Result<u16, Error>
    ensures { answered (λ cut. cut) result ≡ answer (cut_checks width height (length samples.now) percentile) (cut samples.now percentile) }
{
    if side_over(width, height) {
        return Err(Error::Side);
    }
    if samples.len() != width * height {
        return Err(Error::Length);
    }
    if percentile > HIGHEST_PERCENTILE {
        return Err(Error::Percentile);
    }
    let frame = Gray {
        samples,
        width,
        height,
    };
    Ok(cut_of(&frame, percentile))
}

/// Both bitmaps of a frame, each in its buffer: a threshold bit where the sample lies above the cut, an exclusion bit where it lies
/// farther from the cut than the tolerance. Refused: `Side`, `Length`, `Percentile`.
pub fn compute_bitmaps(
    samples: &[u8],
    width: usize,
    height: usize,
    percentile: u8,
    tolerance: u8,
    threshold: &mut [u64],
    exclusion: &mut [u64],
) -> Result<(), Error>
    ensures answer { answered (λ done. done) result ≡ answer (packing_checks width height (length samples.now) (length threshold.old) (length exclusion.old) percentile) tt }
    ensures threshold { threshold.new
        ≡ after (packing_checks width height (length samples.now) (length threshold.old) (length exclusion.old) percentile)
        (packed width height (bitmaps_of width samples.now (cut samples.now percentile) tolerance).threshold)
        threshold.old }
    ensures exclusion { exclusion.new
        ≡ after (packing_checks width height (length samples.now) (length threshold.old) (length exclusion.old) percentile)
        (packed width height (bitmaps_of width samples.now (cut samples.now percentile) tolerance).exclusion)
        exclusion.old }
{
    if side_over(width, height) {
        return Err(Error::Side);
    }
    if samples.len() != width * height {
        return Err(Error::Length);
    }
    let words = height * words_per_row(width);
    if threshold.len() != words {
        return Err(Error::Length);
    }
    if exclusion.len() != words {
        return Err(Error::Length);
    }
    if percentile > HIGHEST_PERCENTILE {
        return Err(Error::Percentile);
    }
    let frame = Gray {
        samples,
        width,
        height,
    };
    pack(
        &frame,
        cut_of(&frame, percentile),
        tolerance,
        threshold,
        exclusion,
    );
    Ok(())
}
