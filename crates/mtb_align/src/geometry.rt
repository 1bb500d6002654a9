// Shifts, moved images, and the crop. A shift (x, y) moves right and down.
ghost use Rattle.std.specs.Prelude.{◌≡◌, ◌||◌, ◌++◌, ◌+◌, ◌-◌, ◌*◌, ◌≤◌, min, eqb, length, get_or, replicate};
ghost use Rattle.std.proofs.lemmas.List.Edits.{sets};
ghost use Rattle.definitions.specs.Geometry.{offset, doubled, source, shifted, ahead, behind, shifts_of, common_crop};
ghost use Rattle.definitions.specs.Build.{build, joined};
ghost use Rattle.definitions.specs.Refusals.{answer, after, shift_checks, shifted_checks, crop_checks};
ghost use Rattle.mtb_align.specs.Answers.{answered, shift_in, source_in, rect_in};

use super::error::{Error, side_over};
use super::frame::Gray;

/// How far a frame moves to sit on another.
#[derive(Clone, Copy, Debug, PartialEq, Eq)]
pub struct Shift {
    pub x: i32,
    pub y: i32,
}

/// A region of a frame, in pixels from the top left.
#[derive(Clone, Copy, Debug, PartialEq, Eq)]
pub struct Rect {
    pub x: usize,
    pub y: usize,
    pub width: usize,
    pub height: usize,
}

impl Shift {
    pub const ZERO: Shift = Shift { x: 0, y: 0 };

    /// By x to the right and by y down.
    pub fn new(x: i32, y: i32) -> Shift
        ensures { (result.x ≡ x) × (result.y ≡ y) }
    {
        Shift { x, y }
    }

    /// Carries a shift to the next finer level, where it spans twice the pixels. Refused: `Coordinate`.
    pub fn doubled(self) -> Result<Shift, Error>
        ensures { answered shift_in result ≡ answer (shift_checks (doubled (shift_in self))) (doubled (shift_in self)) }
    {
        self.offset(self.x, self.y)
    }

    /// Moved by x and y more. Refused: `Coordinate`.
    pub fn offset(self, x: i32, y: i32) -> Result<Shift, Error>
        ensures { answered shift_in result ≡ answer (shift_checks (offset (shift_in self) (record { x = x; y = y }))) (offset (shift_in self) (record { x = x; y = y })) }
    {
        let x = self.x.checked_add(x).ok_or(Error::Coordinate)?;
        let y = self.y.checked_add(y).ok_or(Error::Coordinate)?;
        Ok(Shift::new(x, y))
    }
}

impl Rect {
    /// Whether it has no place: a side is 0.
    pub fn is_empty(self) -> bool
        ensures { result ≡ (eqb self.width 0 || eqb self.height 0) }
    {
        self.width == 0 || self.height == 0
    }
}

// How far a coordinate lies above 0, and 0 below it.
pub(crate) fn above(coordinate: i32) -> usize
    ensures { result ≡ ahead coordinate }
{
    coordinate.max(0) as usize
}

// How far a coordinate lies below 0, and 0 above it.
pub(crate) fn below(coordinate: i32) -> usize
    ensures { result ≡ behind coordinate }
{
    coordinate.min(0).unsigned_abs() as usize
}

// Where a destination reads from along one axis.
pub(crate) fn source(destination: usize, shift: i32, extent: usize) -> Option<usize>
    ensures { source_in result ≡ source destination shift extent }
{
    let up = above(shift);
    let down = below(shift);
    if destination < up {
        return None;
    }
    let left = destination - up;
    if extent <= down {
        return None;
    }
    if left < extent - down {
        Some(left + down)
    } else {
        None
    }
}

// n zeros from `at` on.
pub(crate) fn clear_run(out: &mut [u8], at: usize, n: usize)
    requires { at + n ≤ length out.old }
    ensures { out.new ≡ sets out.old at (replicate n 0) }
{
    out[at..at + n].fill(0);
}

// n samples from `from` on, written from `at` on.
pub(crate) fn copy_run(samples: &[u8], from: usize, out: &mut [u8], at: usize, n: usize)
    requires { (from + n ≤ length samples.now) × (at + n ≤ length out.old) }
    ensures { out.new ≡ sets out.old at (build n (λ k. get_or samples.now (from + k) 0)) }
{
    out[at..at + n].copy_from_slice(&samples[from..from + n]);
}

// The first place along one axis whose source is inside, where any has one; else a place whose source is outside.
// No Option, since `source` of that place says it and is asked in any case.
pub(crate) fn first_covered(shift: i32, extent: usize) -> usize
    ensures { result ≡ min (ahead shift) (extent - 1) }
{
    above(shift).min(extent.saturating_sub(1))
}

// A row of a moved image, written from `at` on: `before` zeros, the run of `n` samples from `from` on, and `past` zeros.
fn move_row(
    samples: &[u8],
    from: usize,
    out: &mut [u8],
    at: usize,
    before: usize,
    n: usize,
    past: usize,
)
    requires { (from + n ≤ length samples.now) × (at + before + n + past ≤ length out.old) }
    ensures { out.new ≡ sets out.old at (replicate before 0 ++ (build n (λ k. get_or samples.now (from + k) 0) ++ replicate past 0)) }
{
    clear_run(out, at, before);
    copy_run(samples, from, out, at + before, n);
    clear_run(out, at + before + n, past);
}

// `rows` rows of a moved image, written from `at` on: `before` zeros, a run of samples, and `past` zeros. Their sources are the rows from
// `from` on, each read from its column `past` on. Whole rows are one run.
fn move_covered(
    samples: &[u8],
    from: usize,
    out: &mut [u8],
    at: usize,
    width: usize,
    before: usize,
    past: usize,
    rows: usize,
)
    requires { (before + past ≤ width) × (from + rows * width ≤ length samples.now) × (at + rows * width ≤ length out.old) }
    ensures { out.new
        ≡ sets out.old at
        (joined rows
        (λ y. replicate before 0 ++ (build (width - before - past) (λ k. get_or samples.now (from + y * width + past + k) 0) ++ replicate past 0))) }
{
    let n = width - before - past;
    if n == width {
        copy_run(samples, from, out, at, rows * width);
        return;
    }
    for y in 0..rows {
        move_row(
            samples,
            from + y * width + past,
            out,
            at + y * width,
            before,
            n,
            past,
        );
    }
}

// The columns that have a source are one run: `before` columns stand left of it, it reads from column `first` on, and `first` columns
// stand right of it. The rows are one too: `upper` rows stand above it, it reads from row `top` on, and `top` rows stand below it.
// Where the first that could have a source has none, no other has.
fn move_rows(frame: &Gray<'_>, shift: Shift, moved: &mut [u8])
    requires { length moved.old ≡ frame.now.width * frame.now.height }
    ensures { moved.new ≡ shifted frame.now.width frame.now.height frame.now.samples.now (shift_in shift) }
{
    let samples = frame.samples;
    let width = frame.width;
    let height = frame.height;
    let before = first_covered(shift.x, width);
    let Some(first) = source(before, shift.x, width) else {
        clear_run(moved, 0, width * height);
        return;
    };
    let upper = first_covered(shift.y, height);
    let Some(top) = source(upper, shift.y, height) else {
        clear_run(moved, 0, width * height);
        return;
    };
    let rows = height - upper - top;
    clear_run(moved, 0, upper * width);
    move_covered(
        samples,
        top * width,
        moved,
        upper * width,
        width,
        before,
        first,
        rows,
    );
    clear_run(moved, (upper + rows) * width, top * width);
}

/// The image moved, leaving zeros behind it. Refused: `Side`, `Length`.
pub fn shifted(
    samples: &[u8],
    width: usize,
    height: usize,
    shift: Shift,
    moved: &mut [u8],
) -> Result<(), Error>
    ensures answer { answered (λ done. done) result ≡ answer (shifted_checks width height (length samples.now) (length moved.old)) tt }
    ensures moved { moved.new
        ≡ after (shifted_checks width height (length samples.now) (length moved.old))
        (shifted width height samples.now (shift_in shift))
        moved.old }
{
    if side_over(width, height) {
        return Err(Error::Side);
    }
    if samples.len() != width * height {
        return Err(Error::Length);
    }
    if moved.len() != width * height {
        return Err(Error::Length);
    }
    let frame = Gray {
        samples,
        width,
        height,
    };
    move_rows(&frame, shift, moved);
    Ok(())
}

// What every frame covers along one axis.
#[derive(Clone, Copy)]
struct Covered {
    start: usize,
    width: usize,
}

// An axis by its largest coordinate, or 0 where that is greater, and its smallest, or 0 where that is less.
fn span(most: i32, least: i32, extent: usize) -> Covered
    ensures { (result.start ≡ ahead most) × (result.width ≡ extent - behind least - ahead most) }
{
    let start = above(most);
    let lost = below(least);
    let width = extent.saturating_sub(lost).saturating_sub(start);
    Covered { start, width }
}

// The crop of a shift list. The last coordinate of an odd one is left out. Both axes are folded in one loop: with a loop for each, a list
// of 4,000 numbers took some 2.5 times as long.
pub(crate) fn crop_of(shifts: &[i32], width: usize, height: usize) -> Rect
    ensures { rect_in result ≡ common_crop (shifts_of shifts.now) width height }
{
    let mut right: i32 = 0;
    let mut left: i32 = 0;
    let mut down: i32 = 0;
    let mut up: i32 = 0;
    for k in 0..shifts.len() / 2 {
        let x = shifts[2 * k];
        let y = shifts[2 * k + 1];
        right = right.max(x);
        left = left.min(x);
        down = down.max(y);
        up = up.min(y);
    }
    let columns = span(right, left, width);
    let rows = span(down, up, height);
    Rect {
        x: columns.start,
        y: rows.start,
        width: columns.width,
        height: rows.width,
    }
}

/// The region that every frame still covers once moved; the list has x then y for each frame. Refused: `Side`, then
/// `Length` for an odd list.
pub fn common_crop(shifts: &[i32], width: usize, height: usize) -> Result<Rect, Error>
    ensures { answered rect_in result ≡ answer (crop_checks width height (length shifts.now)) (common_crop (shifts_of shifts.now) width height) }
{
    if side_over(width, height) {
        return Err(Error::Side);
    }
    if shifts.len() % 2 == 1 {
        return Err(Error::Length);
    }
    Ok(crop_of(shifts, width, height))
}
