// A survey of two packed pairs: each shift of a window around a centre is counted, and the rivals go into a space as records.
ghost use Rattle.std.specs.Prelude.{◌≡◌, cond, false, [], ◌∷◌, ◌+◌, ◌*◌, ◌≤◌, ◌<◌, ltb, pos, length};
ghost use Rattle.std.proofs.lemmas.List.Edits.{sets};
ghost use Rattle.definitions.specs.Build.{keep_if};
ghost use Rattle.definitions.specs.Report.{is_neighbour_shift, comes_close, is_rival, survey, bytes32, record_bytes};
ghost use Rattle.definitions.specs.Bitmap.{total};
ghost use Rattle.definitions.specs.Difference.{bitmaps_in, counts};
ghost use Rattle.laws.specs.bitmaps.Bands.{band};
ghost use Rattle.laws.specs.report.Surveys.{row_rivals};
ghost use Rattle.laws.specs.report.Kept.{kept_in, Kept, records_of};
ghost use Rattle.mtb_align.specs.Answers.{shift_in, counts_in};
ghost use Rattle.mtb_align.specs.Packed.{map_of, counts_of, sampled_of};
ghost use Rattle.mtb_align.specs.Survey.{question_in, record_in};

use super::bitmap::words_per_row;
use super::difference::count;
use super::entry::Entry;
use super::geometry::{Shift, above, below};
use super::ones::ones_in;
use super::packed::Packed;
use super::question::Question;
use super::sides::Sides;

// What a record takes.
pub(crate) const RECORD_BYTES: usize = 20;

// ---- the shifts of a window

// Whether a shift is a neighbour shift of a centre: within one pixel of it on both axes, and not the centre itself. The rows come first,
// since most rows of a window are told by them alone.
fn is_neighbour_shift(centre: Shift, shift: Shift) -> bool
    ensures { result ≡ is_neighbour_shift (shift_in centre) (shift_in shift) }
{
    let down = shift.y.abs_diff(centre.y);
    if down > 1 {
        return false;
    }
    let across = shift.x.abs_diff(centre.x);
    if across > 1 {
        return false;
    }
    across + down > 0
}

// In how many pixels `rows` rows of the reference from row `up` on and of the target from row `down` on disagree, the target moved by
// x columns.
fn band_disagreeing(packed: &Packed<'_>, x: i32, up: usize, down: usize, rows: usize) -> u64
    requires { (up + rows ≤ packed.now.height) × (down + rows ≤ packed.now.height) }
    ensures { let p = packed.now in
        let n = p.width in
        result ≡ (counts n rows
        (bitmaps_in n (band n (map_of p 0) up rows) (band n (map_of p 1) up rows))
        (bitmaps_in n (band n (map_of p 2) down rows) (band n (map_of p 3) down rows))
        (record { x = x; y = pos 0 })
        ).disagreeing }
{
    let words = packed.words;
    let n = words_per_row(packed.width);
    let size = packed.height * n;
    let len = rows * n;
    let first = up * n;
    let second = size + first;
    let third = 2 * size + down * n;
    let fourth = 3 * size + down * n;
    let counts = count(
        &words[first..first + len],
        &words[second..second + len],
        &words[third..third + len],
        &words[fourth..fourth + len],
        Sides {
            width: packed.width,
            height: rows,
        },
        Shift { x, y: 0 },
    );
    counts.disagreeing
}

// In how many pixels two pairs disagree at a shift in an eighth of the rows that they share, the first of them. That is part of the
// whole count, so that most shifts are told to be no rivals for an eighth of its cost.
fn sampled(packed: &Packed<'_>, shift: Shift) -> u64
    ensures { result ≡ sampled_of packed.now (shift_in shift) }
{
    let up = above(shift.y);
    let down = below(shift.y);
    let height = packed.height;
    if height <= up + down {
        return 0;
    }
    band_disagreeing(packed, shift.x, up, down, (height - (up + down)) / 8)
}

// Whether a sample shows that a shift is no rival. None is taken where it is likely one, as then it would be for nothing.
fn ruled_out(packed: &Packed<'_>, shift: Shift, limit: u64, likely: bool) -> bool
    ensures { result ≡ cond likely false (ltb limit (sampled_of packed.now (shift_in shift))) }
{
    if likely {
        return false;
    }
    limit < sampled(packed, shift)
}

// Whether the reference's exclusion bitmap has fewer pixels than the floor asks for, so that no shift compares as many.
fn too_few(packed: &Packed<'_>, floor: u64) -> bool
    ensures { result ≡ ltb (total (map_of packed.now 1) packed.now.width packed.now.height) floor }
{
    let n = packed.height * words_per_row(packed.width);
    let end = 2 * n;
    ones_in(&packed.words[n..end]) < floor
}

// ---- records

// They are written as bytes, since C lends their space so (`mtb_report`). `number` has another bound at each level: for a record or a
// shift, for a row, and for a window; one type with its bound would serve but one of them.

// Four bytes from `at` on, low byte first.
fn put_number(space: &mut [u8], at: usize, value: u32)
    requires { at + 4 ≤ length space.old }
    ensures { space.new ≡ sets space.old at (bytes32 value) }
{
    space[at..at + 4].copy_from_slice(&value.to_le_bytes());
}

// The 20 bytes of a record from `at` on.
fn put_record(space: &mut [u8], at: usize, entry: Entry)
    requires { at + 20 ≤ length space.old }
    ensures { space.new ≡ sets space.old at (record_bytes (record_in entry)) }
{
    let shift = entry.shift;
    let counts = entry.counts;
    put_number(space, at, entry.frame);
    put_number(space, at + 4, shift.x.cast_unsigned());
    put_number(space, at + 8, shift.y.cast_unsigned());
    put_number(space, at + 12, counts.disagreeing as u32);
    put_number(space, at + 16, counts.compared as u32);
}

// A record behind `number` others, if there is room.
fn keep_record(space: &mut [u8], number: usize, entry: Entry)
    requires { number ≤ 1000000 }
    ensures { space.new ≡ kept_in space.old number (record_bytes (record_in entry)) }
{
    let at = RECORD_BYTES * number;
    if at + RECORD_BYTES <= space.len() {
        put_record(space, at, entry);
    }
}

// The record of a shift whose counts come close enough, behind `number` others, if there is room; the answer is how many there are then.
#[tactic(auto, using(laws::specs::report::Kept::keeps_one, laws::specs::report::Kept::keeps_none))]
fn keep_rival(space: &mut [u8], number: usize, question: Question, entry: Entry) -> usize
    requires { number ≤ 1000000 }
    ensures { Kept space.old number
        (cond (comes_close (question_in question) (counts_in entry.counts)) (record_in entry ∷ []) [])
        space.new result }
{
    if question.comes_close(entry.counts) {
        keep_record(space, number, entry);
        return number + 1;
    }
    number
}

// ---- the survey

// The two pairs that a frame is surveyed by, what is asked of it, and its number in the records.
#[derive(Clone, Copy)]
pub(crate) struct Survey<'a> {
    pub(crate) packed: Packed<'a>,
    pub(crate) question: Question,
    pub(crate) frame: u32,
}

// The records of all rivals go into a space as far as there is room, behind `number` others, and each answer is how many there are
// then. The space stays beside the struct: a struct that lends a `&mut` owes a clause on its loan in each contract.
impl Survey<'_> {
    // One shift. A neighbour shift is not counted.
    fn survey_shift(&self, shift: Shift, likely: bool, space: &mut [u8], number: usize) -> usize
        requires { number ≤ 1000000 }
        ensures { let at = counts_of self.now.packed in
            Kept space.old number
            (records_of at self.now.frame (keep_if (is_rival at (question_in self.now.question)) (shift_in shift ∷ [])))
            space.new result }
    {
        let question = self.question;
        if is_neighbour_shift(question.centre, shift) {
            return number;
        }
        if ruled_out(&self.packed, shift, question.limit, likely) {
            return number;
        }
        let counts = self.packed.counts_at(shift);
        let entry = Entry {
            frame: self.frame,
            shift,
            counts,
        };
        keep_rival(space, number, question, entry)
    }

    // Row j of the window. Next to a rival most shifts are rivals too.
    fn survey_row(&self, j: usize, space: &mut [u8], number: usize) -> usize
        requires { (j ≤ 2 * self.now.question.reach) × (number ≤ 500000) }
        ensures { let at = counts_of self.now.packed in
            Kept space.old number
            (records_of at self.now.frame (row_rivals at (question_in self.now.question) j))
            space.new result }
    {
        let question = self.question;
        let side = 2 * question.reach + 1;
        let mut next = number;
        let mut likely = false;
        for i in 0..side {
            let shift = question.shift_at(i, j);
            let after = self.survey_shift(shift, likely, space, next);
            likely = next < after;
            next = after;
        }
        next
    }

    // The whole window.
    pub(crate) fn survey_window(&self, space: &mut [u8], number: usize) -> usize
        requires { number ≤ 300000 }
        ensures { let at = counts_of self.now.packed in
            Kept space.old number
            (records_of at self.now.frame (survey at (question_in self.now.question)))
            space.new result }
    {
        let question = self.question;
        if too_few(&self.packed, question.floor) {
            return number;
        }
        let rows = 2 * question.reach + 1;
        let mut next = number;
        for j in 0..rows {
            next = self.survey_row(j, space, next);
        }
        next
    }
}
