// The rivals of each frame of a stack and the verdict on it, once the walk has placed the frames.
// `words`, `judged` and `space` are lent to be written: their room stays a requires, since a struct of `&mut` owes a clause on its loan in each contract.
ghost use Rattle.std.specs.Prelude.{◌≡◌, cond, [], ◌∷◌, ◌+◌, ◌*◌, ◌≤◌, ◌<◌, ltb, eqb, length};
ghost use Rattle.std.proofs.lemmas.List.Edits.{sets};
ghost use Rattle.definitions.specs.Align.{neighbour, step_of, stack_words};
ghost use Rattle.definitions.specs.Refusals.{FreeUpTo};
ghost use Rattle.definitions.specs.Report.{survey, frame_records, verdict, records, verdicts};
ghost use Rattle.laws.specs.search.StepBounds.{Within};
ghost use Rattle.laws.specs.search.ShiftLists.{less};
ghost use Rattle.laws.specs.report.Kept.{Kept, records_of};
ghost use Rattle.mtb_align.specs.Answers.{shift_in};
ghost use Rattle.mtb_align.specs.Packed.{counts_of};
ghost use Rattle.mtb_align.specs.Stack.{stack_in, four_in, listed_at};
ghost use Rattle.mtb_align.specs.Survey.{terms_in, question_around, verdict_in};

use super::bitmap::words_per_row;
use super::geometry::Shift;
use super::packed::Packed;
use super::pairs::pack_both;
use super::placed::Walked;
use super::question::Question;
use super::report::Terms;
use super::survey::Survey;
use super::walk::{neighbour_of, shift_at};

// What is said of a frame: it is the reference, or its step compares too few pixels, is the only rival, or has others.
// It is stored `as u8`: C is lent the verdicts as bytes (`mtb_report`), and the definitions have numbers.
#[derive(Clone, Copy)]
enum Verdict {
    Reference,
    Weak,
    Alone,
    Contested,
}

// The step of frame k: its shift less its neighbour's.
fn step_by_shifts(shifts: &[i32], neighbour: usize, k: usize) -> Shift
    requires neighbour_in_bounds { (2 * neighbour + 2 ≤ length shifts.now) × (2 * k + 2 ≤ length shifts.now) }
    requires within { Within 1048576 (listed_at shifts.now neighbour) × Within 1048576 (listed_at shifts.now k) }
    ensures { shift_in result ≡ less (listed_at shifts.now k) (listed_at shifts.now neighbour) }
{
    let to = shift_at(shifts, k);
    let from = shift_at(shifts, neighbour);
    Shift {
        x: to.x - from.x,
        y: to.y - from.y,
    }
}

// The step of frame k against its neighbour, and the bitmaps of both; not for the reference.
fn sight(walked: &Walked<'_>, k: usize, words: &mut [u64]) -> Shift
    requires room { let stack = walked.now.asked.stack in
        (stack_words (stack_in stack) ≤ length words.old) × (k < length stack.percentiles.now) × (k ≡ stack.reference → ⊥) }
    ensures result_value { shift_in result ≡ step_of (stack_in walked.now.asked.stack) k }
    ensures words_after { let stack = walked.now.asked.stack in
        words.new ≡ sets words.old 0 (four_in (stack_in stack) (neighbour stack.reference k) k) }
{
    let stack = &walked.asked.stack;
    let neighbour = neighbour_of(stack.reference, k);
    let pair = stack.pair(neighbour, k);
    pack_both(&pair, words);
    step_by_shifts(walked.shifts, neighbour, k)
}

// How many pixels a frame's step compares, and how many records there are once it was surveyed.
#[derive(Clone, Copy)]
struct Surveyed {
    compared: u64,
    number: usize,
}

// The survey of two packed pairs around a step. `number` has the bound of `survey_window`: another at each level of the survey, so no one type.
fn survey_around(
    packed: &Packed<'_>,
    step: Shift,
    terms: Terms,
    frame: u32,
    space: &mut [u8],
    number: usize,
) -> Surveyed
    requires { Within 65536 (shift_in step) × (terms.reach ≤ 64) × (number ≤ 300000) }
    ensures { (result.compared ≡ (counts_of packed.now (shift_in step)).compared)
        × Kept space.old number
        (records_of (counts_of packed.now) frame
        (survey (counts_of packed.now) (question_around (counts_of packed.now) (shift_in step) (terms_in terms))))
        space.new result.number }
{
    let counts = packed.counts_at(step);
    let question = Question {
        centre: step,
        reach: terms.reach as usize,
        floor: terms.floor as u64,
        limit: counts.disagreeing + terms.margin as u64,
    };
    let survey = Survey {
        packed: *packed,
        question,
        frame,
    };
    let after = survey.survey_window(space, number);
    Surveyed {
        compared: counts.compared,
        number: after,
    }
}

// The verdict on a frame that is not the reference, by the pixels that its step compares and the number of its rivals, of which the
// step is one.
fn verdict_of(compared: u64, rivals: usize, floor: u64) -> Verdict
    ensures { verdict_in result ≡ cond (ltb compared floor) 1 (cond (eqb rivals 1) 2 3) }
{
    if compared < floor {
        return Verdict::Weak;
    }
    if rivals == 1 {
        return Verdict::Alone;
    }
    Verdict::Contested
}

// The survey of frame k; the verdict goes into `judged`.
fn survey_frame(
    walked: &Walked<'_>,
    k: usize,
    judged: &mut [u8],
    space: &mut [u8],
    number: usize,
    words: &mut [u64],
) -> usize
    requires room { (stack_words (stack_in walked.now.asked.stack) ≤ length words.old) × (k < length walked.now.asked.stack.percentiles.now) × (number ≤ 300000) }
    requires judged_len { length walked.now.asked.stack.percentiles.now ≤ length judged.old }
    ensures kept { Kept space.old number (frame_records (stack_in walked.now.asked.stack) (terms_in walked.now.asked.terms) k) space.new result }
    ensures judged_after { judged.new ≡ sets judged.old k (verdict (stack_in walked.now.asked.stack) (terms_in walked.now.asked.terms) k ∷ []) }
    ensures free_up_to { FreeUpTo (stack_words (stack_in walked.now.asked.stack)) words.old words.new }
{
    let stack = &walked.asked.stack;
    let terms = walked.asked.terms;
    if k == stack.reference {
        judged[k] = Verdict::Reference as u8;
        return number;
    }
    let width = stack.width;
    let height = stack.height;
    let step = sight(walked, k, words);
    let end = 4 * (height * words_per_row(width));
    let packed = Packed {
        words: &words[0..end],
        width,
        height,
    };
    let surveyed = survey_around(&packed, step, terms, k as u32, space, number);
    let after = surveyed.number;
    judged[k] = verdict_of(surveyed.compared, after - number, terms.floor as u64) as u8;
    after
}

// The survey of all frames, from the start of the space on.
pub(crate) fn survey_frames(
    walked: &Walked<'_>,
    judged: &mut [u8],
    space: &mut [u8],
    words: &mut [u64],
) -> usize
    requires room { stack_words (stack_in walked.now.asked.stack) ≤ length words.old }
    requires judged_len { length walked.now.asked.stack.percentiles.now ≤ length judged.old }
    ensures kept { Kept space.old 0 (records (stack_in walked.now.asked.stack) (terms_in walked.now.asked.terms)) space.new result }
    ensures judged_after { judged.new ≡ sets judged.old 0 (verdicts (stack_in walked.now.asked.stack) (terms_in walked.now.asked.terms)) }
    ensures free_up_to { FreeUpTo (stack_words (stack_in walked.now.asked.stack)) words.old words.new }
{
    let mut number: usize = 0;
    for k in 0..walked.asked.stack.percentiles.len() {
        number = survey_frame(walked, k, judged, space, number, words);
    }
    number
}
