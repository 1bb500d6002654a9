// The walk over a stack: from the reference down to the first frame, then up to the last.
// `bytes` and `words` are lent to be written: their room stays a requires, since a struct of `&mut` owes a clause on its loan in each contract.
// The shifts are numbers, x then y for each frame, as C lends their list (`mtb_align_stack`).
ghost use Rattle.std.specs.Prelude.{◌≡◌, [], ◌∷◌, ◌+◌, ◌*◌, ◌≤◌, ◌<◌, length, get_or};
ghost use Rattle.std.proofs.lemmas.List.Edits.{sets};
ghost use Rattle.definitions.specs.Geometry.{listed};
ghost use Rattle.definitions.specs.Align.{neighbour, step_of, shifts as shifts_of, stack_bytes, stack_words};
ghost use Rattle.definitions.specs.Align as definition;
ghost use Rattle.definitions.specs.Refusals.{FreeUpTo};
ghost use Rattle.mtb_align.specs.Answers.{shift_in};
ghost use Rattle.mtb_align.specs.Stack.{stack_in, listed_at};

use super::align::{step_of, summed};
use super::geometry::Shift;
use super::stack::Stack;

// Frame i of the walk over n frames: from the one below the reference down to 0, then from the one above it up.
#[tactic(auto, using(laws::specs::search::Walk::walk_below, laws::specs::search::Walk::walk_above))]
pub(crate) fn walked(reference: usize, n: usize, i: usize) -> usize
    requires { (reference < n) × (i + 1 < n) }
    ensures { result ≡ get_or (definition.walk reference n) i 0 }
{
    if i < reference {
        return reference - i - 1;
    }
    i + 1
}

// The frame next to frame k on the reference's side.
#[tactic(auto, using(std::proofs::lemmas::Bool::Decides::nat_tests), unfolding(definitions::specs::Align::neighbour))]
pub(crate) fn neighbour_of(reference: usize, k: usize) -> usize
    ensures { result ≡ neighbour reference k }
{
    if k < reference {
        return k + 1;
    }
    if reference < k {
        return k - 1;
    }
    k
}

// The shift of frame k in the list.
pub(crate) fn shift_at(shifts: &[i32], k: usize) -> Shift
    requires { 2 * k + 2 ≤ length shifts.now }
    ensures { shift_in result ≡ listed_at shifts.now k }
{
    Shift {
        x: shifts[2 * k],
        y: shifts[2 * k + 1],
    }
}

// The shift of frame k goes into the list.
#[tactic(auto, unfolding(definitions::specs::Geometry::listed))]
fn put_shift(shifts: &mut [i32], k: usize, s: Shift)
    requires { 2 * k + 2 ≤ length shifts.old }
    ensures { shifts.new ≡ sets shifts.old (2 * k) (listed (shift_in s ∷ [])) }
{
    let x = s.x;
    let y = s.y;
    shifts[2 * k] = x;
    shifts[2 * k + 1] = y;
}

// The step of frame k against another, which is its neighbour, each cut at its own percentile.
fn frame_step(
    stack: &Stack<'_>,
    neighbour: usize,
    k: usize,
    bytes: &mut [u8],
    words: &mut [u64],
) -> Shift
    requires room { (stack_bytes (stack_in stack.now) ≤ length bytes.old) × (stack_words (stack_in stack.now) ≤ length words.old) }
    requires beside { (1 < length stack.now.percentiles.now) × (k < length stack.now.percentiles.now) × (neighbour ≡ definition.neighbour stack.now.reference k) }
    ensures result_value { shift_in result ≡ step_of (stack_in stack.now) k }
    ensures free_up_to { FreeUpTo (stack_bytes (stack_in stack.now)) bytes.old bytes.new }
    ensures free_up_to_2 { FreeUpTo (stack_words (stack_in stack.now)) words.old words.new }
{
    let pair = stack.pair(neighbour, k);
    let step = step_of(&pair, bytes, words);
    step.shift
}

// The shifts of all frames: the reference's, and in the order of the walk each frame's, its neighbour's and its step added.
pub(crate) fn walk(stack: &Stack<'_>, shifts: &mut [i32], bytes: &mut [u8], words: &mut [u64])
    requires room { (stack_bytes (stack_in stack.now) ≤ length bytes.old) × (stack_words (stack_in stack.now) ≤ length words.old) }
    requires list { 2 * length stack.now.percentiles.now ≤ length shifts.old }
    ensures shifts_after { shifts.new ≡ sets shifts.old 0 (listed (shifts_of (stack_in stack.now))) }
    ensures free_up_to { FreeUpTo (stack_bytes (stack_in stack.now)) bytes.old bytes.new }
    ensures free_up_to_2 { FreeUpTo (stack_words (stack_in stack.now)) words.old words.new }
{
    let reference = stack.reference;
    let n = stack.percentiles.len();
    put_shift(shifts, reference, Shift::ZERO);
    for i in 0..n - 1 {
        let k = walked(reference, n, i);
        let neighbour = neighbour_of(reference, k);
        let step = frame_step(stack, neighbour, k, bytes, words);
        let placed = shift_at(shifts, neighbour);
        put_shift(shifts, k, summed(placed, step));
    }
}
