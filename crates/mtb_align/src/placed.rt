// A report's stack once the walk has placed its frames.
ghost use Rattle.mtb_align.specs.Stack.{stack_in, Placed};

use super::stack::Asked;

// What is asked, and the shifts of the stack's frames at the front of a list.
#[derive(Clone, Copy)]
pub(crate) struct Walked<'a> {
    pub(crate) asked: Asked<'a>,
    pub(crate) shifts: &'a [i32],
    pub(crate) ghost placed: { Placed (stack_in asked.stack) shifts.now },
}
