// Takes two mosaics apart, aligns each plane of the second with that of the first where they stand, and reports on the two as a stack, and on
// the same planes lent directly. The input is two mosaics of 65 by 63, the second of which is moved by twice the step below, and behind
// them, for each plane, that of the first and that of the second, picked pixel by pixel. Prints a line for each plane, and whether both
// mosaics are put together again.
#![tactic(auto)]

use mosaic::{Plane, Planes};
use mtb_align::align::Options;
use mtb_align::report::Terms;
use std::io;
use std::io::Read;

const WIDTH: usize = 65;

const HEIGHT: usize = 63;

const SAMPLES: usize = WIDTH * HEIGHT;

// Two mosaics, and the planes of both.
const INPUT: usize = 4 * SAMPLES;

// How far a plane of the second mosaic has to move to sit on that of the first.
const STEP_X: i32 = 3;

const STEP_Y: i32 = -2;

// The largest plane.
const PLANE: usize = 33 * 32;

// Where the planes of both mosaics start among those that were picked, and where the last one ends.
const FIRST: usize = 0;

const SECOND: usize = 2 * PLANE;

const THIRD: usize = SECOND + 2 * 32 * 32;

const FOURTH: usize = THIRD + 2 * 33 * 31;

const END: usize = FOURTH + 2 * 32 * 31;

// Each plane is cut at its median.
const PERCENTILE: u8 = 50;

const SCRATCH: usize = 1024;

const SCRATCH_WORDS: usize = 4 * 32;

// Room for every shift within a reach of 8.
const RECORDS: usize = 20 * 17 * 17;

fn options() -> Options {
    Options {
        bits: 4,
        ..Options::default()
    }
}

fn terms() -> Terms {
    Terms {
        reach: 8,
        floor: 400,
        margin: 20,
    }
}

// The planes of the second mosaic have the step against those of the first, each where it stands.
fn stepped(plane: Plane, first: &[u8], second: &[u8]) -> bool {
    let mut bytes = [0u8; SCRATCH];
    let mut words = [0u64; SCRATCH_WORDS];
    mtb_align::align::shift(
        plane.part(first),
        plane.width,
        plane.height,
        PERCENTILE,
        plane.part(second),
        plane.width,
        plane.height,
        PERCENTILE,
        options(),
        &mut bytes,
        &mut words,
    )
    .is_ok_and(|step| step.shift.x == STEP_X && step.shift.y == STEP_Y)
}

// The report on two frames of a plane's size: how many records there are, or none where it is refused.
fn reported(
    plane: Plane,
    samples: &[u8],
    shifts: &mut [i32],
    verdicts: &mut [u8],
    records: &mut [u8],
) -> Option<usize> {
    let mut bytes = [0u8; SCRATCH];
    let mut words = [0u64; SCRATCH_WORDS];
    mtb_align::report::report(
        &[plane.width; 2],
        &[plane.height; 2],
        &[PERCENTILE; 2],
        samples,
        0,
        options(),
        terms(),
        shifts,
        verdicts,
        records,
        &mut bytes,
        &mut words,
    )
    .ok()
    .map(|summary| summary.records)
}

fn is_step(shifts: &[i32; 4]) -> bool {
    shifts[2] == STEP_X && shifts[3] == STEP_Y
}

// 2 is alone in the list of bytes that the report writes, as in C.
fn is_alone(verdicts: &[u8; 2]) -> bool {
    verdicts[1] == 2
}

fn say(rt: &impl Print, what: &str, is: bool) -> io::Result<()> {
    if !is {
        print!(rt; " not")?;
    }
    print!(rt; "{what}")
}

// The report on two planes that are laid out as a stack, and whether that on the frames which are lent is the same.
fn print_report(rt: &impl Print, plane: Plane, stack: &[u8], lent: &[u8]) -> io::Result<()> {
    let mut shifts = [0i32; 4];
    let mut verdicts = [0u8; 2];
    let mut records = [0u8; RECORDS];
    let mut lent_shifts = [0i32; 4];
    let mut lent_verdicts = [0u8; 2];
    let mut lent_records = [0u8; RECORDS];
    let n = reported(plane, stack, &mut shifts, &mut verdicts, &mut records);
    let m = reported(
        plane,
        lent,
        &mut lent_shifts,
        &mut lent_verdicts,
        &mut lent_records,
    );
    say(rt, " alone,", is_alone(&verdicts))?;
    let rivals = n.unwrap_or(0);
    print!(rt; " rivals {rivals},")?;
    say(
        rt,
        " as of the planes lent directly\n",
        n == m
            && is_step(&shifts)
            && is_step(&lent_shifts)
            && verdicts == lent_verdicts
            && records == lent_records,
    )
}

// Two planes one behind the other, as a stack, where there is room for them.
fn stacked<'a>(first: &[u8], second: &[u8], room: &'a mut [u8]) -> Option<&'a [u8]> {
    let n = first.len();
    let stack = room.get_mut(..n + second.len())?;
    stack[..n].copy_from_slice(first);
    stack[n..].copy_from_slice(second);
    Some(stack)
}

// A plane of both mosaics. For the step they are lent where they stand, for the report as a stack.
fn print_plane(
    rt: &impl Print,
    name: &str,
    plane: Plane,
    first: &[u8],
    second: &[u8],
    lent: &[u8],
) -> io::Result<()> {
    let width = plane.width;
    let height = plane.height;
    let start = plane.start;
    print!(rt; "{name}: {width} by {height} from {start},")?;
    say(rt, " moved as the mosaic,", stepped(plane, first, second))?;
    let mut room = [0u8; 2 * PLANE];
    let stack = stacked(plane.part(first), plane.part(second), &mut room).unwrap_or(&[]);
    print_report(rt, plane, stack, lent)
}

fn print_planes(
    rt: &impl Print,
    planes: Planes,
    first: &[u8],
    second: &[u8],
    lent: &[u8],
) -> io::Result<()> {
    if lent.len() != END {
        return Ok(());
    }
    print_plane(
        rt,
        "even rows, even columns",
        planes.even_even,
        first,
        second,
        &lent[FIRST..SECOND],
    )?;
    print_plane(
        rt,
        "even rows, odd columns",
        planes.even_odd,
        first,
        second,
        &lent[SECOND..THIRD],
    )?;
    print_plane(
        rt,
        "odd rows, even columns",
        planes.odd_even,
        first,
        second,
        &lent[THIRD..FOURTH],
    )?;
    print_plane(
        rt,
        "odd rows, odd columns",
        planes.odd_odd,
        first,
        second,
        &lent[FOURTH..END],
    )
}

// The planes are put together as the mosaic that they were taken from.
fn put_together_again(planes: &[u8], mosaic: &[u8]) -> bool {
    let mut again = [0u8; SAMPLES];
    mosaic::put_together(planes, WIDTH, HEIGHT, &mut again).is_ok() && again.as_slice() == mosaic
}

fn run(rt: &impl Print, input: &[u8]) -> io::Result<()> {
    if input.len() != INPUT {
        return println!(rt; "the input is not two mosaics and their planes");
    }
    let first = &input[0..SAMPLES];
    let second = &input[SAMPLES..2 * SAMPLES];
    let mut planes = [0u8; SAMPLES];
    let mut others = [0u8; SAMPLES];
    let one = mosaic::take_apart(first, WIDTH, HEIGHT, &mut planes).is_ok();
    let both = mosaic::take_apart(second, WIDTH, HEIGHT, &mut others).is_ok() && one;
    if let Ok(laid) = mosaic::layout(WIDTH, HEIGHT) {
        print_planes(rt, laid, &planes, &others, &input[2 * SAMPLES..])?;
    }
    let again = put_together_again(&planes, first);
    let other_again = put_together_again(&others, second);
    print!(rt; "both mosaics are")?;
    say(rt, " put together again\n", both && again && other_again)
}

// Read into an array of this program's own size: a function for all would be generic in it and stand in a crate that all five need.
fn main(rt: HostRuntime) -> io::Result<()> {
    let mut input = [0u8; INPUT];
    let n = io::copy(
        &mut rt.reader().take(INPUT as u64),
        &mut input.as_mut_slice(),
    )?;
    run(&rt, &input[..n.min(INPUT as u64) as usize])
}
