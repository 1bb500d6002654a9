// A two by two mosaic taken apart into its four planes and put together again, and where each plane stands.
#![tactic(auto)]

mod rows;

ghost use Rattle.std.specs.Prelude.{◌≡◌, ◌≤◌, length};
ghost use Rattle.definitions.specs.Refusals.{either_over, answer, after};
ghost use Rattle.mosaic_format.specs.Mosaic.{apart, together, mosaic_checks, planes_of, planes_checks, part_of};
ghost use Rattle.mosaic.specs.Answers.{number_of, answered, plane_in, planes_in};

use rows::{put_rows, take_rows};

// What no side of a mosaic exceeds.
const LONGEST_SIDE: usize = 8192;

/// Why a call is refused.
#[derive(Clone, Copy, Debug, PartialEq, Eq)]
pub enum MosaicError {
    /// A side is over 8,192.
    Side = 1,
    /// A list has not as many samples as the mosaic.
    Length = 2,
}

impl MosaicError {
    /// Its number in document 01, which C's callers are given.
    pub fn number(self) -> u32
        ensures { result ≡ number_of self }
    {
        self as u32
    }
}

// A side is over the limit. mtb_align has the same of its own: for one of both this crate would have to stand on it.
#[tactic(auto, using(std::proofs::lemmas::Bool::Decides::nat_tests), unfolding(definitions::specs::Refusals::either_over))]
fn side_over(width: usize, height: usize) -> bool
    ensures { result ≡ either_over width height }
{
    width > LONGEST_SIDE || height > LONGEST_SIDE
}

/// A plane: its sides, of which either may be 0, and where it starts in the list of all four.
// `start` and no slice: `mtb_planes`, in C, stores it.
#[derive(Clone, Copy, Debug, PartialEq, Eq)]
pub struct Plane {
    pub width: usize,
    pub height: usize,
    pub start: usize,
}

impl Plane {
    /// Its part of a list, never copied: of a mosaic's planes its samples, row by row. The empty part where a side is over the limit or the
    /// list ends before.
    #[tactic(auto, using(crate::proofs::Standing::part_taken))]
    pub fn part<'a>(self, planes: &'a [u8]) -> &'a [u8]
        ensures { result.now ≡ part_of (plane_in self) planes.now }
    {
        if side_over(self.width, self.height) {
            return &[];
        }
        let start = self.start;
        let end = start.saturating_add(self.width * self.height);
        planes.get(start..end).unwrap_or(&[])
    }
}

/// The four planes in their order, by the parity of their rows, then of their columns.
#[derive(Clone, Copy, Debug, PartialEq, Eq)]
pub struct Planes {
    pub even_even: Plane,
    pub even_odd: Plane,
    pub odd_even: Plane,
    pub odd_odd: Plane,
}

// The planes of a mosaic within the limits. In take_rows and put_rows these are fields of `InOrder`; a type of sides would stand beside it.
#[tactic(auto, using(crate::proofs::Standing::four))]
fn planes_of(width: usize, height: usize) -> Planes
    requires { (width ≤ 8192) × (height ≤ 8192) }
    ensures { planes_in result ≡ planes_of width height }
{
    let even_columns = width.div_ceil(2);
    let odd_columns = width / 2;
    let even_rows = height.div_ceil(2);
    let odd_rows = height / 2;
    Planes {
        even_even: Plane {
            width: even_columns,
            height: even_rows,
            start: 0,
        },
        even_odd: Plane {
            width: odd_columns,
            height: even_rows,
            start: even_columns * even_rows,
        },
        odd_even: Plane {
            width: even_columns,
            height: odd_rows,
            start: width * even_rows,
        },
        odd_odd: Plane {
            width: odd_columns,
            height: odd_rows,
            start: width * even_rows + even_columns * odd_rows,
        },
    }
}

// The sides are within the limit.
#[tactic(auto, using(crate::proofs::Checks::sides_checked))]
fn check_sides(width: usize, height: usize) -> Result<(), MosaicError>
    ensures { answered (λ done. done) result ≡ answer (planes_checks width height) tt }
{
    if side_over(width, height) {
        return Err(MosaicError::Side);
    }
    Ok(())
}

/// The sides and starts of the four planes of a mosaic. `Side` if a side is over 8,192.
#[tactic(auto, using(crate::proofs::Checks::laid_out))]
pub fn layout(width: usize, height: usize) -> Result<Planes, MosaicError>
    ensures { answered planes_in result ≡ answer (planes_checks width height) (planes_of width height) }
{
    check_sides(width, height)?;
    Ok(planes_of(width, height))
}

// The checks of both calls, by the lengths of the two lists.
#[tactic(auto, using(crate::proofs::Checks::lengths_checked))]
fn check(width: usize, height: usize, mosaic: usize, planes: usize) -> Result<(), MosaicError>
    ensures { answered (λ done. done) result ≡ answer (mosaic_checks width height mosaic planes) tt }
{
    check_sides(width, height)?;
    let samples = width * height;
    if mosaic != samples || planes != samples {
        return Err(MosaicError::Length);
    }
    Ok(())
}

/// The four planes of a mosaic, one after another. `Side` if a side is over 8,192; then `Length` if mosaic or planes have not
/// `width` times `height` samples. Refused, the planes stay as they were.
#[tactic(auto, using(crate::proofs::Checks::moved))]
pub fn take_apart(
    mosaic: &[u8],
    width: usize,
    height: usize,
    planes: &mut [u8],
) -> Result<(), MosaicError>
    ensures answer { answered (λ done. done) result ≡ answer (mosaic_checks width height (length mosaic.now) (length planes.old)) tt }
    ensures planes { planes.new
        ≡ after (mosaic_checks width height (length mosaic.now) (length planes.old))
        (apart width height mosaic.now)
        planes.old }
{
    check(width, height, mosaic.len(), planes.len())?;
    take_rows(mosaic, width, height, planes);
    Ok(())
}

/// The mosaic of four planes. Refused as taking apart is, and then the mosaic stays as it was.
#[tactic(auto, using(crate::proofs::Checks::moved))]
pub fn put_together(
    planes: &[u8],
    width: usize,
    height: usize,
    mosaic: &mut [u8],
) -> Result<(), MosaicError>
    ensures answer { answered (λ done. done) result ≡ answer (mosaic_checks width height (length mosaic.old) (length planes.now)) tt }
    ensures mosaic { mosaic.new
        ≡ after (mosaic_checks width height (length mosaic.old) (length planes.now))
        (together width height planes.now)
        mosaic.old }
{
    check(width, height, mosaic.len(), planes.len())?;
    put_rows(planes, width, height, mosaic);
    Ok(())
}
