// Why a call is refused.
ghost use Rattle.std.specs.Prelude.{◌≡◌};
ghost use Rattle.definitions.specs.Refusals.{either_over};
ghost use Rattle.mtb_align.specs.Answers.{number_of};

/// A frame's sides.
#[derive(Clone, Copy, Debug, PartialEq, Eq)]
pub struct Size {
    pub width: usize,
    pub height: usize,
}

/// Why a call is refused: a case for each number, with the values that come with it; 4 has a case for two frames and one for a stack.
#[derive(Clone, Copy, Debug, PartialEq, Eq)]
pub enum Error {
    Side,
    Length,
    Percentile,
    /// The reference's size, then the target's.
    SizeMismatch(Size, Size),
    /// The neighbour's size, then that of the frame whose number follows.
    FrameMismatch(Size, Size, usize),
    /// The reference, and how many frames there are.
    NoSuchReference(usize, usize),
    Frames,
    Scratch,
    Padding,
    Reach,
    /// How many records are needed.
    Records(usize),
    Outside,
    Coordinate,
}

impl Error {
    // A match and no discriminants, since cases carry values and two are 4.
    /// Its number, which C's callers are given.
    pub fn number(self) -> u32
        ensures { result ≡ number_of self }
    {
        match self {
            Error::Side => 1,
            Error::Length => 2,
            Error::Percentile => 3,
            Error::SizeMismatch(_, _) => 4,
            Error::FrameMismatch(_, _, _) => 4,
            Error::NoSuchReference(_, _) => 5,
            Error::Frames => 6,
            Error::Scratch => 7,
            Error::Padding => 8,
            Error::Reach => 9,
            Error::Records(_) => 10,
            Error::Outside => 11,
            Error::Coordinate => 12,
        }
    }
}

// What no side of a frame exceeds.
pub(crate) const LONGEST_SIDE: usize = 8192;

// What no percentile exceeds.
pub(crate) const HIGHEST_PERCENTILE: u8 = 100;

// A side is over the limit.
#[tactic(auto, using(std::proofs::lemmas::Bool::Decides::nat_tests), unfolding(definitions::specs::Refusals::either_over))]
pub(crate) fn side_over(width: usize, height: usize) -> bool
    ensures { result ≡ either_over width height }
{
    width > LONGEST_SIDE || height > LONGEST_SIDE
}
