// What a record of the report says.
ghost use Rattle.std.specs.Prelude.{◌<◌};

use super::difference::Counts;
use super::geometry::Shift;

// A frame, a shift against its neighbour, and both counts there, which 32 bits hold.
#[derive(Clone, Copy)]
pub(crate) struct Entry {
    pub(crate) frame: u32,
    pub(crate) shift: Shift,
    pub(crate) counts: Counts,
    pub(crate) ghost few: { counts.disagreeing < 4294967296 },
    pub(crate) ghost few_compared: { counts.compared < 4294967296 },
}
