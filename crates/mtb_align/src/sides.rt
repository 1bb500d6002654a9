// The sides of a frame. The structs of frames have sides of their own: as one field some hundred places would say `.sides.width`.
ghost use Rattle.std.specs.Prelude.{◌≤◌};

// A frame's sides, within 01's limit.
#[derive(Clone, Copy)]
pub(crate) struct Sides {
    pub(crate) width: usize,
    pub(crate) height: usize,
    pub(crate) ghost wide: { width ≤ 8192 },
    pub(crate) ghost high: { height ≤ 8192 },
}
