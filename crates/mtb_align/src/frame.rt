// A gray frame in hand.
ghost use Rattle.std.specs.Prelude.{◌≡◌, ◌*◌, ◌≤◌, length};

// A frame within 01's limits: its samples, row by row, and its sides.
#[derive(Clone, Copy)]
pub(crate) struct Gray<'a> {
    pub(crate) samples: &'a [u8],
    pub(crate) width: usize,
    pub(crate) height: usize,
    pub(crate) ghost wide: { width ≤ 8192 },
    pub(crate) ghost high: { height ≤ 8192 },
    pub(crate) ghost whole: { length samples.now ≡ width * height },
}
