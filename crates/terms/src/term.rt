// A term of relay contacts in series: a product of inputs, each at a level (the field's word is cube).
ghost use Rattle.std.specs.Prelude.{◌≡◌, ◌<◌, bit_and};

pub mod methods;
pub mod order;

// Bit i of the mask says that input i is read; bit i of the levels is the level that is wanted of it.
#[derive(Clone, Copy, Debug)]
pub struct Term {
    pub mask: u8,
    pub levels: u8,
    ghost within: { bit_and levels mask ≡ levels },
    ghost byte: { mask < 256 },
}
