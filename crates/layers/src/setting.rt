// An input held at a level.
#[derive(Clone, Copy, PartialEq, Eq, Debug)]
pub struct Setting {
    pub input: usize,
    pub level: bool,
}
