// What to do at a node.

// A good set is found; nothing good is left; a column is to be decided on.
#[derive(Clone, Copy, PartialEq, Eq, Debug)]
pub enum Turn {
    Found,
    Dead,
    Take(usize),
}
