/// Which part comes next: the one value of the text, and nothing after it; a value of a list; the name
/// or the value of a member.
#[derive(Clone, Copy, Debug, PartialEq, Eq)]
pub(crate) enum Turn {
    Whole,
    Nothing,
    Element,
    Name,
    Member,
}

/// An open bracket: the part that comes next, the index of its entry, and how many parts it has.
#[derive(Clone, Copy, Debug, Drop)]
pub(crate) struct Bracket {
    pub(crate) turn: Turn,
    pub(crate) entry: usize,
    pub(crate) count: usize,
}
