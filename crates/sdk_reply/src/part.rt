/// A part of an operation that need not be there.
#[derive(Drop)]
pub(crate) enum Part<T> {
    Absent,
    Valid(T),
    Invalid,
}
