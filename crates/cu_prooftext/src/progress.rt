//! Parts of a text that are read from the outside in, without recursion.

/// A part that is read, or what stands around the part that is to be read
/// next.
#[derive(Drop)]
pub(crate) enum Progress<T, O> {
    /// A part, all of it.
    Done(T),
    /// The beginning of a part, up to the next part in it.
    Open(O),
}
