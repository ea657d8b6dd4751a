/// Why a value is not one that its key may have.
#[derive(Clone, Copy, Debug, PartialEq, Eq)]
pub enum Misfit {
    /// It is no number, text, array or table where it has to be one.
    WrongKind,
    /// A number, a text or the length of an array is not allowed.
    Range,
}
