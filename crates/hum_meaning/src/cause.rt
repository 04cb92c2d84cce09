// Why a name is refused.

/// What is wrong with a name, in the order in which causes of one name are told.
#[derive(Clone, Copy, Debug, PartialEq, Eq)]
pub enum ScopeCause {
    /// It is used where it is not bound.
    Unbound,
    /// It is bound a second time in one pattern, or in the statements of one block.
    Twice,
    /// With it more than 4,000 bindings are in scope.
    TooManyNames,
}
