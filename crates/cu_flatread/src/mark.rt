//! What stands between the parts of types and expressions.
ghost use Rattle.std.specs.Prelude.{◌≡◌};
ghost use Rattle.cu_flatread.specs.Inside.Words.{mark_text};

/// What stands after a part of a type or an expression.
#[derive(Clone, Copy)]
pub(crate) enum Mark {
    /// The end of the last part.
    Close,
    /// The end of a part, and the start of the next one.
    Between,
    /// The end of what a variable is bound to, and the start of the expression
    /// after it.
    Body,
    /// The end of an expression, and the start of the branches.
    Branches,
}

impl Mark {
    /// The mark's text.
    pub(crate) fn text(self) -> &'static [u8]
        ensures { result.now ≡ mark_text self }
    {
        match self {
            Mark::Close => b")",
            Mark::Between => b") (",
            Mark::Body => b")] (",
            Mark::Branches => b") [",
        }
    }
}
