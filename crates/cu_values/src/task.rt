//! The tasks that are left while a value is displayed.

/// A part of a display that is still to be written.
#[derive(Clone, Copy)]
pub(crate) enum Task {
    /// A value as it stands alone.
    Alone,
    /// A value, in parentheses where it takes them.
    Argument,
    /// So many arguments of an application, each after a space.
    Arguments(u32),
    /// So many components of a tuple, each after a comma.
    Components(u32),
    /// The rest of a list that has an end, after an element.
    Elements,
    /// The rest of a list that ends in a variable, after an element.
    OpenRest,
    /// A closing parenthesis.
    ClosingParenthesis,
    /// A closing square bracket.
    ClosingBracket,
}

/// What displays a value: the tasks that are left, as a stack, and the text that
/// was written.
#[derive(Drop)]
pub(crate) struct Pen {
    pub(crate) tasks: Vec<Task>,
    pub(crate) text: String,
}
