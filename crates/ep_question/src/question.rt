// What a command asks of a task and one plan.

/// A formula is the text of one.
#[derive(Clone, Copy)]
pub enum Question<'a> {
    Validate,
    Eval(&'a str),
    State,
    Contract,
}
