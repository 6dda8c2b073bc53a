use pl_budgets::Budget;

/// How a bundle was compiled.
#[derive(Clone, Copy, Debug, PartialEq, Eq)]
pub enum Ending {
    /// The text of the plan was written.
    Compiled,
    /// The line of the refusal was written.
    Refused,
    /// The input is no bundle. Nothing was written.
    NotBundle,
    /// A read failed. Nothing was written.
    ReadFault,
    /// As many bytes were taken as may be. Nothing was written.
    Spent,
    /// A write failed: a beginning of the text or of the line was written.
    WriteFault,
    /// Memory was wanting, or this budget was passed. Nothing was written.
    Memory(Option<Budget>),
}
