/// What a clerk passes before it compiles, outside the lock.
pub trait Gate {
    /// Is called once for each request for which something is compiled before its turn. It may
    /// wait.
    fn before_compile(&self);
}

/// A gate that is always free.
#[derive(Clone, Copy, Debug, Drop)]
pub struct Free;

impl Gate for Free {
    fn before_compile(&self) {}
}
