//! Gates, by which tests control workers.

/// Is notified of the tasks of a group as workers run them. A test holds a worker here until another one is far enough.
pub trait Gate {
    /// The task of this index in the group starts.
    fn started(&self, index: usize);

    /// The task has ended, and later tasks can see what it wrote.
    fn ended(&self, index: usize);
}

/// A gate that holds no worker.
#[derive(Clone, Copy)]
pub struct NoGate;

impl Gate for NoGate {
    fn started(&self, _index: usize) {}

    fn ended(&self, _index: usize) {}
}
