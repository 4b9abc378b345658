/// What a run of workers is told to. A test may hold workers by it.
pub trait Gate {
    /// A worker took a job, and did nothing with it yet.
    fn enter(&self, worker: u32, job: u32);

    /// A worker claimed an entry for its inode, and found this word there.
    fn claimed(&self, worker: u32, entry: u32, before: u64);
}

/// It returns at once.
pub struct OpenGate;

impl Gate for OpenGate {
    fn enter(&self, _worker: u32, _job: u32) {}

    fn claimed(&self, _worker: u32, _entry: u32, _before: u64) {}
}
