/// Why a checkpoint is not laid out. Nothing was written.
#[derive(Clone, Copy)]
pub enum PlanStop {
    /// A call of the disk failed.
    DiskFault,
    /// There was no memory. It may come in place of any other answer.
    NoMemory,
    /// The pages are not those that are kept: the disk gave back other octets than it was given.
    Lost,
}
