use hy_bits::Text;

/// A file in memory, with its counts of faults.
#[derive(Drop)]
pub struct File {
    pub name: Text,
    pub bytes: Text,
    pub failed_reads: u64,
    pub failed_writes: u64,
}
