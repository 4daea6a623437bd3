/// The four words of a line of memory.
pub type Words = [u32; 4];
