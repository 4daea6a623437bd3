use outside_io::MemSink;
use std::alloc::{AllocError, Global};

// What a sink has room for.
const ROOM: usize = 1 << 18;

/// A sink with room for a text, of whose calls these fail.
pub(crate) fn output(alloc: Global, fails: &[u32]) -> Result<MemSink, AllocError> {
    Ok(MemSink::new(vec![in alloc; 0; ROOM]?, Vec::from_slice(alloc, fails)?))
}
