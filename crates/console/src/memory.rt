use std::alloc::Global;

// Larger blocks than this go back to the system when they are free.
const KEPT: usize = 4_194_304;

/// Sees to it that memory which one collection gives back is there for the next. glibc gives blocks beyond a bound back to the system at
/// once, and takes them as fresh pages the next time; the bound rises to the size of such a block when that is freed. So one is taken and
/// given back here, of which no page is touched. Where there is no memory for it, nothing changes.
pub(crate) fn keep_freed_memory(alloc: Global) {
    let _block: Result<Vec<u8>, _> = Vec::with_capacity(alloc, KEPT);
}
