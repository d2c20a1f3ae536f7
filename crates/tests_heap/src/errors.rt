//! What errors are printed as.

use heap_base::OutOfMemory;
use std::test::Fail;
use streams::Failed;

#[test]
fn errors_are_printed(rt: HostRuntime) -> Result<(), Fail> {
    let text = format!(in rt.alloc(); "{Failed}; {OutOfMemory}")?;
    assert_eq!(rt; text.as_str(), "a read or a write failed; out of memory");
    Ok(())
}
