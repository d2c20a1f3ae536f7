//! The line of the refusal that no case has, since its trace would have more than 2^40 bytes.

use graph_meaning::Refusal;
use report::fault_text;
use std::test::Fail;

#[test]
fn a_trace_that_is_too_long_is_named(rt: HostRuntime) -> Result<(), Fail> {
    let text = fault_text(rt.alloc(), 2, &Refusal::TraceTooLong)?;
    assert_eq!(rt; text.as_slice(), b"fault line 2: TraceTooLong\n".as_slice());
    Ok(())
}
