//! What a host's faults print, and what becomes of memory that is refused.

use just_host::HostFault;
use just_text::Text;
use std::alloc::{AllocError, Global};
use std::test::Fail;

fn prints(alloc: Global, fault: &HostFault, want: &str) -> Result<bool, AllocError> {
    Ok(format!(in alloc; "{fault}")?.as_str() == want)
}

/// How many bytes a text has, put into a list and taken from it.
fn counted(alloc: Global, text: &str) -> Result<usize, HostFault> {
    let mut counts = Vec::new(alloc);
    counts.push(Text::from_text(alloc, text)?.len())?;
    Ok(counts.pop().unwrap_or(0))
}

#[test]
fn faults_print(rt: HostRuntime) -> Result<(), Fail> {
    let alloc = rt.alloc();
    let are_printed = prints(alloc, &HostFault::Code(7), "exit code 7")?
        && prints(alloc, &HostFault::Signal(15), "signal 15")?
        && prints(alloc, &HostFault::Memory, "out of memory")?
        && prints(alloc, &HostFault::unexpected(alloc), "unexpected answer")?;
    assert!(rt; are_printed);
    Ok(())
}

#[test]
fn refused_memory_is_a_fault(rt: HostRuntime) {
    assert!(rt; matches!(counted(rt.alloc(), "one"), Ok(3)));
}
