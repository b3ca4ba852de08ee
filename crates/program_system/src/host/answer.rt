//! Answers, as they are made of what the system tells.
use just_host::{Answer, HostFault};
use just_text::Text;
use std::alloc::{AllocError, Global};
use std::env::VarError;
use std::io;

/// The fault of a call of the system.
pub fn io_fault(alloc: Global, fault: &io::Error) -> HostFault {
    if fault.kind() == io::ErrorKind::OutOfMemory {
        return HostFault::Memory;
    }
    match format!(in alloc; "{fault}") {
        Ok(text) => HostFault::Io(Text::from_string(text)),
        Err(_) => HostFault::Memory,
    }
}

/// A fault of this text.
pub fn fault_of(alloc: Global, text: &str) -> HostFault {
    match Text::from_text(alloc, text) {
        Ok(text) => HostFault::Io(text),
        Err(_) => HostFault::Memory,
    }
}

/// The text of these bytes, or what they are as far as they can be printed.
pub fn decoded(alloc: Global, bytes: Vec<u8>) -> Answer {
    match String::from_utf8(bytes) {
        Ok(text) => Answer::Text(Text::from_string(text)),
        Err(refused) => Answer::Fault(not_unicode(alloc, refused.as_bytes())),
    }
}

/// The fault of bytes that aren't UTF-8.
fn not_unicode(alloc: Global, bytes: &[u8]) -> HostFault {
    match String::from_utf8_lossy(alloc, bytes) {
        Ok(text) => HostFault::NotUnicode(Text::from_string(text)),
        Err(_) => HostFault::Memory,
    }
}

/// What a variable of the environment has.
pub fn variable(alloc: Global, read: Result<String, VarError>) -> Answer {
    match read {
        Ok(value) => Answer::Text(Text::from_string(value)),
        Err(VarError::NotPresent) => Answer::Absent,
        Err(VarError::NotUnicode) => Answer::Fault(not_unicode(alloc, &[])),
        Err(VarError::OutOfMemory) => Answer::Fault(HostFault::Memory),
    }
}

/// A text that took memory.
pub fn text_answer(text: Result<String, AllocError>) -> Answer {
    match text {
        Ok(text) => Answer::Text(Text::from_string(text)),
        Err(_) => Answer::Fault(HostFault::Memory),
    }
}
