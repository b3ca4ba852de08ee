//! How processes end.
use just_host::Status;
use std::os::unix::process::ExitStatusExt;
use std::process::ExitStatus;

/// A code, or the signal that ended the process.
pub fn status_of(ended: ExitStatus) -> Status {
    match (ended.code(), ended.signal()) {
        (Some(code), _) => Status::Code(u8::try_from(code).unwrap_or(u8::MAX)),
        (None, Some(signal)) => Status::Signal(u8::try_from(signal).unwrap_or(u8::MAX)),
        (None, None) => Status::NotStarted,
    }
}
