//! Operating systems that an item may be written for.

/// An operating system.
#[derive(Clone, Copy, Debug, PartialEq, Eq, PartialOrd, Ord)]
pub enum Os {
    Android,
    Dragonfly,
    Freebsd,
    Linux,
    Macos,
    Netbsd,
    Openbsd,
}
