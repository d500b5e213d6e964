//! A note of a `Recorder`.

/// A read of `asked` bytes at the byte offset `at` that succeeded. It gave `count` bytes, which begin at `from` in the
/// recorder's `bytes`.
#[derive(Clone, Copy, Debug, PartialEq, Eq)]
pub struct Served {
    pub at: u64,
    pub asked: u64,
    pub from: u64,
    pub count: u64,
}
