//! What a transcript breaks.

/// The first rule that is broken, and the first line that breaks it.
#[derive(Clone, Copy, PartialEq, Eq, Debug)]
pub struct Broken {
    /// 1: a mark is no step of the connection table. 2: the mode doesn't let it be. 3: more rest than may.
    /// 4: a record is not true of its bytes. 5: the ranges don't cover the bytes of the links. 6: totals are not
    /// those of the marks.
    pub rule: u8,
    /// Counted from 1. It stops at u32's greatest number.
    pub line: u32,
}
