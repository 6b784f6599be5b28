//! What is told of a head: where its parts are. Ranges are counted from the first byte that was read.

use hx_base::Span;
use hx_message::MethodKind;

/// The most bytes of a head.
pub(crate) const HEAD_LIMIT: usize = 16_384;

/// Where the name and the value of a field are.
#[derive(Clone, Copy, Debug, PartialEq, Eq)]
pub struct FieldSpan {
    pub name: Span,
    /// Without the white space around it.
    pub value: Span,
}

/// What stands in a place that has no field.
pub(crate) const EMPTY_FIELD: FieldSpan = FieldSpan {
    name: Span { from: 0, to: 0 },
    value: Span { from: 0, to: 0 },
};

/// Where the parts of a request head are.
#[derive(Clone, Copy)]
pub struct RequestHead {
    pub method: MethodKind,
    /// The word of the method.
    pub word: Span,
    pub target: Span,
    /// The first `count` are the head's fields, in order.
    pub fields: [FieldSpan; 100],
    pub count: u8,
    /// How many bytes the head has, with its last empty line.
    pub length: u32,
}

/// Where the parts of an answer head are.
#[derive(Clone, Copy)]
pub struct AnswerHead {
    /// The minor version, 0 or 1.
    pub minor: u8,
    /// From 100 to 999.
    pub status: u16,
    /// Empty where the line has none.
    pub reason: Span,
    /// The first `count` are the head's fields, in order.
    pub fields: [FieldSpan; 100],
    pub count: u8,
    /// How many bytes the head has, with its last empty line.
    pub length: u32,
}

/// What the first bytes of a message are.
#[derive(Clone, Copy)]
pub enum HeadRead<H> {
    /// A head stands at their front.
    Whole(H),
    /// No whole head is there yet, and there is room for more bytes.
    More,
    /// 1: no bytes can follow that make a head. 2: the first 16,384 bytes hold no whole head, and could still become
    /// one. 3: there are more than 100 fields. 4: a request of HTTP/1.0. 5: an answer with a status below 100.
    Refused(u8),
}
