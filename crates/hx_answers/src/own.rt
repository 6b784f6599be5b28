//! Own answers by their status.
ghost use Rattle.std.specs.Prelude.{IfSome, IfNone};
ghost use Rattle.hx_message.specs.OwnAnswer.{IsOwnAnswer};
ghost use Rattle.hx_answers.specs.Owned.{HasNoOwnAnswer};

/// The whole answer of that status, without a body, which tells the client that its connection closes. There is one
/// for 400, 408, 431, 501, 502, 503, 504 and 505.
pub fn own_answer(status: u16) -> Option<&'static [u8]>
    ensures some { IfSome result (λ text. IsOwnAnswer status text.now) }
    ensures none { IfNone result (HasNoOwnAnswer status) }
{
    let text: &[u8] = match status {
        400 => b"HTTP/1.1 400 Bad Request\r\nContent-Length: 0\r\nConnection: close\r\n\r\n",
        408 => b"HTTP/1.1 408 Request Timeout\r\nContent-Length: 0\r\nConnection: close\r\n\r\n",
        431 =>
            b"HTTP/1.1 431 Request Header Fields Too Large\r\nContent-Length: 0\r\nConnection: close\r\n\r\n",
        501 => b"HTTP/1.1 501 Not Implemented\r\nContent-Length: 0\r\nConnection: close\r\n\r\n",
        502 => b"HTTP/1.1 502 Bad Gateway\r\nContent-Length: 0\r\nConnection: close\r\n\r\n",
        503 =>
            b"HTTP/1.1 503 Service Unavailable\r\nContent-Length: 0\r\nConnection: close\r\n\r\n",
        504 => b"HTTP/1.1 504 Gateway Timeout\r\nContent-Length: 0\r\nConnection: close\r\n\r\n",
        505 =>
            b"HTTP/1.1 505 HTTP Version Not Supported\r\nContent-Length: 0\r\nConnection: close\r\n\r\n",
        _ => return None,
    };
    Some(text)
}
