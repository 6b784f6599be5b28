//! Which fields go on (RFC 9110, section 7.6.1).
ghost use Rattle.std.specs.Prelude.{◌≡◌, ◌≤◌, ℕ, List, length, take, filter, All};
ghost use Rattle.hx_message.specs.Fields.{NameAndValue, is_of_connection, is_kept, is_optional, goes_on};
ghost use Rattle.hx_head.specs.Heads.{IsFieldIn};
ghost use Rattle.hx_message.specs.Limits.{field_limit};
ghost use Rattle.hx_head.specs.Staying.{stays_in};

use crate::copy::part;
use crate::head::FieldSpan;
use crate::named::mark_named;
use crate::options::is_same_name;

#[tactic(auto, unfolding(hx_message::specs::Fields::is_of_connection))]
fn is_connection_name(name: &[u8]) -> bool
    ensures { result ≡ is_of_connection name.now }
{
    is_same_name(b"Connection", name)
        || is_same_name(b"Keep-Alive", name)
        || is_same_name(b"Proxy-Connection", name)
        || is_same_name(b"TE", name)
        || is_same_name(b"Upgrade", name)
}

#[tactic(auto, unfolding(hx_message::specs::Fields::is_kept))]
fn is_framing_name(name: &[u8]) -> bool
    ensures { result ≡ is_kept name.now }
{
    is_same_name(b"Host", name)
        || is_same_name(b"Content-Length", name)
        || is_same_name(b"Transfer-Encoding", name)
}

#[tactic(auto, unfolding(hx_message::specs::Fields::goes_on))]
fn stays(name: &[u8], is_named: bool) -> bool
    ensures { (fields : List NameAndValue) (value : List ℕ) → is_named ≡ is_optional fields name.now
        → result ≡ goes_on fields (name.now, value) }
{
    !is_connection_name(name) && (is_framing_name(name) || !is_named)
}

/// Copies the ranges of the fields that go on, in order, and tells how many they are.
pub(crate) fn keep_staying(bytes: &[u8], fields: &[FieldSpan], kept: &mut [FieldSpan]) -> usize
    requires within { All (IsFieldIn (length bytes.now)) fields.now }
    requires few { length fields.now ≤ field_limit }
    requires room { length fields.now ≤ length kept.old }
    ensures count { result ≤ length fields.now }
    ensures kept { take result kept.new ≡ filter (stays_in bytes.now fields.now) fields.now }
{
    let mut named = [false; 100];
    mark_named(bytes, fields, &mut named);
    let mut count = 0usize;
    for i in 0..fields.len() {
        let field = fields[i];
        if stays(part(bytes, field.name), named[i]) {
            kept[count] = field;
            count += 1;
        }
    }
    count
}
