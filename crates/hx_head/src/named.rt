//! Which fields a Connection option names (RFC 9110, section 7.6.1).
//!
//! Each byte of the Connection fields is looked at once. An option meets each name as one number
//! first, so that it is compared in full only with a name that has its number.
ghost use Rattle.std.specs.Prelude.{◌≡◌, ◌≤◌, ℕ, List, false, length, All};
ghost use Rattle.std.specs.Str.{str_eq_ignore_ascii_case};
ghost use Rattle.hx_head.specs.Heads.{IsFieldIn};
ghost use Rattle.hx_message.specs.Limits.{field_limit};
ghost use Rattle.hx_head.specs.Staying.{key_of, lists_name, is_option_of, AreKeys, AreMarked, AddsMarks};

use crate::copy::part;
use crate::head::FieldSpan;
use crate::options::{is_same_name, trim};

/// A number that two names share where they differ in letter case alone.
fn key_of_name(name: &[u8]) -> u64
    ensures { result ≡ key_of name.now }
{
    let mut key: u64 = 0;
    for b in name {
        key = key
            .wrapping_mul(0x9E37_79B9_7F4A_7C15)
            .wrapping_add(u64::from(b.to_ascii_lowercase()));
    }
    key
}

/// The numbers of the names of all fields.
fn fill_keys(bytes: &[u8], fields: &[FieldSpan], keys: &mut [u64])
    requires within { All (IsFieldIn (length bytes.now)) fields.now }
    requires room { length fields.now ≤ length keys.old }
    ensures { AreKeys bytes.now fields.now (length fields.now) keys.new }
{
    for i in 0..fields.len() {
        keys[i] = key_of_name(part(bytes, fields[i].name));
    }
}

/// Whether the option is the name, which is read only where their numbers agree.
fn is_hit(option: &[u8], key: u64, name: &[u8], name_key: u64) -> bool
    requires option { key ≡ key_of option.now }
    requires name { name_key ≡ key_of name.now }
    ensures { result ≡ str_eq_ignore_ascii_case option.now name.now }
{
    key == name_key && is_same_name(option, name)
}

/// Marks the fields that the option names.
fn mark_option(bytes: &[u8], fields: &[FieldSpan], keys: &[u64], option: &[u8], named: &mut [bool])
    requires within { All (IsFieldIn (length bytes.now)) fields.now }
    requires keys { AreKeys bytes.now fields.now (length fields.now) keys.now }
    requires keys_room { length fields.now ≤ length keys.now }
    requires room { length fields.now ≤ length named.old }
    ensures { AddsMarks bytes.now fields.now named.old named.new (str_eq_ignore_ascii_case option.now) }
{
    let key = key_of_name(option);
    for i in 0..fields.len() {
        if is_hit(option, key, part(bytes, fields[i].name), keys[i]) {
            named[i] = true;
        }
    }
}

/// Marks the fields that the options of a value name.
fn mark_value(bytes: &[u8], fields: &[FieldSpan], keys: &[u64], value: &[u8], named: &mut [bool])
    requires within { All (IsFieldIn (length bytes.now)) fields.now }
    requires keys { AreKeys bytes.now fields.now (length fields.now) keys.now }
    requires keys_room { length fields.now ≤ length keys.now }
    requires room { length fields.now ≤ length named.old }
    ensures { AddsMarks bytes.now fields.now named.old named.new (lists_name value.now) }
{
    let mut rest = value;
    while let Some(comma) = rest.iter().position(|b| *b == b',') {
        mark_option(bytes, fields, keys, trim(&rest[..comma]), named);
        rest = &rest[comma + 1..];
    }
    mark_option(bytes, fields, keys, trim(rest), named);
}

/// Marks the fields that some option of the head names, where none was marked.
fn mark_options(bytes: &[u8], fields: &[FieldSpan], named: &mut [bool])
    requires within { All (IsFieldIn (length bytes.now)) fields.now }
    requires few { length fields.now ≤ field_limit }
    requires room { length fields.now ≤ length named.old }
    requires none { AreMarked bytes.now fields.now named.old (λ name. false) }
    ensures { AreMarked bytes.now fields.now named.new (is_option_of bytes.now fields.now) }
{
    let mut keys = [0u64; 100];
    fill_keys(bytes, fields, &mut keys);
    for i in 0..fields.len() {
        if is_same_name(b"Connection", part(bytes, fields[i].name)) {
            mark_value(bytes, fields, &keys, part(bytes, fields[i].value), named);
        }
    }
}

fn has_connection(bytes: &[u8], fields: &[FieldSpan]) -> bool
    requires { All (IsFieldIn (length bytes.now)) fields.now }
    ensures { result ≡ false → (name : List ℕ) → is_option_of bytes.now fields.now name ≡ false }
{
    for i in 0..fields.len() {
        if is_same_name(b"Connection", part(bytes, fields[i].name)) {
            return true;
        }
    }
    false
}

/// The same, and at once where no field is a Connection.
pub(crate) fn mark_named(bytes: &[u8], fields: &[FieldSpan], named: &mut [bool])
    requires within { All (IsFieldIn (length bytes.now)) fields.now }
    requires few { length fields.now ≤ field_limit }
    requires room { length fields.now ≤ length named.old }
    requires none { AreMarked bytes.now fields.now named.old (λ name. false) }
    ensures { AreMarked bytes.now fields.now named.new (is_option_of bytes.now fields.now) }
{
    if has_connection(bytes, fields) {
        mark_options(bytes, fields, named);
    }
}
