//! What the fields of a head say of the body.

ghost use Rattle.std.specs.Prelude.{◌≡◌, map, option_map, length, All, IfOk};
ghost use Rattle.httparse.specs.Spans.{IsHeaderWithin, header_bytes};
ghost use Rattle.std.specs.List.{list_any, list_all};
ghost use Rattle.std.specs.Char.{is_ascii_digit};
ghost use Rattle.std.specs.Str.{str_eq_ignore_ascii_case};
ghost use Rattle.ghg_http.specs.Fields.{field_parts, first_value, framing, has_field, has_other_length, is_coded, is_length, is_named, length_in, length_of};

use httparse::spans::HeaderSpan;
use std::alloc::{AllocError, Global};
use std::str;

/// A field of a head: its name, and its value without the white space around it.
#[derive(Clone, Copy, Debug)]
pub struct Field<'b> {
    pub name: &'b [u8],
    pub value: &'b [u8],
}

/// The fields that the spans cover.
pub fn fields_of<'b>(
    alloc: Global,
    buf: &'b [u8],
    spans: &[HeaderSpan],
) -> Result<Vec<Field<'b>>, AllocError>
    requires { All (IsHeaderWithin (length buf.now)) spans.now }
    ensures { IfOk result (λ v. map field_parts v.items ≡ map (header_bytes buf.now) spans.now) }
{
    let mut fields = Vec::new(alloc);
    for span in spans {
        fields.push(Field {
            name: span.name.of(buf),
            value: span.value.of(buf),
        })?;
    }
    Ok(fields)
}

// Whether two texts are the same without regard to ASCII case.
fn is_same_text(a: &[u8], b: &[u8]) -> bool
    ensures { result ≡ str_eq_ignore_ascii_case a.now b.now }
{
    a.eq_ignore_ascii_case(b)
}

fn is_named(field: &Field, name: &[u8]) -> bool
    ensures { result ≡ is_named name.now (field_parts field.now) }
{
    is_same_text(field.name, name)
}

fn has_field(fields: &[Field], name: &[u8]) -> bool
    ensures { result ≡ has_field field_parts name.now fields.now }
{
    fields.iter().any(|field| is_named(field, name))
}

// The value of the first field that has the name.
fn first_value<'b>(fields: &[Field<'b>], name: &[u8]) -> Option<&'b [u8]>
    ensures { option_map (λ v. v.now) result ≡ first_value field_parts name.now fields.now }
{
    fields
        .iter()
        .find(|field| is_named(field, name))
        .map(|field| field.value)
}

fn all_digits(bytes: &[u8]) -> bool
    ensures { result ≡ list_all is_ascii_digit bytes.now }
{
    bytes.iter().all(|b| b.is_ascii_digit())
}

// Whether the value of a length is 1 to 10 digits.
fn is_length(value: &[u8]) -> bool
    ensures { result ≡ is_length value.now }
{
    !value.is_empty() && value.len() <= 10 && all_digits(value)
}

// The number that a length gives.
fn length_of(value: &[u8]) -> Option<u64>
    ensures { result ≡ length_of value.now }
{
    if !is_length(value) {
        return None;
    }
    str::from_utf8(value).ok()?.parse().ok()
}

// Whether some length differs as text from the first.
fn has_other_length(fields: &[Field], first: &[u8]) -> bool
    ensures { result ≡ has_other_length field_parts first.now fields.now }
{
    fields.iter().any(|field| is_named(field, b"content-length") && field.value != first)
}

fn is_coded(fields: &[Field]) -> bool
    ensures { result ≡ is_coded field_parts fields.now }
{
    fields.iter().any(|field| {
        is_named(field, b"content-encoding") && !is_same_text(field.value, b"identity")
    })
}

/// The length of a body, as the fields give it.
#[derive(Clone, Copy, Debug, PartialEq, Eq, Drop)]
pub enum Length {
    /// There is none.
    Missing,
    /// It is no number of 1 to 10 digits, or there are two that differ as text.
    Malformed,
    /// It is a number of bytes.
    Given(u64),
}

/// How the fields say that a body is sent.
#[derive(Clone, Copy, Debug, PartialEq, Eq, Drop)]
pub struct Framing {
    /// It has a transfer coding.
    pub is_chunked: bool,
    pub body_length: Length,
    /// It has a coding other than `identity`.
    pub is_coded: bool,
}

/// How the fields of a head say that its body is sent.
#[tactic(auto, unfolding(crate::specs::Fields::framing))]
pub fn framing_of(fields: &[Field]) -> Framing
    ensures { result ≡ framing field_parts fields.now }
{
    Framing {
        is_chunked: has_field(fields, b"transfer-encoding"),
        body_length: length_in(fields),
        is_coded: is_coded(fields),
    }
}

// The length that the fields give.
fn length_in(fields: &[Field]) -> Length
    ensures { result ≡ length_in field_parts fields.now }
{
    let Some(first) = first_value(fields, b"content-length") else {
        return Length::Missing;
    };
    if has_other_length(fields, first) {
        return Length::Malformed;
    }
    match length_of(first) {
        Some(size) => Length::Given(size),
        None => Length::Malformed,
    }
}
