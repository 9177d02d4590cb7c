//! The fields of a head, found by their names.
ghost use Rattle.std.specs.Prelude.{◌≡◌, length, map, option_map, All};
ghost use Rattle.httparse.specs.Spans.{header_bytes, IsHeaderWithin};
ghost use Rattle.cue_request.specs.Fields.{has_field, has_many, is_named, only_value};

use httparse::spans::HeaderSpan;

// Whether this is the name, in whatever case.
fn is_named(name: &[u8], found: &[u8]) -> bool
    ensures { result ≡ is_named name.now found.now }
{
    found.eq_ignore_ascii_case(name)
}

/// Whether one of the fields has this name.
pub(crate) fn has_field(buffer: &[u8], fields: &[HeaderSpan], name: &[u8]) -> bool
    requires { All (IsHeaderWithin (length buffer.now)) fields.now }
    ensures { result ≡ has_field name.now (map (header_bytes buffer.now) fields.now) }
{
    match fields {
        [] => false,
        [field, rest @ ..] => {
            is_named(name, field.name.of(buffer)) || has_field(buffer, rest, name)
        }
    }
}

/// Whether more than one of the fields has this name.
pub(crate) fn has_many(buffer: &[u8], fields: &[HeaderSpan], name: &[u8]) -> bool
    requires { All (IsHeaderWithin (length buffer.now)) fields.now }
    ensures { result ≡ has_many name.now (map (header_bytes buffer.now) fields.now) }
{
    match fields {
        [] => false,
        [field, rest @ ..] => {
            if is_named(name, field.name.of(buffer)) {
                has_field(buffer, rest, name)
            } else {
                has_many(buffer, rest, name)
            }
        }
    }
}

/// The value of the field of this name; none if there is no such field, or more than one.
pub(crate) fn only_value<'a>(
    buffer: &'a [u8],
    fields: &[HeaderSpan],
    name: &[u8],
) -> Option<&'a [u8]>
    requires { All (IsHeaderWithin (length buffer.now)) fields.now }
    ensures { option_map (λ v. v.now) result
        ≡ only_value name.now (map (header_bytes buffer.now) fields.now) }
{
    match fields {
        [] => None,
        [field, rest @ ..] => {
            if !is_named(name, field.name.of(buffer)) {
                only_value(buffer, rest, name)
            } else if has_field(buffer, rest, name) {
                None
            } else {
                Some(field.value.of(buffer))
            }
        }
    }
}
