// Scalars with a standard tag, and the whole of a scalar's resolution. (S10.)
ghost use Rattle.std.specs.Prelude.{◌≡◌, option_copied, option_map};
ghost use Rattle.schema.specs.Tag.{standard_tag_suffix, tagged_schema, untagged, resolve_scalar, parts_of};
ghost use Rattle.schema.specs.Form.{of_kind};

use crate::integer::parse_core_schema_int;
use crate::plain::{Resolved, integer_or, is_yaml_float, resolve_plain_scalar};
use crate::record::Kind;
use style::Style;

const STANDARD_TAG_HANDLE: &[u8] = b"tag:yaml.org,2002:";

// Names of standard tags. They are compared one after another: a `match` is no plainer, since byte strings in it are told byte by byte in
// the proof, an answer for each: 22 goals in the place of six.
const BOOL: &[u8] = b"bool";

const INT: &[u8] = b"int";

const FLOAT: &[u8] = b"float";

const NULL: &[u8] = b"null";

// A scalar's tag, as its event has it.
#[derive(Clone, Copy, Debug)]
pub struct Tag<'a> {
    pub handle: &'a [u8],
    pub suffix: &'a [u8],
}

// The name of a standard tag; none for any other tag.
pub fn standard_tag_suffix<'a>(handle: &[u8], suffix: &'a [u8]) -> Option<&'a [u8]>
    ensures { option_copied result ≡ standard_tag_suffix handle.now suffix.now }
{
    if handle == STANDARD_TAG_HANDLE {
        Some(suffix)
    } else if handle.is_empty() {
        suffix.strip_prefix(STANDARD_TAG_HANDLE)
    } else {
        None
    }
}

// What an untagged scalar would be, where the tag's kind is its kind.
fn of_kind(resolved: Resolved, kind: Kind) -> Resolved
    ensures { result ≡ of_kind resolved kind }
{
    if resolved.kind() == kind {
        resolved
    } else {
        Resolved::BadValue
    }
}

// A scalar whose standard tag has the name `name`: a misfit is a bad value, a name that is none of the five a string.
pub fn resolve_tagged_scalar(value: &[u8], name: &[u8]) -> Resolved
    ensures { result ≡ tagged_schema name.now value.now }
{
    if name == BOOL {
        of_kind(resolve_plain_scalar(value), Kind::Boolean)
    } else if name == INT {
        integer_or(parse_core_schema_int(value), Resolved::BadValue)
    } else if name == FLOAT {
        if is_yaml_float(value) {
            Resolved::Real
        } else {
            Resolved::BadValue
        }
    } else if name == NULL {
        of_kind(resolve_plain_scalar(value), Kind::Null)
    } else {
        Resolved::Str
    }
}

// A scalar without a standard tag: the core schema reads it if it is plain, else it is a string.
#[tactic(auto, unfolding(crate::specs::Tag::untagged))]
fn resolve_untagged(value: &[u8], style: u8) -> Resolved
    ensures { result ≡ untagged value.now style }
{
    if Style::of(style) == Style::Plain {
        resolve_plain_scalar(value)
    } else {
        Resolved::Str
    }
}

// What a scalar is, by its style, which may be any number, and by its tag, if it has one.
pub fn resolve_scalar(value: &[u8], style: u8, tag: Option<Tag<'_>>) -> Resolved
    ensures { result ≡ resolve_scalar value.now style (option_map parts_of tag.entry) }
{
    match tag.and_then(|t| standard_tag_suffix(t.handle, t.suffix)) {
        Some(name) => resolve_tagged_scalar(value, name),
        None => resolve_untagged(value, style),
    }
}
