//! The names of classes and fields.
ghost use Rattle.std.specs.Prelude.{◌≡◌};
ghost use Rattle.std.specs.List.{list_all};
ghost use Rattle.jsp_types.specs.Classes.{is_name_byte, is_name, has_name, are_distinct};

use crate::Text;

/// How many bytes a name may have.
const MOST_NAME: usize = 64;

/// Whether the byte may stand in a name: a letter, a digit, `_`, `.` or `$`.
fn is_name_byte(byte: u8) -> bool
    ensures { result ≡ is_name_byte byte }
{
    byte.is_ascii_alphanumeric() || byte == b'_' || byte == b'.' || byte == b'$'
}

/// Whether only such bytes stand in it.
fn has_name_bytes(name: &str) -> bool
    ensures { result ≡ list_all is_name_byte name.now }
{
    name.as_bytes().iter().all(|byte| is_name_byte(*byte))
}

/// Whether it is a name: 1 to 64 ASCII letters, digits, `_`, `.` or `$` (this profile's own rule).
pub(crate) fn is_name(name: &str) -> bool
    ensures { result ≡ is_name name.now }
{
    !name.is_empty() && name.len() <= MOST_NAME && has_name_bytes(name)
}

/// Whether a field of that name is there.
pub(crate) fn has_name<V>(fields: &[(Text, V)], name: &str) -> bool
    ensures { result ≡ has_name fields.now name.now }
{
    fields.iter().any(|field| field.0.is(name))
}

/// Whether no name stands twice.
pub(crate) fn are_distinct<V>(fields: &[(Text, V)]) -> bool
    ensures { result ≡ are_distinct fields.now }
{
    let mut left = fields;
    while let [first, rest @ ..] = left {
        if has_name(rest, first.0.as_str()) {
            return false;
        }
        left = rest;
    }
    true
}
