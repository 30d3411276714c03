//! JSON as a tree that borrows the payload's texts.
ghost use Rattle.std.specs.Prelude.{◌≡◌, option_map, is_some};
ghost use Rattle.serde_json.specs.Find.{get, get_member, as_null, as_str, as_array, as_object};
ghost use Rattle.jsp_wire.specs.Parts.{number_of};
ghost use Rattle.jsp_wire.specs.Tree.{view, items_view, members_view};

use serde_json::Number;

/// The members of an object, as they were written: of a key that comes twice the last value counts.
pub(crate) type Members<'a> = Vec<(&'a str, Tree<'a>)>;

/// A JSON value. Its texts are those of the payload, or of the reader's scratch space where they
/// have escapes.
#[derive(Drop)]
pub(crate) enum Tree<'a> {
    Null,
    Bool(bool),
    Number(Number),
    Text(&'a str),
    List(Vec<Tree<'a>>),
    Object(Members<'a>),
}

impl<'a> Tree<'a> {
    pub(crate) fn is_null(&self) -> bool
        ensures { result ≡ is_some (as_null (view self.now)) }
    {
        matches!(self, Tree::Null)
    }

    pub(crate) fn as_str(&self) -> Option<&'a str>
        ensures { option_map (λ s. s.now) result ≡ as_str (view self.now) }
    {
        if let Tree::Text(text) = self {
            Some(*text)
        } else {
            None
        }
    }

    /// The number, where it is an integer from -2^63 up to 2^63 - 1.
    pub(crate) fn as_i64(&self) -> Option<i64>
        ensures { result ≡ number_of (view self.now) }
    {
        if let Tree::Number(number) = self {
            number.as_i64()
        } else {
            None
        }
    }

    pub(crate) fn as_array(&self) -> Option<&[Tree<'a>]>
        ensures { option_map (λ v. items_view v.now) result ≡ as_array (view self.now) }
    {
        if let Tree::List(items) = self {
            Some(items.as_slice())
        } else {
            None
        }
    }

    pub(crate) fn as_object(&self) -> Option<&[(&'a str, Tree<'a>)]>
        ensures { option_map (λ m. members_view m.now) result ≡ as_object (view self.now) }
    {
        if let Tree::Object(members) = self {
            Some(members.as_slice())
        } else {
            None
        }
    }

    /// The member of that name, where this is an object.
    pub(crate) fn get(&self, name: &str) -> Option<&Tree<'a>>
        ensures { option_map (λ t. view t.now) result ≡ get name.now (view self.now) }
    {
        if let Tree::Object(members) = self {
            member(members.as_slice(), name)
        } else {
            None
        }
    }
}

/// The last value of that name.
fn member<'t, 'a>(members: &'t [(&'a str, Tree<'a>)], name: &str) -> Option<&'t Tree<'a>>
    ensures { option_map (λ t. view t.now) result
        ≡ get_member name.now (members_view members.now) }
{
    let mut left = members.len();
    'back: while left > 0 {
        left -= 1;
        let (key, tree) = &members[left];
        if *key == name {
            return Some(tree);
        }
    }
    None
}
