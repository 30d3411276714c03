//! What of an entry or a template doesn't fit its class.
use std::fmt;
use thiserror::Error;

/// The kind of a field's values.
#[derive(Debug, Clone, Copy, PartialEq, Eq)]
pub enum Kind {
    Int,
    Text,
    Bool,
}

impl fmt::Display for Kind {
    fn fmt<W: fmt::Write>(&self, f: &mut fmt::Formatter<W>) -> fmt::Result {
        match self {
            Kind::Int => write!(f, "int"),
            Kind::Text => write!(f, "text"),
            Kind::Bool => write!(f, "bool"),
        }
    }
}

/// What of an entry or a template doesn't fit its class.
#[derive(Debug, Drop, Error)]
pub enum Misfit {
    #[error("`{class}` has no field `{field}`")]
    NoField {
        class: String,
        field: String,
    },
    /// The same, where another name is near to the field's: of a field, or of a member of the form.
    #[error("`{class}` has no field `{field}`; did you mean `{meant}=`?")]
    Misspelt {
        class: String,
        field: String,
        meant: String,
    },
    #[error("`{field}` of `{class}` is {kind}")]
    OtherKind {
        class: String,
        field: String,
        kind: Kind,
    },
}
