//! The operations, with the members of each: what a line is checked against, and what `help`
//! prints.

/// What a member's value is, in JSON and in the words of a short form.
#[derive(Clone, Copy, PartialEq, Eq)]
pub(crate) enum Shape {
    Text,
    Number,
    /// An object from a field's name to its kind: words `field:kind`.
    Kinds,
    /// An entry: the class, and words `field=value`.
    Entry,
    /// A template: as an entry; null where there is no word, or `*`.
    Template,
    /// Entries, with commas between them.
    Entries,
    /// Templates, with commas between them.
    Templates,
    /// Pairs of a lease and a time: words `lease:ms`.
    Pairs,
    Numbers,
}

/// What a short form that doesn't name a member has in its place.
#[derive(Clone, Copy, PartialEq, Eq)]
pub(crate) enum Usual {
    /// It is left out, as it may be in JSON too.
    Nothing,
    Number(i64),
    EmptyText,
}

/// Where a short form has a member.
#[derive(Clone, Copy, PartialEq, Eq)]
pub(crate) enum Place {
    /// It is the next word.
    Word,
    /// It is all words that are nothing else.
    Rest,
    /// It is a word `name=value`, anywhere.
    Named(Usual),
}

/// A member of a request's JSON.
#[derive(Clone, Copy)]
pub(crate) struct Member {
    pub(crate) name: &'static str,
    /// Another name in short forms.
    pub(crate) also: Option<&'static str>,
    pub(crate) shape: Shape,
    pub(crate) place: Place,
}

/// What a request is for.
#[derive(Clone, Copy, PartialEq, Eq)]
pub enum Purpose {
    /// To declare a class.
    Declare,
    /// To find entries, which there may be none of.
    Search,
    /// To be told of entries until that is ended.
    Watch,
    /// To list entries. It opens a match set, whose pages are asked for afterwards.
    List,
    /// To leave the session at once.
    Bye,
    /// To leave the session once all is answered. Nothing is sent for it then.
    Quit,
    /// All else.
    Other,
}

/// An operation and its members beside `id` and `op`.
pub(crate) struct Form {
    /// Its name in short forms.
    pub(crate) name: &'static str,
    /// Another name in short forms.
    pub(crate) also: Option<&'static str>,
    /// The operation of the protocol that is asked.
    pub(crate) op: &'static str,
    pub(crate) purpose: Purpose,
    pub(crate) members: &'static [Member],
    /// What it does.
    pub(crate) about: &'static str,
    /// A line in its short form.
    pub(crate) example: &'static str,
}

impl Member {
    /// Whether a short form means it by this name.
    pub(crate) fn is_named(&self, name: &str) -> bool {
        matches!(self.place, Place::Named(_)) && (self.name == name || self.also == Some(name))
    }

    /// Whether a request may be without it.
    pub(crate) fn is_optional(&self) -> bool {
        self.place == Place::Named(Usual::Nothing)
    }
}

impl Form {
    /// The member that stands in this place among those that are words, counted from 0.
    pub(crate) fn word(&self, place: usize) -> Option<&'static Member> {
        self.members
            .iter()
            .filter(|member| member.place == Place::Word)
            .nth(place)
    }

    /// The member that short forms mean by this name.
    pub(crate) fn named(&self, name: &str) -> Option<&'static Member> {
        self.members.iter().find(|member| member.is_named(name))
    }

    /// The member whose JSON has this name.
    pub(crate) fn member(&self, name: &str) -> Option<&'static Member> {
        self.members.iter().find(|member| member.name == name)
    }
}

/// The form of an operation, by either name.
pub(crate) fn form_of(name: &str) -> Option<&'static Form> {
    FORMS
        .iter()
        .find(|form| form.name == name || form.also == Some(name))
}

/// A member: its name, its other name where it has one, its shape and its place.
macro_rules! member {
    ($name:literal, $shape:ident, $place:expr) => {
        Member {
            name: $name,
            also: None,
            shape: Shape::$shape,
            place: $place,
        }
    };
    ($name:literal | $also:literal, $shape:ident, $place:expr) => {
        Member {
            name: $name,
            also: Some($also),
            shape: Shape::$shape,
            place: $place,
        }
    };
}

const SPACE: Member = member!("space", Text, Place::Word);

const CLASS: Member = member!("class", Text, Place::Word);

const PARENT: Member = member!("parent", Text, Place::Named(Usual::Nothing));

const FIELDS: Member = member!("fields", Kinds, Place::Rest);

const ENTRY: Member = member!("entry", Entry, Place::Rest);

const ENTRIES: Member = member!("entries", Entries, Place::Rest);

const TEMPLATE: Member = member!("template", Template, Place::Rest);

const TEMPLATES: Member = member!("templates", Templates, Place::Rest);
// The time that is asked for; -1 leaves it to the server.
const ASKED: Member = member!("lease", Number, Place::Named(Usual::Number(-1)));
// The same where it is as long as a server grants.
const LONGEST: Member = member!("lease", Number, Place::Named(Usual::Number(3_600_000)));

const TIMEOUT: Member = member!("timeout" | "wait", Number, Place::Named(Usual::Number(0)));
// The transaction that it is done under.
const UNDER: Member = member!("txn", Number, Place::Named(Usual::Nothing));

const HANDBACK: Member = member!("handback", Text, Place::Named(Usual::EmptyText));

const MOST: Member = member!("most", Number, Place::Named(Usual::Number(16)));

const LEASE: Member = member!("lease", Number, Place::Word);

const MS: Member = member!("ms", Number, Place::Word);

const RENEWALS: Member = member!("leases", Pairs, Place::Rest);

const LEASES: Member = member!("leases", Numbers, Place::Rest);

const TXN: Member = member!("txn", Number, Place::Word);

const SET: Member = member!("set", Number, Place::Word);

const VERSION: Member = member!("version", Number, Place::Word);

/// A form: its name, its other name where it has one, the operation that it asks where that has
/// another name, what it is for where that matters to the client, its members, what it does, and an
/// example.
macro_rules! form {
    ($name:literal, $members:expr, $about:literal, $example:literal) => {
        form!($name, None, $name, Other, $members, $about, $example)
    };
    ($name:literal for $purpose:ident, $members:expr, $about:literal, $example:literal) => {
        form!($name, None, $name, $purpose, $members, $about, $example)
    };
    ($name:literal | $also:literal, $members:expr, $about:literal, $example:literal) => {
        form!($name, Some($also), $name, Other, $members, $about, $example)
    };
    ($name:literal asks $op:literal for $purpose:ident, $members:expr, $about:literal, $example:literal) => {
        form!($name, None, $op, $purpose, $members, $about, $example)
    };
    ($name:literal, $also:expr, $op:literal, $purpose:ident, $members:expr, $about:literal, $example:literal) => {
        Form {
            name: $name,
            also: $also,
            op: $op,
            purpose: Purpose::$purpose,
            members: &$members,
            about: $about,
            example: $example,
        }
    };
}

/// Every operation of the protocol, and behind them the client's own, none of which the protocol's
/// JSON has.
pub(crate) static FORMS: [Form; 27] = [
    form!(
        "declare" for Declare,
        [CLASS, FIELDS, PARENT],
        "declares a class; a kind is int, text or bool",
        "declare Job k:int who:text"
    ),
    form!(
        "write",
        [SPACE, ENTRY, ASKED, UNDER],
        "writes an entry, for so many milliseconds; -1 leaves the time to the server",
        "write a Job k=1 who=ann lease=60000"
    ),
    form!(
        "read" for Search,
        [SPACE, TEMPLATE, TIMEOUT, UNDER],
        "reads an entry that matches, or waits for one",
        "read a Job k=1 timeout=5000"
    ),
    form!(
        "take" for Search,
        [SPACE, TEMPLATE, TIMEOUT, UNDER],
        "takes an entry that matches, or waits for one",
        "take a Job k=1 timeout=5000"
    ),
    form!(
        "read_if" for Search,
        [SPACE, TEMPLATE, TIMEOUT, UNDER],
        "reads an entry if there is one; waits only while a transaction holds it",
        "read_if a Job k=1 timeout=5000"
    ),
    form!(
        "take_if" for Search,
        [SPACE, TEMPLATE, TIMEOUT, UNDER],
        "takes an entry if there is one; waits only while a transaction holds it",
        "take_if a Job k=1 timeout=5000"
    ),
    form!(
        "renew",
        [LEASE, MS],
        "renews a lease, from now on; -1 leaves the time to the server",
        "renew 5 60000"
    ),
    form!(
        "cancel",
        [LEASE],
        "cancels a lease: its entry goes, its events end, its transaction is aborted",
        "cancel 5"
    ),
    form!(
        "renew_all",
        [RENEWALS],
        "renews leases one by one",
        "renew_all 5:60000 6:-1"
    ),
    form!(
        "cancel_all",
        [LEASES],
        "cancels leases one by one",
        "cancel_all 5 6"
    ),
    form!(
        "notify",
        [SPACE, TEMPLATE, ASKED, HANDBACK, UNDER],
        "asks for an event of each matching entry that is written",
        "notify a Job k=1 lease=60000 handback=jobs"
    ),
    form!(
        "txn" | "begin",
        [ASKED],
        "begins a transaction; the lease that is answered is its number",
        "begin lease=60000"
    ),
    form!(
        "state",
        [TXN],
        "says whether a transaction is active or voting",
        "state 3"
    ),
    form!("commit", [TXN], "commits a transaction", "commit 3"),
    form!("abort", [TXN], "aborts a transaction", "abort 3"),
    form!(
        "reset",
        [SPACE],
        "empties a space, as after a crash",
        "reset a"
    ),
    form!("spaces", [], "names the spaces", "spaces"),
    form!(
        "bye" for Bye,
        [],
        "ends the session, and gives up what it waits for",
        "bye"
    ),
    form!(
        "hello",
        [VERSION],
        "sets the version of the protocol, which is 2 from the start",
        "hello 2"
    ),
    form!(
        "write_all",
        [SPACE, ENTRIES, ASKED, UNDER],
        "writes entries, all or none",
        "write_all a Job k=1, Job k=2 lease=60000"
    ),
    form!(
        "take_many" for Search,
        [SPACE, TEMPLATES, MOST, TIMEOUT, UNDER],
        "takes entries that match any of the templates",
        "take_many a Job k=1, Job k=2 most=16 timeout=5000"
    ),
    form!(
        "contents",
        [SPACE, TEMPLATE, ASKED, UNDER],
        "opens a match set, to list what matches",
        "contents a Job lease=60000"
    ),
    form!(
        "next",
        [SET, MOST],
        "gives the next page of a match set",
        "next 7 most=16"
    ),
    form!("close_set", [SET], "closes a match set", "close_set 7"),
    form!(
        "list" asks "contents" for List,
        [SPACE, TEMPLATE, LONGEST, UNDER],
        "prints the entries that match, a line each, and then that it is done",
        "list a Job k=1"
    ),
    form!(
        "watch" asks "notify" for Watch,
        [SPACE, TEMPLATE, LONGEST, HANDBACK, UNDER],
        "prints an event of each matching entry that is written, for as long as the lease says",
        "watch a Job k=1"
    ),
    form!(
        "quit" asks "bye" for Quit,
        [],
        "ends the session once all is answered, as the end of the input does",
        "quit"
    ),
];
