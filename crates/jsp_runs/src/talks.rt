//! What lines say. What each is sent was worked out by the rules of the protocol.
use crate::lines::Talk;
use crate::watch::Answer;

// A line that asks nothing and waits for nothing.
pub(crate) const QUIET: Talk = Talk {
    asks: &[],
    answers: &[],
    first_read: None,
    last_read: None,
    first_write: None,
};

pub(crate) const SPACES: Talk = Talk {
    asks: &[r#"{"id":1,"op":"spaces"}"#],
    answers: &[r#"{"id":1,"ok":["a","b"]}"#],
    ..QUIET
};

pub(crate) const DECLARE: &str = r#"{"id":1,"op":"declare","class":"Job","fields":{"n":"int"}}"#;

pub(crate) const WRITE: &str =
    r#"{"id":2,"op":"write","space":"a","entry":{"class":"Job","fields":{"n":1}},"lease":1000}"#;

// A take that finds an entry, since it is held until that is written.
pub(crate) const FINDS: [Talk; 2] = [
    Talk {
        asks: &[
            r#"{"id":7,"op":"take","space":"a","template":{"class":"Job","fields":{"n":1}},"timeout":1000}"#,
        ],
        answers: &[r#"{"id":7,"ok":{"class":"Job","fields":{"n":1}}}"#],
        ..QUIET
    },
    Talk {
        asks: &[DECLARE, WRITE],
        answers: &[
            r#"{"id":1,"ok":null}"#,
            r#"{"id":2,"ok":{"lease":1,"ms":1000}}"#,
        ],
        ..QUIET
    },
];

// A write once the line that waits for it has had its first answer.
const WRITES_LATER: Talk = Talk {
    asks: &[DECLARE, WRITE],
    answers: &[
        r#"{"id":1,"ok":null}"#,
        r#"{"id":2,"ok":{"lease":2,"ms":1000}}"#,
    ],
    first_read: Some(Answer { session: 1, nth: 1 }),
    ..QUIET
};

// A take that waits until another line writes, and whose line ends no earlier than it is answered.
pub(crate) const WAITS: [Talk; 2] = [
    Talk {
        asks: &[
            r#"{"id":7,"op":"take","space":"a","template":null,"timeout":1000}"#,
            r#"{"id":8,"op":"spaces"}"#,
        ],
        answers: &[
            r#"{"id":8,"ok":["a","b"]}"#,
            r#"{"id":7,"ok":{"class":"Job","fields":{"n":1}}}"#,
        ],
        last_read: Some(Answer { session: 1, nth: 2 }),
        ..QUIET
    },
    WRITES_LATER,
];

// The same, but its line asks for something more once the take is answered.
pub(crate) const ASKS_ON: [Talk; 2] = [
    Talk {
        asks: &[
            r#"{"id":7,"op":"take","space":"a","template":null,"timeout":1000}"#,
            r#"{"id":8,"op":"spaces"}"#,
            r#"{"id":9,"op":"spaces"}"#,
        ],
        answers: &[
            r#"{"id":8,"ok":["a","b"]}"#,
            r#"{"id":7,"ok":{"class":"Job","fields":{"n":1}}}"#,
            r#"{"id":9,"ok":["a","b"]}"#,
        ],
        ..QUIET
    },
    WRITES_LATER,
];
