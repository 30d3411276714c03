//! Entries found by a value among many.
use crate::dice::Dice;
use crate::script_text::{HOUR, ScriptText};
use std::alloc::{AllocError, Global};

/// How many entries stand, and how many owners they have.
const STANDING: u32 = 20_000;

const OWNERS: u32 = 400;

/// A script of one session with so many searches among many entries: reads by key, an entry taken
/// and written back with another value, keys that nobody has, and any entry of an owner.
pub(crate) fn lookups_script(
    alloc: Global,
    searches: u64,
    seed: u64,
) -> Result<String, AllocError> {
    let mut script = ScriptText::new(alloc);
    let mut dice = Dice::new(seed);
    let session = script.open()?;
    script.say(
        session,
        r#""op":"declare","class":"Item","fields":{"key":"int","owner":"text","count":"int"}"#,
    )?;
    for key in 0..STANDING {
        put(&mut script, &mut dice, session, key)?;
    }
    for _ in 0..searches {
        let key = dice.below(STANDING);
        match dice.below(20) {
            0..9 => find(&mut script, session, "read", key)?,
            9..17 => {
                find(&mut script, session, "take", key)?;
                put(&mut script, &mut dice, session, key)?;
            }
            17..19 => find(
                &mut script,
                session,
                "read_if",
                STANDING.saturating_add(key),
            )?,
            _ => {
                let owner = dice.below(OWNERS);
                script.ask(session)?;
                write!(
                    script.text,
                    r#""op":"read","space":"a","template":{{"class":"Item","fields":{{"owner":"owner {owner}"}}}},"timeout":0"#
                )?;
                script.end()?;
            }
        }
    }
    Ok(script.text)
}

fn put(script: &mut ScriptText, dice: &mut Dice, session: u64, key: u32) -> Result<(), AllocError> {
    let owner = dice.below(OWNERS);
    let count = dice.below(1_000_000);
    script.ask(session)?;
    write!(
        script.text,
        r#""op":"write","space":"a","entry":{{"class":"Item","fields":{{"key":{key},"owner":"owner {owner}","count":{count}}}}},"lease":{HOUR}"#
    )?;
    script.end()
}

fn find(
    script: &mut ScriptText,
    session: u64,
    operation: &str,
    key: u32,
) -> Result<(), AllocError> {
    script.ask(session)?;
    write!(
        script.text,
        r#""op":"{operation}","space":"a","template":{{"class":"Item","fields":{{"key":{key}}}}},"timeout":0"#
    )?;
    script.end()
}
