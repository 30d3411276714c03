//! Long texts, many at a time.
use crate::dice::Dice;
use crate::script_text::ScriptText;
use std::alloc::{AllocError, Global};

/// What texts are made of. JSON writes some of it as escapes.
const PHRASES: [&str; 12] = [
    "the quick brown fox jumps over the lazy dog ",
    r"a line,\nand another\n",
    r#"she said \"no\" "#,
    r"C:\\temp\\report.txt ",
    "Grüße aus Köln ",
    "価格は千円です ",
    r"tab\tand tab\t",
    "0123456789 0123456789 ",
    r"\u00e9t\u00e9 \ud83d\ude00 ",
    "lorem ipsum dolor sit amet, consectetur adipiscing elit ",
    "{[<&>]} ",
    "and so on, ",
];

/// A script of one session in which documents are written and taken by batches, so many times.
pub(crate) fn documents_script(
    alloc: Global,
    batches: u64,
    seed: u64,
) -> Result<String, AllocError> {
    let mut script = ScriptText::new(alloc);
    let mut dice = Dice::new(seed);
    let session = script.open()?;
    script.say(session, r#""op":"hello","version":2"#)?;
    script.say(
        session,
        r#""op":"declare","class":"Document","fields":{"title":"text","body":"text","pages":"int","draft":"bool"}"#,
    )?;
    for batch in 0..batches {
        write_batch(&mut script, &mut dice, session, batch)?;
        script.say(
            session,
            r#""op":"take_many","space":"a","templates":[{"class":"Document","fields":{"draft":true}},{"class":"Document","fields":{"draft":false}}],"most":16,"timeout":0"#,
        )?;
    }
    Ok(script.text)
}

fn write_batch(
    script: &mut ScriptText,
    dice: &mut Dice,
    session: u64,
    batch: u64,
) -> Result<(), AllocError> {
    script.ask(session)?;
    script
        .text
        .push_str(r#""op":"write_all","space":"a","entries":["#)?;
    let last = dice.below(16);
    for place in 0..=last {
        let pages = dice.below(500);
        let draft = dice.is_once_in(2);
        write!(
            script.text,
            r#"{{"class":"Document","fields":{{"title":"Document {batch}.{place}","pages":{pages},"draft":{draft},"body":""#
        )?;
        let phrases = dice.below(80);
        for _ in 0..phrases {
            if let Some(phrase) = PHRASES.get(dice.below(12) as usize) {
                script.text.push_str(phrase)?;
            }
        }
        script
            .text
            .push_str(if place == last { r#""}}"# } else { r#""}},"# })?;
    }
    script.text.push_str(r#"],"lease":60000"#)?;
    script.end()
}
