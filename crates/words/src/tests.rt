use crate::{ReplayWords, WordsFault, read_replay_words};
use std::alloc::Global;
use std::process::Abort;
use std::test::Fail;

// The words of a row, with a `|` after each.
fn words_of(alloc: Global, row: &str) -> Result<Vec<String>, Fail> {
    let mut words = Vec::new(alloc);
    let mut rest = row;
    for _word in 0..row.len() {
        let Some((word, next)) = rest.split_once("|") else {
            break;
        };
        words.push(String::from_str(alloc, word)?)?;
        rest = next;
    }
    Ok(words)
}

/// Words, with a `|` after each, and what they ask for.
const TAKEN: &str = r#" => full
--brief| => brief
--gen|5| => full 5
--gen=5| => full 5
--gen|0| => full 0
--gen|100000| => full 100000
--gen|05| => full 5
--gen|+5| => full 5
--gen=-0| => full 0
--gen|5|--brief| => brief 5
--brief|--gen=7| => brief 7
--| => full
--brief|--| => brief
"#;

/// Words that aren't those of replay, with a `|` after each.
const REFUSED: &str = r#"--gen|100001|
--gen|x|
--gen|
--gen=|
--gen||
--gen|-1|
--gen|-0|
--gen=-1|
--gen|5|6|
--gen|1|--gen|1|
--gen|--brief|
--gen=99999999999999999999|
--ge|1|
--brief|--brief|
--brief|x|
--brief=true|
--brief=|
--bri|
--Brief|
-b|
-|
x|
|
--|x|
--|--brief|
--help|
-h|
help|
--version|
"#;

// How a result is shown in a row.
fn shown(alloc: Global, words: &ReplayWords) -> Result<String, Fail> {
    let form = if words.brief { "brief" } else { "full" };
    Ok(match words.generate {
        Some(count) => format!(in alloc; "{form} {count}")?,
        None => String::from_str(alloc, form)?,
    })
}

fn reads(rt: &(impl Abort + AllocGlobal), row: &str, wanted: &str) -> Result<(), Fail> {
    let words = words_of(rt.alloc(), row)?;
    let read = read_replay_words(rt.alloc(), &words)?;
    assert_eq!(rt; shown(rt.alloc(), &read)?.as_str(), wanted);
    Ok(())
}

#[test]
fn words_are_taken(rt: HostRuntime) -> Result<(), Fail> {
    for row in TAKEN.lines() {
        let Some((words, wanted)) = row.split_once(" => ") else {
            return Err(Fail::new("no row"));
        };
        reads(&rt, words, wanted)?;
    }
    assert_eq!(rt; TAKEN.lines().count(), 13);
    Ok(())
}

#[test]
fn words_are_refused(rt: HostRuntime) -> Result<(), Fail> {
    for row in REFUSED.lines() {
        let words = words_of(rt.alloc(), row)?;
        assert_eq!(rt;
            read_replay_words(rt.alloc(), &words),
            Err(WordsFault::Usage)
        );
    }
    assert_eq!(rt; REFUSED.lines().count(), 29);
    Ok(())
}
