// The words of `replay`.
ghost use Rattle.std.specs.Prelude.{◌≡◌, ◌≤◌, IfOk, IfSome};
ghost use Rattle.clap.specs.Words.{app_of};
ghost use Rattle.words.specs.Reading.{IsRead};
ghost use Rattle.words.specs.Replay.{replay_app, replay_words};

use crate::WordsFault;
use clap::{Arg, ArgAction, Command, value_parser};
use std::alloc::{AllocError, Global};

/// What the words of `replay` ask for.
#[derive(Clone, Copy, Debug, PartialEq, Eq)]
pub struct ReplayWords {
    /// `--brief`: calls are printed by what they are of, and not in full.
    pub brief: bool,
    /// `--gen N`: the input is generated with N runs, in the place of a script. From 0 to 100,000.
    pub generate: Option<u32>,
}

/// Reads the words after the program's name.
pub fn read_replay_words(alloc: Global, words: &[String]) -> Result<ReplayWords, WordsFault>
    ensures exact { IsRead (replay_words words.now) result }
    ensures range { IfOk result (λ w. IfSome w.generate (λ n. n ≤ 100000)) }
{
    let command = replay_command(alloc)?;
    let matches = command.try_get_matches_from(words)?;
    Ok(ReplayWords {
        brief: matches.get_one::<bool>("brief").unwrap_or(false),
        generate: matches.get_one::<u32>("gen"),
    })
}

fn replay_command<'a>(alloc: Global) -> Result<Command<'a>, AllocError>
    ensures { IfOk result (λ c. app_of c ≡ replay_app) }
{
    let brief = Arg::new(alloc, "brief")
        .long("brief")
        .action(ArgAction::SetTrue);
    let generate = Arg::new(alloc, "gen")
        .long("gen")
        .value_parser(value_parser!(u32).range(0..=100_000));
    Command::new(alloc, "replay")
        .no_binary_name(true)
        .disable_help_flag(true)
        .arg(brief)?
        .arg(generate)
}
