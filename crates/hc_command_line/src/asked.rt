// What a command line asks for.
ghost use Rattle.std.specs.Prelude.{◌≡◌, ◌≢◌, ℕ, Option, map, IfOk, IfErr, IfSome, MatchOption};
ghost use Rattle.std.specs.List.{list_any};
ghost use Rattle.std.specs.String.{string_bytes};
ghost use Rattle.std.specs.Fmt.{decimal};
ghost use Rattle.hc_command_line.specs.Asked.{AsksFor, IsCount, is_beyond, is_dashes};
ghost use Rattle.hc_command_line.specs.declared.asked.Unread.TheVariants.{NoMemory, Wrong};

use clap::error::ErrorKind;
use clap::{Arg, Command};
use hc_trace_text::number;
use std::alloc::{AllocError, Global};
use std::env::Env;
use std::{env, io};

/// Why a command line isn't followed.
#[derive(Clone, Copy, PartialEq, Eq, Debug)]
pub enum Unread {
    /// It is neither `hc_replay` nor `hc_replay --clients N`.
    Wrong,
    NoMemory,
}

impl From<AllocError> for Unread {
    ghost from_gives = { λ _ e. e ≡ NoMemory };

    fn from(_error: AllocError) -> Unread {
        Unread::NoMemory
    }
}

// How many clients the text names: 1 to 64, in decimal digits of which no zero leads.
fn count_in(text: &str) -> Option<u8>
    ensures { MatchOption result ((n : ℕ) → IsCount n → text.now ≢ decimal n) (λ n. IsCount n × (text.now ≡ decimal n)) }
{
    let count = number(text.as_bytes())?;
    if count > 0 && count <= 64 {
        Some(count as u8)
    } else {
        None
    }
}

// Whether a word is `--`, which clap takes for the end of the options.
fn has_dashes(words: &[String]) -> bool
    ensures { result ≡ list_any (λ word. is_dashes (string_bytes word)) words.now }
{
    words.iter().any(|word| word.as_str() == "--")
}

// Whether there are more words behind the program's name than any command line that is followed has, or one is `--`.
fn are_beyond(words: &[String]) -> bool
    ensures { result ≡ is_beyond string_bytes words.now }
{
    match words {
        [] => false,
        [_, rest @ ..] => rest.len() > 2 || has_dashes(rest),
    }
}

/// By how many clients these words, of which the first is the program's name, ask for the replay. None are named where it
/// is by one, line by line.
pub fn clients_in(alloc: Global, words: &[String]) -> Result<Option<u8>, Unread>
    ensures asked { IfOk result (AsksFor (map string_bytes words.now)) }
    ensures wrong { IfErr result (λ why. why ≡ Wrong → (clients : Option ℕ) → AsksFor (map string_bytes words.now) clients → ⊥) }
{
    if are_beyond(words) {
        return Err(Unread::Wrong);
    }
    let option = Arg::new(alloc, "clients").long("clients");
    let command = Command::new(alloc, "hc_replay")
        .disable_help_flag(true)
        .arg(option)?;
    match command.try_get_matches_from(words) {
        Ok(matches) => match matches.get_str("clients") {
            Some(text) => match count_in(text) {
                Some(count) => Ok(Some(count)),
                None => Err(Unread::Wrong),
            },
            None => Ok(None),
        },
        Err(error) if error.kind() == ErrorKind::OutOfMemory => Err(Unread::NoMemory),
        Err(_) => Err(Unread::Wrong),
    }
}

/// The same of the program's own command line. One that isn't text is wrong.
pub fn clients<R: Env + AllocGlobal>(rt: &R) -> Result<Option<u8>, Unread>
    ensures { IfOk result (λ clients. IfSome clients IsCount) }
{
    match env::args(rt) {
        Ok(words) => {
            let words: Vec<String> = words.collect(rt.alloc())?;
            clients_in(rt.alloc(), &words)
        }
        Err(error) if error.kind() == io::ErrorKind::OutOfMemory => Err(Unread::NoMemory),
        Err(_) => Err(Unread::Wrong),
    }
}
