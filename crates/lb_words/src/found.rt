// What the words give for each argument of the command.
ghost use Rattle.std.specs.Prelude.{◌≡◌, ℕ, codes, option_map, option_and_then, IfSome, IfNone};
ghost use Rattle.clap.specs.Words.{found_of, first_of, rows_of};
ghost use Rattle.lb_words.specs.Words.{IsNumber, IsNumberOr, is_used, mode_named};

use crate::job::Mode;
use clap::ArgMatches;

// The mode of these that is named.
pub fn mode_in(matches: &ArgMatches, modes: &[Mode]) -> Option<Mode>
    ensures { result ≡ option_and_then (mode_named modes.now)
        (first_of (codes "mode") (rows_of (found_of matches.now))) }
{
    let word = text_of(matches, "mode")?;
    mode_named(word, modes)
}

// The first of the modes that has this name.
fn mode_named(word: &str, modes: &[Mode]) -> Option<Mode>
    ensures { result ≡ mode_named modes.now word.now }
{
    modes.iter().copied().find(|mode| mode.name() == word)
}

// The number of an option, `missing` where it isn't given.
pub fn number_of(
    matches: &ArgMatches,
    name: &str,
    least: u32,
    most: u32,
    missing: u32,
) -> Option<u32>
    ensures found { IfSome result
        (IsNumberOr least most missing (first_of name.now (rows_of (found_of matches.now)))) }
    ensures none { IfNone result ((n : ℕ) → ¬ (IsNumberOr least most missing
        (first_of name.now (rows_of (found_of matches.now))) n)) }
{
    match text_of(matches, name) {
        Some(text) => number(text, least, most),
        None => Some(missing),
    }
}

// A number in its range.
fn number(text: &str, least: u32, most: u32) -> Option<u32>
    ensures found { IfSome result (IsNumber least most text.now) }
    ensures none { IfNone result ((n : ℕ) → ¬ (IsNumber least most text.now n)) }
{
    let Ok(n) = text.parse::<u32>() else {
        return None;
    };
    if n < least || n > most {
        return None;
    }
    Some(n)
}

// Whether an option without a value is given.
pub fn is_used(matches: &ArgMatches, name: &str) -> bool
    ensures { result ≡ is_used name.now (rows_of (found_of matches.now)) }
{
    match text_of(matches, name) {
        Some(text) => text == "true",
        None => false,
    }
}

// The text that is found for an argument.
fn text_of<'a>(matches: &ArgMatches<'a>, name: &str) -> Option<&'a str>
    ensures { option_map (λ text. text.now) result
        ≡ first_of name.now (rows_of (found_of matches.now)) }
{
    matches.get_str(name)
}
