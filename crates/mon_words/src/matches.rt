//! What clap reads in the words behind a command.
ghost use Rattle.std.specs.Prelude.{◌≡◌, IfOk, IfErr, IfSome, MatchResult, true, false, map, string_bytes, option_map};
ghost use Rattle.std.specs.Str.Parse.{digits_value};
ghost use Rattle.clap.specs.Words.{app_of, first_of, found_of, rows_of};
ghost use Rattle.mon_words.specs.Apps.{app_for, required_ids};
ghost use Rattle.mon_words.specs.Needs.{IsStrict, NeedsEach};
ghost use Rattle.mon_words.specs.Options.{has_number, id_of, is_in_range};
ghost use Rattle.mon_words.specs.Values.{Explains, IsBare, IsNamed, is_refused, is_taken, number_or, rest_of, rows_in};

use crate::app::{
    central_app, check_app, child_app, drill_app, generate_app, measure_app, place_app, total_app,
};
use crate::numeral::number;
use crate::{Command, Opt, UsageFault, WordsFault};
use clap::ArgMatches;
use clap::error::ErrorKind;
use std::alloc::{AllocError, Global};

/// What clap reads in the words behind the command, or why it doesn't.
pub(crate) fn matches_in<'a>(
    alloc: Global,
    command: Command,
    words: &'a [String],
) -> Result<ArgMatches<'a>, WordsFault>
    ensures taken { IfOk result (λ _. is_taken command (map string_bytes words.now) ≡ true) }
    ensures rows { IfOk result (λ matches. rows_of (found_of matches) ≡ rows_in command (map string_bytes words.now)) }
    ensures named { IfOk result (λ _. IsNamed command (rows_in command (map string_bytes words.now))) }
    ensures bare { IfOk result (λ _. IsBare command (rows_in command (map string_bytes words.now))) }
    ensures refused { IfErr result (Explains (rest_of command (map string_bytes words.now))) }
{
    let Ok(app) = app_for(alloc, command) else {
        return Err(WordsFault::Memory);
    };
    match app.try_get_matches_from(words) {
        Ok(matches) => Ok(matches),
        Err(error) => match error.kind() {
            ErrorKind::OutOfMemory => Err(WordsFault::Memory),
            _ => Err(WordsFault::Usage(UsageFault::Refused)),
        },
    }
}

// The words behind the command, as clap is told of them.
fn app_for<'a>(alloc: Global, command: Command) -> Result<clap::Command<'a>, AllocError>
    ensures app { IfOk result (λ app. app_of app ≡ app_for command) }
    ensures strict { IfOk result IsStrict }
    ensures needs { IfOk result (NeedsEach (required_ids command)) }
{
    match command {
        Command::Total => total_app(alloc),
        Command::Central => central_app(alloc),
        Command::Measure => measure_app(alloc),
        Command::Place => place_app(alloc),
        Command::Check => check_app(alloc),
        Command::Child => child_app(alloc),
        Command::Generate => generate_app(alloc),
        Command::Drill => drill_app(alloc),
    }
}

/// The text that is given for this id.
pub(crate) fn text_of<'a>(matches: &ArgMatches<'a>, id: &str) -> Option<&'a str>
    ensures text { option_map (λ text. text.now) result ≡ first_of id.now (rows_of (found_of matches.now)) }
{
    matches.get_str(id)
}

/// The number of an option, where it is not given the default.
pub(crate) fn number_or(
    matches: &ArgMatches<'_>,
    command: Command,
    option: Opt,
    default: u64,
) -> Result<u64, WordsFault>
    requires numeric { has_number option ≡ true }
    requires range { is_in_range command option default ≡ true }
    ensures taken { MatchResult result
        (λ _. is_refused command (rows_of (found_of matches.now)) option ≡ false)
        (λ _. is_refused command (rows_of (found_of matches.now)) option ≡ true) }
    ensures number { IfOk result (λ number. number ≡ number_or (rows_of (found_of matches.now)) option default) }
    ensures range { IfOk result (λ number. is_in_range command option number ≡ true) }
    ensures fault { IfErr result (λ fault. fault ≡ WordsFault.Usage (UsageFault.Value option)) }
{
    match number_given(matches, command, option) {
        Ok(Some(number)) => Ok(number),
        Ok(None) => Ok(default),
        Err(fault) => Err(fault),
    }
}

/// The number of an option, None where it is not given.
pub(crate) fn number_given(
    matches: &ArgMatches<'_>,
    command: Command,
    option: Opt,
) -> Result<Option<u64>, WordsFault>
    requires numeric { has_number option ≡ true }
    ensures taken { MatchResult result
        (λ _. is_refused command (rows_of (found_of matches.now)) option ≡ false)
        (λ _. is_refused command (rows_of (found_of matches.now)) option ≡ true) }
    ensures number { IfOk result (λ number. number
        ≡ option_map (digits_value 10) (first_of (id_of option) (rows_of (found_of matches.now)))) }
    ensures range { IfOk result (λ number. IfSome number (λ n. is_in_range command option n ≡ true)) }
    ensures fault { IfErr result (λ fault. fault ≡ WordsFault.Usage (UsageFault.Value option)) }
{
    let Some(value) = text_of(matches, option.id()) else {
        return Ok(None);
    };
    match number(value) {
        Some(number) if option.takes(command, number) => Ok(Some(number)),
        _ => Err(WordsFault::Usage(UsageFault::Value(option))),
    }
}
