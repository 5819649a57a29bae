//! The command line, as words.
ghost use Rattle.std.specs.Prelude.{◌≡◌, ◌≤◌, ◌<◌, ◌^◌, ◌↔◌, false, Some, None, IfOk, IfErr, IfSome, codes, map, string_bytes};
ghost use Rattle.clap.specs.Words.{app_of, found_of, kind_of, rows_of, rule_of};
ghost use Rattle.clap.specs.declared.builder.command.Command.TheViews.{out-Command};
ghost use Rattle.fmp4_program.specs.Words.{IsAllowed, IsInRange, MayCut, command_of, flag_rule, has_flag, invocation_of, limits_app, needed_number, number_if, number_in, number_or, options_of, program_app, samples_of, settings_app, settings_of, split_app, valued_rule};

use crate::asked::{Invocation, Settings, SplitOptions};
use clap::error::ErrorKind;
use clap::{Arg, ArgAction, ArgMatches, Command, Error};
use std::alloc::{AllocError, Global};

/// Why there is no command to carry out.
#[derive(Clone, Copy, Debug, PartialEq, Eq)]
pub enum NoCommand {
    /// The words ask for nothing that this program does; a call for help is among these.
    BadWords,
    /// The memory ran out before the words were understood.
    Memory,
}

fn number_in(text: &str, least: u64, most: u64) -> Option<u64>
    ensures value { result ≡ number_in least most text.now }
    ensures low { IfSome result (λ number. least ≤ number) }
    ensures high { IfSome result (λ number. number ≤ most) }
{
    match text.parse::<u64>() {
        Ok(number) if least <= number && number <= most => Some(number),
        _ => None,
    }
}

fn number_or(
    matches: &ArgMatches<'_>,
    id: &str,
    default_value: u64,
    least: u64,
    most: u64,
) -> Option<u64>
    requires low { least ≤ default_value }
    requires high { default_value ≤ most }
    ensures value { result ≡ number_or default_value least most id.now (rows_of (found_of matches.now)) }
    ensures low { IfSome result (λ number. least ≤ number) }
    ensures high { IfSome result (λ number. number ≤ most) }
{
    match matches.get_str(id) {
        Some(text) => number_in(text, least, most),
        None => Some(default_value),
    }
}

fn settings_from(matches: &ArgMatches<'_>) -> Option<Settings>
    ensures value { result ≡ settings_of (rows_of (found_of matches.now)) }
    ensures ranges { IfSome result IsAllowed }
{
    let copy = number_or(matches, "copy", 65536, 4096, 1048576)?;
    let max_held = number_or(matches, "max-held", 536870912, 1, 1 << 62)?;
    Some(Settings {
        copy: copy as u32,
        max_held,
    })
}

fn needed_number(matches: &ArgMatches<'_>, id: &str, least: u64, most: u64) -> Option<u64>
    ensures value { result ≡ needed_number least most id.now (rows_of (found_of matches.now)) }
    ensures low { IfSome result (λ number. least ≤ number) }
    ensures high { IfSome result (λ number. number ≤ most) }
{
    match matches.get_str(id) {
        Some(entered) => number_in(entered, least, most),
        None => None,
    }
}

fn number_if(matches: &ArgMatches<'_>, id: &str, least: u64, most: u64) -> Option<Option<u64>>
    ensures value { result ≡ number_if least most id.now (rows_of (found_of matches.now)) }
    ensures low { IfSome result (λ found. IfSome found (λ number. least ≤ number)) }
    ensures high { IfSome result (λ found. IfSome found (λ number. number ≤ most)) }
{
    match matches.get_str(id) {
        Some(text) => match number_in(text, least, most) {
            Some(number) => Some(Some(number)),
            None => None,
        },
        None => Some(None),
    }
}

fn has_flag(matches: &ArgMatches<'_>, id: &str) -> bool
    ensures { result ≡ has_flag id.now (rows_of (found_of matches.now)) }
{
    match matches.get_str(id) {
        Some(text) => text == "true",
        None => false,
    }
}

fn samples_from(matches: &ArgMatches<'_>, has_duration: bool) -> Option<u64>
    ensures value { result ≡ samples_of has_duration (rows_of (found_of matches.now)) }
    ensures low { IfSome result (λ number. 1 ≤ number) }
    ensures high { IfSome result (λ number. number ≤ 1000000) }
{
    if has_duration {
        return number_or(matches, "samples", 1_000_000, 1, 1_000_000);
    }
    needed_number(matches, "samples", 1, 1_000_000)
}

fn in_32_bits(number: Option<u64>) -> Option<u32>
    requires { IfSome number (λ n. n < 2 ^ 32) }
    ensures { result ≡ number }
{
    match number {
        Some(number) => Some(number as u32),
        None => None,
    }
}

fn options_from(matches: &ArgMatches<'_>) -> Option<SplitOptions>
    ensures value { result ≡ options_of (rows_of (found_of matches.now)) }
    ensures ranges { IfSome result MayCut }
{
    let duration = number_if(matches, "duration", 1, 4_294_967_295)?;
    let samples = samples_from(matches, duration.is_some())?;
    let bytes = number_if(matches, "bytes", 1, 1 << 62)?;
    let index = has_flag(matches, "index");
    let sync = has_flag(matches, "sync");
    let keyframes = has_flag(matches, "keyframes");
    if sync && keyframes {
        return None;
    }
    Some(SplitOptions {
        samples: samples as u32,
        bytes,
        duration: in_32_bits(duration),
        index,
        sync,
        keyframes,
    })
}

fn invocation_from(name: &str, matches: &ArgMatches<'_>) -> Option<Invocation>
    ensures value { result ≡ invocation_of name.now (rows_of (found_of matches.now)) }
    ensures ranges { IfSome result IsInRange }
{
    if name == "boxes" {
        return Some(Invocation::Boxes(settings_from(matches)?));
    }
    if name == "samples" {
        return Some(Invocation::Samples(settings_from(matches)?));
    }
    if name == "fragments" {
        return Some(Invocation::Fragments(settings_from(matches)?));
    }
    if name == "check" {
        return Some(Invocation::Check(settings_from(matches)?));
    }
    if name == "split" {
        let settings = settings_from(matches)?;
        let options = options_from(matches)?;
        return Some(Invocation::Split(settings, options));
    }
    None
}

fn valued_option<'a>(alloc: Global, name: &'a str) -> Arg<'a>
    ensures rule { rule_of result ≡ valued_rule name.entry.now }
    ensures local { result.global ≡ false }
{
    Arg::new(alloc, name).long(name).action(ArgAction::Set)
}

fn flag<'a>(alloc: Global, name: &'a str) -> Arg<'a>
    ensures rule { rule_of result ≡ flag_rule name.entry.now }
    ensures local { result.global ≡ false }
{
    Arg::new(alloc, name).long(name).action(ArgAction::SetTrue)
}

fn settings_command<'a>(alloc: Global, name: &'a str) -> Result<Command<'a>, AllocError>
    ensures app { IfOk result (λ command. app_of command ≡ settings_app name.entry.now) }
    ensures local { IfOk result (λ command. (out-Command command).has_globals ≡ false) }
{
    Command::new(alloc, name)
        .arg(valued_option(alloc, "copy"))?
        .arg(valued_option(alloc, "max-held"))
}

fn limits_command<'a>(alloc: Global) -> Result<Command<'a>, AllocError>
    ensures app { IfOk result (λ command. app_of command ≡ limits_app) }
    ensures local { IfOk result (λ command. (out-Command command).has_globals ≡ false) }
{
    let settings = settings_command(alloc, "split")?;
    let samples = settings.arg(valued_option(alloc, "samples"))?;
    let bytes = samples.arg(valued_option(alloc, "bytes"))?;
    bytes.arg(valued_option(alloc, "duration"))
}

fn split_command<'a>(alloc: Global) -> Result<Command<'a>, AllocError>
    ensures app { IfOk result (λ command. app_of command ≡ split_app) }
    ensures local { IfOk result (λ command. (out-Command command).has_globals ≡ false) }
{
    let limits = limits_command(alloc)?;
    let index = limits.arg(flag(alloc, "index"))?;
    let sync = index.arg(flag(alloc, "sync"))?;
    sync.arg(flag(alloc, "keyframes"))
}

fn program_command<'a>(alloc: Global) -> Result<Command<'a>, AllocError>
    ensures { IfOk result (λ command. app_of command ≡ program_app) }
{
    let boxes = settings_command(alloc, "boxes")?;
    let samples = settings_command(alloc, "samples")?;
    let fragments = settings_command(alloc, "fragments")?;
    let check = settings_command(alloc, "check")?;
    let split = split_command(alloc)?;
    let listing_boxes = Command::new(alloc, "fmp4").subcommand(boxes)?;
    let listing_samples = listing_boxes.subcommand(samples)?;
    let listing_fragments = listing_samples.subcommand(fragments)?;
    let checking = listing_fragments.subcommand(check)?;
    checking.subcommand(split)
}

fn no_command_by(error: &Error) -> NoCommand
    ensures { (result ≡ NoCommand.Memory) ↔ (kind_of error.now ≡ ErrorKind.OutOfMemory) }
{
    match error.kind() {
        ErrorKind::OutOfMemory => NoCommand::Memory,
        _ => NoCommand::BadWords,
    }
}

/// Reads what the words ask for. The first word is the name that the program was started by.
pub fn read_words(alloc: Global, words: &[String]) -> Result<Invocation, NoCommand>
    ensures ok { IfOk result (λ asked. command_of (map string_bytes words.now) ≡ Some asked) }
    ensures ranges { IfOk result IsInRange }

    // Nothing is said of the words where the memory ran out.
    ensures err { IfErr result (λ why. why ≡ NoCommand.BadWords → command_of
        (map string_bytes words.now) ≡ None) }
{
    let Ok(command) = program_command(alloc) else {
        return Err(NoCommand::Memory);
    };
    match command.try_get_matches_from(words) {
        Ok(matches) => match matches.subcommand() {
            Some(entered) => match invocation_from(entered.0, entered.1) {
                Some(asked) => Ok(asked),
                None => Err(NoCommand::BadWords),
            },
            None => Err(NoCommand::BadWords),
        },
        Err(error) => Err(no_command_by(&error)),
    }
}
