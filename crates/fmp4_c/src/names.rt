//! The names of the rules and of the answers, and the version.

ghost use Rattle.std.specs.Prelude.{◌≡◌, ◌<◌, ◌≤◌, IsSome, IfSome, length, []};
ghost use Rattle.mp4_box.specs.Rules.{name_of};
ghost use Rattle.mp4_box.specs.Rules as rules;
ghost use Rattle.mp4_box.specs.declared.rules.Rule as kinds;
ghost use Rattle.fmp4_c.specs.Answers.{name_of as answer_name, number_of, version};
ghost use Rattle.fmp4_c.specs.Calls.{zero_ended};
ghost use Rattle.fmp4_c.specs.declared.answer.Answer as answers;

use crate::answer::Answer;
use mp4_stream::Rule;

/// Writes the name of a rule with a zero after it, cut where it doesn't fit: how many bytes the whole name has. Where
/// no rule has this number, it has none.
#[unsafe(no_mangle)]
pub extern "C" fn fmp4_rule_name(rule: u32, name: &mut [u8]) -> usize
    ensures known { 1 ≤ rule → rule ≤ 25 → (r : kinds.Rule) × (rules.number_of r ≡ rule) ×
        (result ≡ length (name_of r)) ×
        (0 < length name.old → name.new ≡ zero_ended (name_of r) name.old) }
    ensures unknown { rule ≡ 0 → (result ≡ 0) ×
        (0 < length name.old → name.new ≡ zero_ended [] name.old) }
    ensures past { 25 < rule → (result ≡ 0) ×
        (0 < length name.old → name.new ≡ zero_ended [] name.old) }
    ensures none { length name.old ≡ 0 → name.new ≡ name.old }
{
    match rule_of(rule) {
        Some(rule) => put_text(rule.name().as_bytes(), name),
        None => put_text(&[], name),
    }
}

/// Writes the name of an answer with a zero after it, cut where it doesn't fit: how many bytes the whole name has.
/// Where no answer has this number, it has none.
#[unsafe(no_mangle)]
pub extern "C" fn fmp4_answer_name(answer: u32, name: &mut [u8]) -> usize
    ensures known { answer ≤ 6 → (a : answers.Answer) × (number_of a ≡ answer) ×
        (result ≡ length (answer_name a)) ×
        (0 < length name.old → name.new ≡ zero_ended (answer_name a) name.old) }
    ensures misuse { 16 ≤ answer → answer ≤ 25 → (a : answers.Answer) × (number_of a ≡ answer) ×
        (result ≡ length (answer_name a)) ×
        (0 < length name.old → name.new ≡ zero_ended (answer_name a) name.old) }
    ensures unknown { 6 < answer → answer < 16 → (result ≡ 0) ×
        (0 < length name.old → name.new ≡ zero_ended [] name.old) }
    ensures past { 25 < answer → (result ≡ 0) ×
        (0 < length name.old → name.new ≡ zero_ended [] name.old) }
    ensures none { length name.old ≡ 0 → name.new ≡ name.old }
{
    match Answer::of_number(answer) {
        Some(answer) => put_text(answer.name().as_bytes(), name),
        None => put_text(&[], name),
    }
}

/// The version of the library, as a million times its first number, a thousand times its second, and its third.
#[unsafe(no_mangle)]
pub extern "C" fn fmp4_version() -> u32
    ensures { result ≡ version }
{
    2000
}

/// Puts a text with a zero after it in the place of the front of a buffer, cut where it doesn't fit: how many bytes it
/// has.
fn put_text(text: &[u8], buffer: &mut [u8]) -> usize
    ensures len { result ≡ length text.now }
    ensures text { 0 < length buffer.old → buffer.new ≡ zero_ended text.now buffer.old }
    ensures none { length buffer.old ≡ 0 → buffer.new ≡ buffer.old }
{
    if buffer.is_empty() {
        return text.len();
    }
    let count = text.len().min(buffer.len() - 1);
    buffer[..count].copy_from_slice(&text[..count]);
    buffer[count] = 0;
    text.len()
}

/// The rule with this number.
fn rule_of(number: u32) -> Option<Rule>
    ensures number { IfSome result (λ r. rules.number_of r ≡ number) }
    ensures some { 1 ≤ number → number ≤ 25 → IsSome result }
{
    Some(match number {
        1 => Rule::Truncated,
        2 => Rule::BadSize,
        3 => Rule::NoMoov,
        4 => Rule::SecondMoov,
        5 => Rule::StrayMdat,
        6 => Rule::MdatMissing,
        7 => Rule::TooLarge,
        8 => Rule::Depth,
        9 => Rule::Missing,
        10 => Rule::Twice,
        11 => Rule::Version,
        12 => Rule::FieldLength,
        13 => Rule::SamplesInMoov,
        14 => Rule::Unsupported,
        15 => Rule::BaseNotMoof,
        16 => Rule::EmptyDuration,
        17 => Rule::FlagsConflict,
        18 => Rule::UnknownTrack,
        19 => Rule::EntryIndex,
        20 => Rule::TooManySamples,
        21 => Rule::TimeRange,
        22 => Rule::RunPlace,
        23 => Rule::IndexRange,
        24 => Rule::SequenceEnd,
        25 => Rule::StreamTooLong,
        _ => return None,
    })
}
