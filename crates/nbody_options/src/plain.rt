//! The plain form of a command line.

ghost use Rattle.std.specs.Prelude.{◌≡◌, ◌<◌, ◌==◌, ◌∷◌, IfOk, IfSome, is_some, length, map, option_map, position, string_bytes};
ghost use Rattle.std.specs.Str.{bytes_eq};
ghost use Rattle.nbody_options.specs.Plain.{cut_at, given_by, is_value, meant, name_of, named_value, option_named};

use octant_code::OutOfMemory;
use std::alloc::Global;

/// The name under which the command is given.
pub const COMMAND: &str = "command";

/// The names of the options.
pub const OPTION_NAMES: [&str; 10] = [
    "builder", "workers", "steps", "theta", "eps2", "g", "probe", "count", "seed", "shape",
];

fn is_value(word: &[u8]) -> bool
    ensures { result ≡ is_value word.now }
{
    match word {
        [] => false,
        [first, ..] => *first != b'-',
    }
}

// Whether a word is a name after two hyphens.
fn has_name(word: &[u8], name: &[u8]) -> bool
    ensures { result ≡ bytes_eq word.now (45 ∷ 45 ∷ name.now) }
{
    match word {
        [b'-', b'-', rest @ ..] => rest == name,
        _ => false,
    }
}

// The name, of some names, that a word is after two hyphens.
fn name_of(word: &[u8], names: &[&'static str]) -> Option<&'static [u8]>
    ensures { option_map (λ s. s.now) result ≡ name_of word.now (map (λ name. name.now) names.now) }
{
    for name in names {
        if has_name(word, name.as_bytes()) {
            return Some(name.as_bytes());
        }
    }
    None
}

// The option that a word names.
#[tactic(auto, unfolding(crate::specs::Plain::option_names))]
fn option_named(word: &[u8]) -> Option<&'static [u8]>
    ensures { option_map (λ s. s.now) result ≡ option_named word.now }
{
    name_of(word, OPTION_NAMES.as_slice())
}

// The option that stands before the place `at`, with the value that stands after it.
fn cut_at(word: &[u8], at: usize) -> Option<(&'static [u8], &[u8])>
    requires { at < length word.now }
    ensures { option_map (λ p. (p.0.now, p.1.now)) result ≡ cut_at word.entry.now at }
{
    match option_named(&word[..at]) {
        Some(name) => Some((name, &word[at + 1..])),
        None => None,
    }
}

// The place of the first `=`.
fn equals_at(word: &[u8]) -> Option<usize>
    ensures place { result ≡ position (λ b. b == 61) word.now }
    ensures within { IfSome result (λ at. at < length word.now) }
{
    word.iter().position(|b| *b == b'=')
}

// The option and the value of a word that joins them by `=`.
fn named_value(word: &[u8]) -> Option<(&'static [u8], &[u8])>
    ensures { option_map (λ p. (p.0.now, p.1.now)) result ≡ named_value word.entry.now }
{
    match equals_at(word) {
        Some(at) => cut_at(word, at),
        None => None,
    }
}

// The name that a word is about, and the value that it gives for it.
fn meant<'a>(waits: Option<&'static [u8]>, word: &'a [u8]) -> (&'static [u8], Option<&'a [u8]>)
    ensures { (result.0.now, option_map (λ s. s.now) result.1) ≡ meant (option_map (λ s. s.now) waits.entry) word.entry.now }
{
    if let Some(name) = waits {
        return (name, Some(word));
    }
    if let Some(name) = option_named(word) {
        return (name, None);
    }
    match named_value(word) {
        Some((name, value)) => (name, Some(value)),
        None => (COMMAND.as_bytes(), Some(word)),
    }
}

/// Whether the words have the plain form: one command, and options with their values, each at most
/// once, in any order.
pub fn is_plain(alloc: Global, words: &[String]) -> Result<bool, OutOfMemory>
    ensures { IfOk result (λ plain. plain ≡ is_some (given_by (map string_bytes words.now))) }
{
    let mut given: Vec<&[u8]> = Vec::new(alloc);
    let mut waits: Option<&[u8]> = None;
    for word in words {
        let (name, value) = meant(waits, word.as_bytes());
        match value {
            None => waits = Some(name),
            Some(value) => {
                if !is_value(value) || given.contains(&name) {
                    return Ok(false);
                }
                if given.push(name).is_err() {
                    return Err(OutOfMemory);
                }
                waits = None;
            }
        }
    }
    Ok(waits.is_none() && given.contains(&COMMAND.as_bytes()))
}
