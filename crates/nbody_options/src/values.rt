//! The values of the options.

ghost use Rattle.std.specs.Prelude.{◌≡◌, ◌<◌, ◌≤◌, ◌==◌, ◌-◌, ◌^◌, IfSome, length, option_and_then, option_map, position};
ghost use Rattle.clap.specs.Matches.{first_value, found_of};
ghost use Rattle.nbody_options.specs.Options.{builder_of, choices_of, command_of, decimal_from, given_or, law_of, made_of, plan_of, probe_of, shape_of, theta_at, theta_of};
ghost use Rattle.bh_model.specs.declared.plan.Builder.TheVariants as builder;
ghost use Rattle.nbody_options.specs.declared.options.ProbeChoice.TheVariants as probe;
ghost use Rattle.scene_file.specs.declared.made.Shape.TheVariants as shape;

use crate::options::{Command, Made, Options, ProbeChoice};
use bh_model::{Builder, Law, Plan};
use clap::ArgMatches;
use octant_code::{MOST_BODIES, read_decimal};
use probe::Kind;
use scene_file::Shape;

fn command_of(word: Option<&str>) -> Option<Command>
    ensures { result ≡ option_and_then command_of (option_map (λ s. s.now) word.entry) }
{
    match word {
        Some("tree") => Some(Command::Tree),
        Some("passes") => Some(Command::Passes),
        Some("run") => Some(Command::Run),
        Some("trial") => Some(Command::Trial),
        _ => None,
    }
}

fn builder_of(word: Option<&str>) -> Option<Builder>
    ensures { result ≡ given_or builder.Orig builder_of (option_map (λ s. s.now) word.entry) }
{
    match word {
        None => Some(Builder::Orig),
        Some("orig") => Some(Builder::Orig),
        Some("local") => Some(Builder::Local),
        Some("update") => Some(Builder::Update),
        Some("partree") => Some(Builder::Partree),
        Some("space") => Some(Builder::Space),
        Some(_) => None,
    }
}

fn probe_of(word: Option<&str>) -> Option<ProbeChoice>
    ensures { result ≡ given_or probe.Nobody probe_of (option_map (λ s. s.now) word.entry) }
{
    match word {
        None => Some(ProbeChoice::Nobody),
        Some("none") => Some(ProbeChoice::Nobody),
        Some("all") => Some(ProbeChoice::All),
        Some("balance") => Some(ProbeChoice::Only(Kind::Balance)),
        Some("momentum") => Some(ProbeChoice::Only(Kind::Momentum)),
        Some("first") => Some(ProbeChoice::Only(Kind::First)),
        Some(_) => None,
    }
}

fn shape_of(word: Option<&str>) -> Option<Shape>
    ensures { result ≡ given_or shape.Uniform shape_of (option_map (λ s. s.now) word.entry) }
{
    match word {
        None => Some(Shape::Uniform),
        Some("uniform") => Some(Shape::Uniform),
        Some("corner") => Some(Shape::Corner),
        Some(_) => None,
    }
}

// The number from `least` to `most` that the bytes write in decimal.
fn decimal_from(least: u64, most: u64, bytes: &[u8]) -> Option<u64>
    ensures value { result ≡ decimal_from least most bytes.now }
    ensures least { IfSome result (λ n. least ≤ n) }
    ensures most { IfSome result (λ n. n ≤ most) }
{
    match read_decimal(bytes, most) {
        Ok(n) => { if n < least { None } else { Some(n) } }
        Err(_) => None,
    }
}

// The number of an option, which has a default.
fn decimal_or(default: u64, least: u64, most: u64, word: Option<&str>) -> Option<u64>
    requires least { least ≤ default }
    requires most { default ≤ most }
    ensures value { result ≡ given_or default (decimal_from least most) (option_map (λ s. s.now) word.entry) }
    ensures least { IfSome result (λ n. least ≤ n) }
    ensures most { IfSome result (λ n. n ≤ most) }
{
    match word {
        None => Some(default),
        Some(word) => decimal_from(least, most, word.as_bytes()),
    }
}

// The fraction whose numerator ends at a place.
fn theta_at(bytes: &[u8], at: usize) -> Option<(u32, u32)>
    requires { at < length bytes.now }
    ensures value { result ≡ theta_at bytes.now at }
    ensures within { IfSome result (λ t. (t.0 ≤ 65535) × (1 ≤ t.1) × (t.1 ≤ 65535)) }
{
    match (
        decimal_from(0, 65_535, &bytes[..at]),
        decimal_from(1, 65_535, &bytes[at + 1..]),
    ) {
        (Some(num), Some(den)) => Some((num as u32, den as u32)),
        _ => None,
    }
}

// The place of the first `/`.
fn slash_at(bytes: &[u8]) -> Option<usize>
    ensures place { result ≡ position (λ b. b == 47) bytes.now }
    ensures within { IfSome result (λ at. at < length bytes.now) }
{
    bytes.iter().position(|b| *b == b'/')
}

// Two decimals joined by one `/`.
fn theta_of(word: Option<&str>) -> Option<(u32, u32)>
    ensures value { result ≡ given_or (1, 1) theta_of (option_map (λ s. s.now) word.entry) }
    ensures within { IfSome result (λ t. (t.0 ≤ 65535) × (1 ≤ t.1) × (t.1 ≤ 65535)) }
{
    match word {
        None => Some((1, 1)),
        Some(word) => match slash_at(word.as_bytes()) {
            Some(at) => theta_at(word.as_bytes(), at),
            None => None,
        },
    }
}

/// The greatest square of the softening length.
const MOST_EPS2: u64 = 17_592_186_044_415;

/// The greatest constant of attraction.
const MOST_G: u64 = 1_099_511_627_776;

fn law_of(matches: &ArgMatches) -> Option<Law>
    ensures { result ≡ law_of (first_value (found_of matches.now)) }
{
    let theta = theta_of(matches.get_str("theta"));
    let eps2 = decimal_or(0, 0, MOST_EPS2, matches.get_str("eps2"));
    let g = decimal_or(4_294_967_296, 0, MOST_G, matches.get_str("g"));
    match (theta, eps2, g) {
        (Some((theta_num, theta_den)), Some(eps2), Some(g)) => Some(Law {
            theta_num,
            theta_den,
            eps2,
            g,
        }),
        _ => None,
    }
}

fn plan_of(matches: &ArgMatches) -> Option<Plan>
    ensures { result ≡ plan_of (first_value (found_of matches.now)) }
{
    let builder = builder_of(matches.get_str("builder"));
    let workers = decimal_or(1, 1, 64, matches.get_str("workers"));
    let law = law_of(matches);
    match (builder, workers, law) {
        (Some(builder), Some(workers), Some(law)) => Some(Plan {
            builder,
            workers: workers as u32,
            law,
        }),
        _ => None,
    }
}

fn made_of(matches: &ArgMatches) -> Option<Made>
    ensures value { result ≡ made_of (first_value (found_of matches.now)) }
    ensures within { IfSome result (λ m. m.count ≤ MOST_BODIES) }
{
    let count = decimal_or(1000, 0, u64::from(MOST_BODIES), matches.get_str("count"));
    let seed = decimal_or(0, 0, u64::MAX, matches.get_str("seed"));
    let shape = shape_of(matches.get_str("shape"));
    match (count, seed, shape) {
        (Some(count), Some(seed), Some(shape)) => Some(Made {
            count: count as u32,
            seed,
            shape,
        }),
        _ => None,
    }
}

/// The choices of the values that were found, where each keeps its rule.
#[tactic(auto, unfolding(crate::specs::Options::choices_of))]
pub fn choices_of(matches: &ArgMatches) -> Option<Options>
    ensures { result ≡ choices_of (first_value (found_of matches.now)) }
{
    let command = command_of(matches.get_str("command"));
    let plan = plan_of(matches);
    let steps = decimal_or(1, 1, 10_000, matches.get_str("steps"));
    let probe = probe_of(matches.get_str("probe"));
    let made = made_of(matches);
    match (command, plan, steps, probe, made) {
        (Some(command), Some(plan), Some(steps), Some(probe), Some(made)) => Some(Options {
            command,
            plan,
            steps: steps as u32,
            probe,
            made,
        }),
        _ => None,
    }
}
