//! The options of a few lines of words.

use bh_model::{Builder, Law, Plan};
use nbody_options::{Command, Made, Options, OptionsFault, ProbeChoice, Shape, read_options};
use std::process::Abort;
use std::test::Fail;

/// What the words have.
fn read<R: AllocGlobal>(rt: &R, texts: &[&str]) -> Result<Result<Options, OptionsFault>, Fail> {
    let alloc = rt.alloc();
    let mut words: Vec<String> = Vec::new(alloc);
    for text in texts {
        words.push(String::from_str(alloc, text)?)?;
    }
    Ok(read_options(alloc, &words))
}

/// Each of these lines of words has no options, or each has some.
fn each_is_usage<R: Abort + AllocGlobal>(
    rt: &R,
    rows: &[&[&str]],
    wanted: bool,
) -> Result<(), Fail> {
    for words in rows {
        let usage = read(rt, words)? == Err(OptionsFault::Usage);
        assert!(rt; usage == wanted);
    }
    Ok(())
}

#[test]
fn options_have_their_values_and_defaults(rt: HostRuntime) -> Result<(), Fail> {
    let words = &["--workers", "064", "tree", "--theta=3/2", "--seed", "7"];
    let options = read(&rt, words)?.expect(&rt, "options");
    let law = Law {
        theta_num: 3,
        theta_den: 2,
        eps2: 0,
        g: 4_294_967_296,
    };
    let plan = Plan {
        builder: Builder::Orig,
        workers: 64,
        law,
    };
    let made = Made {
        count: 1000,
        seed: 7,
        shape: Shape::Uniform,
    };
    assert!(rt; options.plan == plan);
    assert!(rt; options.made == made);
    assert_eq!(rt; options.command, Command::Tree);
    assert_eq!(rt; options.steps, 1);
    assert_eq!(rt; options.probe, ProbeChoice::Nobody);
    Ok(())
}

/// Words with a value that breaks its rule.
const BROKEN: &[&[&str]] = &[
    &["tree", "--workers", "65"],
    &["tree", "--workers", "0"],
    &["tree", "--theta", "1"],
    &["tree", "--theta", "1/0"],
    &["tree", "--theta", "1/1/1"],
    &["tree", "--g", "-1"],
    &["tree", "--probe", "nothing"],
    &["tree", "--workers==3"],
    &["walk"],
];

#[test]
fn values_that_break_their_rule_are_refused(rt: HostRuntime) -> Result<(), Fail> {
    each_is_usage(&rt, BROKEN, true)
}

/// Words out of the plain form.
const NOT_PLAIN: &[&[&str]] = &[
    &[],
    &["run", "--workers"],
    &["--help"],
    &["tree", "--help"],
    &["--", "tree"],
    &["tree", "--workers="],
    &["tree", "--workers", "2", "--workers=2"],
    &["tree", "--work", "2"],
    &["tree", "tree"],
];

#[test]
fn words_out_of_the_plain_form_are_refused(rt: HostRuntime) -> Result<(), Fail> {
    each_is_usage(&rt, NOT_PLAIN, true)
}

/// Words with options.
const SERVED: &[&[&str]] = &[
    &["trial"],
    &["tree", "--probe", "all"],
    &["run", "--workers", "3"],
    &["passes", "--builder", "space"],
    &["run", "--steps", "10000"],
    // an option that its command does not use
    &["tree", "--steps", "2"],
    &["tree", "--builder", "local"],
    &["tree", "--builder", "partree"],
    &["passes", "--builder", "update"],
    &["run", "--builder", "space"],
    &[
        "tree",
        "--builder=orig",
        "--steps",
        "001",
        "--probe",
        "none",
        "--count",
        "65536",
        "--shape",
        "corner",
    ],
];

#[test]
fn each_command_builder_and_probe_has_options(rt: HostRuntime) -> Result<(), Fail> {
    each_is_usage(&rt, SERVED, false)
}
