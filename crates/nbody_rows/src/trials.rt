//! Trials: scenes that are made and run, and told by the figures of their last frame.

use crate::serving::{Ends, gives, run_with, sure_ends};
use nbody_cli::Status;
use std::process::Abort;
use std::sync::Wait;
use std::test::Fail;
use std::thread::Threads;

#[test]
fn trials_of_few_bodies(rt: HostRuntime) -> Result<(), Fail> {
    let rows: [(&str, &[u8]); 4] = [
        (
            "trial --count 0 --workers 3",
            b"trial 0 seed 0 shape uniform steps 1\ncells 0 depth 0\ncost 0 greatest 0 met 0\npush 0 0 0\n",
        ),
        (
            "trial --count 1",
            b"trial 1 seed 0 shape uniform steps 1\ncells 0 depth 0\ncost 1 greatest 1 met 0\npush 0 0 0\n",
        ),
        (
            "trial --count 1 --seed 007 --steps 3",
            b"trial 1 seed 7 shape uniform steps 3\ncells 0 depth 0\ncost 1 greatest 1 met 0\npush 0 0 0\n",
        ),
        (
            "trial --count 2 --seed 0 --shape corner",
            b"trial 2 seed 0 shape corner steps 1\ncells 7 depth 7\ncost 2 greatest 2 met 2\npush 1 0 0\n",
        ),
    ];
    // The source holds no scene, and isn't read.
    for (line, text) in rows {
        gives(&rt, line, b"star,1,0,0,0\n", Status::Done, text)?;
    }
    Ok(())
}

#[test]
fn a_trial_asks_nothing_of_its_source(rt: HostRuntime) -> Result<(), Fail> {
    let ends = Ends {
        failing_reads: &[0, 1, 2],
        ..sure_ends(100)
    };
    let (status, _) = run_with(&rt, "trial --count 3", b"", &ends)?;
    assert_eq!(rt; status, Status::Done);
    Ok(())
}

/// These words give this text with each builder.
fn tells<R: Abort + AllocGlobal + Threads + Wait + Sync>(
    rt: &R,
    line: &str,
    text: &[u8],
) -> Result<(), Fail> {
    for builder in ["orig", "local", "update", "partree", "space"] {
        let words = format!(in rt.alloc(); "{line} --builder {builder}")?;
        gives(rt, &words, b"", Status::Done, text)?;
    }
    Ok(())
}

// The figures were worked out by a program in another language, from the definitions alone.
#[test]
fn three_frames_of_64_bodies(rt: HostRuntime) -> Result<(), Fail> {
    tells(
        &rt,
        "trial --count 64 --seed 7 --steps 3 --workers 1",
        b"trial 64 seed 7 shape uniform steps 3\ncells 17 depth 3\ncost 1452 greatest 1452 met 1388\npush 8 -1 1\n",
    )?;
    tells(
        &rt,
        "trial --count 64 --seed 7 --steps 3 --workers 3",
        b"trial 64 seed 7 shape uniform steps 3\ncells 17 depth 3\ncost 1452 greatest 518 met 1388\npush 8 -1 1\n",
    )?;
    tells(
        &rt,
        "trial --count 64 --seed 7 --steps 3 --workers 8",
        b"trial 64 seed 7 shape uniform steps 3\ncells 17 depth 3\ncost 1452 greatest 202 met 1388\npush 8 -1 1\n",
    )
}

// Bodies that move: the second frame has other terms than the first, and the third other sums.
#[test]
fn three_frames_of_bodies_that_move(rt: HostRuntime) -> Result<(), Fail> {
    tells(
        &rt,
        "trial --count 1000 --seed 7 --shape corner --steps 3 --workers 3 --theta 2/1 --g 1099511627776",
        b"trial 1000 seed 7 shape corner steps 3\ncells 416 depth 10\ncost 23387 greatest 7813 met 22387\npush -81188608 1061344026 -288258681\n",
    )
}

#[test]
fn a_trial_of_4096_bodies(rt: HostRuntime) -> Result<(), Fail> {
    let line = "trial --count 4096 --seed 7 --shape corner --workers 8";
    let (status, text) = run_with(&rt, line, b"", &sure_ends(1000))?;
    assert_eq!(rt; status, Status::Done);
    let mut lines = text.split(|byte| *byte == b'\n');
    assert!(rt; lines.next() == Some(b"trial 4096 seed 7 shape corner steps 1".as_slice()));
    assert!(rt; lines.next().is_some());
    assert!(rt;
        lines
            .next()
            .is_some_and(|costs| costs.starts_with(b"cost 4096 greatest 512 met "))
    );
    tells(&rt, line, &text)
}
