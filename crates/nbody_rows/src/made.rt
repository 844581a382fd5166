//! Runs over hundreds and thousands of made bodies.

ghost use Rattle.std.specs.Prelude.{◌<◌, ◌↔◌, All, IsTrue};

use crate::serving::{gives, run_with, sure_ends};
use bh_plain::plain_text;
use nbody_cli::Status;
use scene_file::{read_scene, scene_text};
use std::alloc::Global;
use std::test::Fail;

/// Whether all numbers are below a count.
fn are_below(numbers: &[u32], count: u32) -> bool
    ensures { IsTrue result ↔ All (λ n. n < count) numbers.now }
{
    numbers.iter().all(|n| *n < count)
}

/// A scene of so many bodies at places that look drawn, some of them near one another.
pub fn made_scene(alloc: Global, count: u32) -> Result<Vec<u8>, Fail> {
    let mut scene: Vec<u8> = Vec::new(alloc);
    let mut state: u64 = 88_172_645_463_325_252;
    for i in 0..count {
        state = state
            .wrapping_mul(6_364_136_223_846_793_005)
            .wrapping_add(1_442_695_040_888_963_407);
        let near = if i % 3 == 0 { 1 << 10 } else { 1 << 21 };
        let x = (state >> 43) % near;
        let y = (state >> 22) % near;
        let z = (state >> 1) % near;
        let record = format!(in alloc; "body,{},{x},{y},{z}\n", 1 + i % 16)?;
        scene.extend_from_slice(record.as_bytes())?;
    }
    Ok(scene)
}

#[test]
fn the_plain_program_writes_the_same_tree(rt: HostRuntime) -> Result<(), Fail> {
    let alloc = rt.alloc();
    let scene = made_scene(alloc, 300)?;
    let points = read_scene(alloc, &scene)?.bodies.points(alloc)?;
    let numbers: Vec<u32> = (0..points.len()).collect(alloc)?;
    assert!(rt; are_below(&numbers, points.len()));
    let plain = plain_text(alloc, &points, &numbers)?;
    let mut line = b"tree ".to_vec(alloc)?;
    line.extend_from_slice(&plain)?;
    line.push(b'\n')?;
    assert_eq!(rt; points.len(), 300);
    gives(&rt, "tree", &scene, Status::Done, &line)
}

/// The FNV-1a sum of bytes, in 64 bits.
fn fnv_sum(bytes: &[u8]) -> u64 {
    let mut sum: u64 = 0xcbf2_9ce4_8422_2325;
    for byte in bytes {
        sum = (sum ^ u64::from(*byte)).wrapping_mul(0x0100_0000_01b3);
    }
    sum
}

// The length and the sum of the text were worked out by a program in another language, from the
// definitions alone.
#[test]
fn a_frame_of_4096_bodies(rt: HostRuntime) -> Result<(), Fail> {
    let scene = made_scene(rt.alloc(), 4096)?;
    let (status, text) = run_with(&rt, "run --workers 3", &scene, &sure_ends(1 << 20))?;
    assert_eq!(rt; status, Status::Done);
    assert_eq!(rt; text.len(), 293_285);
    assert_eq!(rt; fnv_sum(&text), 0xaf4c_299e_0076_10dc);
    Ok(())
}

#[test]
fn the_text_of_300_bodies_is_what_was_read(rt: HostRuntime) -> Result<(), Fail> {
    let alloc = rt.alloc();
    let text = made_scene(alloc, 300)?;
    let written = scene_text(alloc, &read_scene(alloc, &text)?)?;
    assert!(rt; written.as_slice() == text.as_slice());
    Ok(())
}
