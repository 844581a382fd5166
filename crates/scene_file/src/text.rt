//! The text of a scene.

ghost use Rattle.std.specs.Prelude.{◌≡◌, ◌∷◌, ◌++◌, ◌<◌, ◌^◌, All, IfOk, Ok, OnOk, decimal, flat_map};
ghost use Rattle.scene_file.specs.Scene.{scene_of};
ghost use Rattle.scene_file.specs.Text.{body_text, move_text, pass_text, record_text, text_of_scene};

use crate::bodies::{Bodies, Body};
use crate::moves::Move;
use crate::passes::Passes;
use crate::scene::Scene;
use itoa::Buffer;
use octant_code::{OutOfMemory, Point};
use std::alloc::Global;

// Appends a comma and a number.
fn push_number(text: &mut Vec<u8>, number: u32) -> Result<(), OutOfMemory>
    ensures { OnOk result (text.new.items ≡ text.old.items ++ (44 ∷ decimal number)) }
{
    let mut buffer = Buffer::new();
    text.push(b',')?;
    text.extend_from_slice(buffer.format(number).as_bytes())?;
    Ok(())
}

// Appends a record of a word, a number and a point.
fn push_record(text: &mut Vec<u8>, word: &[u8], number: u32, at: Point) -> Result<(), OutOfMemory>
    ensures { OnOk result (text.new.items ≡ text.old.items ++ record_text word.now number at) }
{
    text.extend_from_slice(word)?;
    push_number(text, number)?;
    push_number(text, at.x)?;
    push_number(text, at.y)?;
    push_number(text, at.z)?;
    text.push(b'\n')?;
    Ok(())
}

// Appends the record of a body.
fn push_body(text: &mut Vec<u8>, body: &Body) -> Result<(), OutOfMemory>
    ensures { OnOk result (text.new.items ≡ text.old.items ++ body_text body.now) }
{
    push_record(text, b"body", body.mass, body.at)
}

// Appends the record of a move.
fn push_move(text: &mut Vec<u8>, step: &Move) -> Result<(), OutOfMemory>
    ensures { OnOk result (text.new.items ≡ text.old.items ++ move_text step.now) }
{
    push_record(text, b"move", step.body, step.to)
}

// Appends the records of a pass.
fn push_pass(text: &mut Vec<u8>, moves: &[Move]) -> Result<(), OutOfMemory>
    ensures { OnOk result (text.new.items ≡ text.old.items ++ pass_text moves.now) }
{
    for step in moves {
        push_move(text, step)?;
    }
    text.extend_from_slice(b"pass\n")?;
    Ok(())
}

// Appends the records of bodies.
fn push_bodies(text: &mut Vec<u8>, bodies: &Bodies) -> Result<(), OutOfMemory>
    ensures text { OnOk result (text.new.items ≡ text.old.items ++ flat_map body_text bodies.now) }
    ensures masses { OnOk result (All (λ b. b.mass < 2 ^ 32) bodies.now) }
{
    for n in 0..bodies.len() {
        push_body(text, &bodies.get(n))?;
    }
    Ok(())
}

// Appends the records of passes.
fn push_passes(text: &mut Vec<u8>, passes: &Passes) -> Result<(), OutOfMemory>
    ensures { OnOk result (text.new.items ≡ text.old.items ++ flat_map pass_text passes.now) }
{
    for i in 0..passes.len() {
        push_pass(text, passes.pass(i))?;
    }
    Ok(())
}

/// The text of a scene: the records of its bodies in the order of their numbers, and then those of
/// each pass, its moves in their order and its end. Each has its line end, and numbers have no leading
/// zeros. It is read as the same scene.
pub fn scene_text(alloc: Global, scene: &Scene) -> Result<Vec<u8>, OutOfMemory>
    ensures value { IfOk result (λ text. text.items ≡ text_of_scene scene.now) }
    ensures read_back { IfOk result (λ text. scene_of text.items ≡ Ok scene.now) }
{
    let mut text = Vec::new(alloc);
    push_bodies(&mut text, &scene.bodies)?;
    push_passes(&mut text, &scene.passes)?;
    Ok(text)
}
