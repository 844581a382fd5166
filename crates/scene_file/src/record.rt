//! What one record says.

ghost use Rattle.std.specs.Prelude.{◌≡◌, ◌<◌, ◌≤◌, IfOk};
ghost use Rattle.csv.specs.Records.{fields_of};
ghost use Rattle.octant_code.specs.Space.{IsInCube};
ghost use Rattle.scene_file.specs.Scene.{are_numbers, body_from, body_of, entry_of, move_from, move_of, point_from};
ghost use Rattle.scene_file.specs.Scene.{field_number, is_body, is_move, is_no_number, is_pass};
ghost use Rattle.scene_file.specs.Entries.{IsSound};

use crate::bodies::Body;
use crate::entry::Entry;
use crate::fault::SceneFault;
use crate::moves::Move;
use csv::ByteRecord;
use octant_code::{NumberFault, Point, read_decimal};

const MOST_MASS: u64 = 4_294_967_295;

const MOST_NUMBER: u64 = 65_535;

const MOST_COORDINATE: u64 = 2_097_151;

// The number of at most `max` in a field. A field that the record doesn't have reads as an empty one.
fn field_number(row: &ByteRecord, n: usize, max: u64) -> Result<u64, NumberFault>
    ensures value { result ≡ field_number (fields_of row.now) n max }
    ensures range { IfOk result (λ v. v ≤ max) }
{
    read_decimal(row.get(n).unwrap_or(b""), max)
}

// Whether a record is one of a body, by the number of its fields and its first field.
fn is_body(row: &ByteRecord) -> bool
    ensures { result ≡ is_body (fields_of row.now) }
{
    row.len() == 5 && row.get(0).unwrap_or(b"") == b"body".as_slice()
}

// Whether a record is one of a move.
fn is_move(row: &ByteRecord) -> bool
    ensures { result ≡ is_move (fields_of row.now) }
{
    row.len() == 5 && row.get(0).unwrap_or(b"") == b"move".as_slice()
}

// Whether a record is one of the end of a pass.
fn is_pass(row: &ByteRecord) -> bool
    ensures { result ≡ is_pass (fields_of row.now) }
{
    row.len() == 1 && row.get(0).unwrap_or(b"") == b"pass".as_slice()
}

// Whether a field isn't written in digits.
fn is_no_number(field: Result<u64, NumberFault>) -> bool
    ensures { result ≡ is_no_number field }
{
    match field {
        Err(NumberFault::NotDigits) => true,
        _ => false,
    }
}

// The fault of the first of the fields 2 to 5 that is no number.
fn are_numbers(
    number: u32,
    first: Result<u64, NumberFault>,
    x: Result<u64, NumberFault>,
    y: Result<u64, NumberFault>,
    z: Result<u64, NumberFault>,
) -> Result<(), SceneFault>
    ensures { result ≡ are_numbers number first x y z }
{
    if is_no_number(first) {
        return Err(SceneFault::BadNumber(number, 2));
    }
    if is_no_number(x) {
        return Err(SceneFault::BadNumber(number, 3));
    }
    if is_no_number(y) {
        return Err(SceneFault::BadNumber(number, 4));
    }
    if is_no_number(z) {
        return Err(SceneFault::BadNumber(number, 5));
    }
    Ok(())
}

// The point of the fields 3 to 5.
fn point_from(
    number: u32,
    x: Result<u64, NumberFault>,
    y: Result<u64, NumberFault>,
    z: Result<u64, NumberFault>,
) -> Result<Point, SceneFault>
    requires x { IfOk x (λ n. n ≤ 2097151) }
    requires y { IfOk y (λ n. n ≤ 2097151) }
    requires z { IfOk z (λ n. n ≤ 2097151) }
    ensures value { result ≡ point_from number x y z }
    ensures inside { IfOk result IsInCube }
{
    let Ok(x) = x else {
        return Err(SceneFault::OutOfRange(number, 3));
    };
    let Ok(y) = y else {
        return Err(SceneFault::OutOfRange(number, 4));
    };
    let Ok(z) = z else {
        return Err(SceneFault::OutOfRange(number, 5));
    };
    Ok(Point {
        x: x as u32,
        y: y as u32,
        z: z as u32,
    })
}

// The body of a mass and a point.
fn body_from(
    number: u32,
    mass: Result<u64, NumberFault>,
    at: Result<Point, SceneFault>,
) -> Result<Body, SceneFault>
    requires mass { IfOk mass (λ n. n ≤ 4294967295) }
    requires inside { IfOk at IsInCube }
    ensures value { result ≡ body_from number mass at }
    ensures massive { IfOk result (λ body. 0 < body.mass) }
    ensures inside { IfOk result (λ body. IsInCube body.at) }
{
    match mass {
        Ok(mass) if mass > 0 => match at {
            Ok(at) => Ok(Body {
                mass: mass as u32,
                at,
            }),
            Err(fault) => Err(fault),
        },
        _ => Err(SceneFault::OutOfRange(number, 2)),
    }
}

// The move of a body's number and a point.
fn move_from(
    number: u32,
    body: Result<u64, NumberFault>,
    to: Result<Point, SceneFault>,
) -> Result<Move, SceneFault>
    requires body { IfOk body (λ n. n ≤ 65535) }
    requires inside { IfOk to IsInCube }
    ensures value { result ≡ move_from number body to }
    ensures inside { IfOk result (λ step. IsInCube step.to) }
{
    match body {
        Ok(body) => match to {
            Ok(to) => Ok(Move {
                body: body as u32,
                to,
            }),
            Err(fault) => Err(fault),
        },
        Err(_) => Err(SceneFault::OutOfRange(number, 2)),
    }
}

// The body of a record, whose number is told. Which fields are numbers is asked before any range.
fn read_body(number: u32, row: &ByteRecord) -> Result<Body, SceneFault>
    ensures value { result ≡ body_of number (fields_of row.now) }
    ensures massive { IfOk result (λ body. 0 < body.mass) }
    ensures inside { IfOk result (λ body. IsInCube body.at) }
{
    let mass = field_number(row, 1, MOST_MASS);
    let x = field_number(row, 2, MOST_COORDINATE);
    let y = field_number(row, 3, MOST_COORDINATE);
    let z = field_number(row, 4, MOST_COORDINATE);
    match are_numbers(number, mass, x, y, z) {
        Ok(()) => body_from(number, mass, point_from(number, x, y, z)),
        Err(fault) => Err(fault),
    }
}

// The move of a record, whose number is told.
fn read_move(number: u32, row: &ByteRecord) -> Result<Move, SceneFault>
    ensures value { result ≡ move_of number (fields_of row.now) }
    ensures inside { IfOk result (λ step. IsInCube step.to) }
{
    let body = field_number(row, 1, MOST_NUMBER);
    let x = field_number(row, 2, MOST_COORDINATE);
    let y = field_number(row, 3, MOST_COORDINATE);
    let z = field_number(row, 4, MOST_COORDINATE);
    match are_numbers(number, body, x, y, z) {
        Ok(()) => move_from(number, body, point_from(number, x, y, z)),
        Err(fault) => Err(fault),
    }
}

/// What a record says, whose number is told.
pub fn read_entry(number: u32, row: &ByteRecord) -> Result<Entry, SceneFault>
    ensures value { result ≡ entry_of number (fields_of row.now) }
    ensures sound { IfOk result IsSound }
{
    if is_body(row) {
        return match read_body(number, row) {
            Ok(body) => Ok(Entry::Body(body)),
            Err(fault) => Err(fault),
        };
    }
    if is_move(row) {
        return match read_move(number, row) {
            Ok(step) => Ok(Entry::Move(step)),
            Err(fault) => Err(fault),
        };
    }
    if is_pass(row) {
        return Ok(Entry::Pass);
    }
    Err(SceneFault::BadRecord(number))
}
