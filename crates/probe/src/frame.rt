//! The figures of a frame.

use std::marker::Model;

/// What is told of a frame: its number from 0, how many bodies and reachable cells it has, the cost of
/// all bodies by which its zones were cut, the greatest cost of one zone (0 where there is no body),
/// the number of terms of all pulls, and the sum of mass times acceleration over all bodies along each
/// axis, each below 2^120 in size. Contracts see it as a `FrameFigures`, the record of these numbers.
#[derive(Clone, Copy, Debug, PartialEq, Eq)]
pub struct Frame {
    pub step: u32,
    pub bodies: u32,
    pub cells: u32,
    pub cost: u64,
    pub greatest: u64,
    pub met: u64,
    pub push_x: i128,
    pub push_y: i128,
    pub push_z: i128,
}

impl Model for Frame {
    ghost use Rattle.probe.specs.Figures.{FrameFigures, HasSmallPush};

    ghost Value = { FrameFigures };

    ghost view = { λ f. record { step = f.step; bodies = f.bodies; cells = f.cells; cost = f.cost; greatest = f.greatest; met = f.met; push_x = f.push_x; push_y = f.push_y; push_z = f.push_z } };

    ghost invariant = { λ f. HasSmallPush (record { step = f.step; bodies = f.bodies; cells = f.cells; cost = f.cost; greatest = f.greatest; met = f.met; push_x = f.push_x; push_y = f.push_y; push_z = f.push_z }) };

    ghost inverse = { λ f. record { step = f.step; bodies = f.bodies; cells = f.cells; cost = f.cost; greatest = f.greatest; met = f.met; push_x = f.push_x; push_y = f.push_y; push_z = f.push_z } };
}
