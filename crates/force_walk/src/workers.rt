//! The workers, who walk the bodies of their zones.

ghost use Rattle.std.specs.Prelude.{◌≡◌, ◌<◌, ℕ, All, IfOk, length, map, slice_index_or};
ghost use Rattle.force_walk.specs.Placed.{ByPlace, IsTable, walk_of};
ghost use Rattle.mass_moments.specs.Kept.{matter_of};

use crate::node::FlatTable;
use crate::walk::walk;
use bh_model::{Law, Pull};
use build_gate::{Gate, GatePoint};
use octant_code::OutOfMemory;
use scene_file::Bodies;
use std::alloc::Global;
use std::thread;
use std::thread::Threads;

/// The pulls on the bodies of each zone, in the zone's order. Each zone has a worker; all workers are at
/// work at the same time, and pass the gate. All memory is taken before the first one begins.
pub fn work_zones<R: Threads + Sync, G: Gate>(
    rt: &R,
    alloc: Global,
    table: &FlatTable,
    law: &Law,
    bodies: &Bodies,
    zones: &[Vec<u32>],
    gate: &G,
) -> Result<Vec<Vec<Pull>>, OutOfMemory>
    requires table { IsTable law.now (length bodies.now) table.now }
    requires inside { All (λ z. All (λ n. n < length bodies.now) z.items) zones.now }
    ensures { IfOk result (λ lists. ByPlace (λ z l. l.items ≡ map (walk_of law.now (matter_of bodies.now) table.now) z.items) zones.now lists.items) }
{
    let mut lists = room_for(alloc, zones)?;
    work_all(rt, table, law, bodies, zones, lists.as_mut_slice(), gate);
    Ok(lists)
}

/// A list for each zone, as long as that.
fn room_for(alloc: Global, zones: &[Vec<u32>]) -> Result<Vec<Vec<Pull>>, OutOfMemory>
    ensures { IfOk result (λ lists. ByPlace (λ z l. length l.items ≡ length z.items) zones.now lists.items) }
{
    let mut lists = Vec::with_capacity(alloc, zones.len())?;
    for w in 0..zones.len() {
        let zone = zones[w].as_slice();
        let list = vec![in alloc; Pull::none(); zone.len()]?;
        lists.push(list)?;
    }
    Ok(lists)
}

/// In how many threads the workers are at work: each in one of its own, or all in the calling one where no
/// two zones have bodies.
pub fn threads_for(zones: &[Vec<u32>]) -> usize
    ensures { 0 < result }
{
    let mut some = false;
    for zone in zones {
        if !zone.is_empty() {
            if some {
                return zones.len();
            }
            some = true;
        }
    }
    1
}

/// The number of the worker of the zone at a place. Those past the numbers of 32 bits, for which no
/// machine has threads, are all told as the last one.
fn worker_at(place: usize) -> u32 {
    place.min(u32::MAX as usize) as u32
}

/// All workers put the pulls on the bodies of their zones into their lists, all at the same time. It takes
/// no memory.
fn work_all<R: Threads + Sync, G: Gate>(
    rt: &R,
    table: &FlatTable,
    law: &Law,
    bodies: &Bodies,
    zones: &[Vec<u32>],
    lists: &mut [Vec<Pull>],
    gate: &G,
)
    requires table { IsTable law.now (length bodies.now) table.now }
    requires inside { All (λ z. All (λ n. n < length bodies.now) z.items) zones.now }
    requires room { ByPlace (λ z l. length l.items ≡ length z.items) zones.now lists.old }
    ensures { ByPlace (λ z l. l.items ≡ map (walk_of law.now (matter_of bodies.now) table.now) z.items) zones.now lists.new }
{
    thread::for_each_mut(
        rt,
        lists,
        threads_for(zones),
        &|w: usize, list: &mut Vec<Pull>|
            requires { (w < length zones.now) × IsTable law.now (length bodies.now) table.now × All (λ z. All (λ n. n < length bodies.now) z.items) zones.now × ((d : _) → length list.old.items ≡ length (slice_index_or zones.now w d).items) }
            ensures { (d : _) → list.new.items ≡ map (walk_of law.entry.now (matter_of bodies.entry.now) table.entry.now) (slice_index_or zones.entry.now w d).items }
        {
            work_zone(
                table,
                law,
                bodies,
                zones[w].as_slice(),
                list.as_mut_slice(),
                worker_at(w),
                gate,
            )
        },
    );
}

/// One worker puts the pulls on the bodies of its zone into a list, in the zone's order, and passes the
/// gate.
fn work_zone<G: Gate>(
    table: &FlatTable,
    law: &Law,
    bodies: &Bodies,
    zone: &[u32],
    list: &mut [Pull],
    worker: u32,
    gate: &G,
)
    requires table { IsTable law.now (length bodies.now) table.now }
    requires inside { All (λ n. n < length bodies.now) zone.now }
    requires room { length list.old ≡ length zone.now }
    ensures { list.new ≡ map (walk_of law.now (matter_of bodies.now) table.now) zone.now }
{
    gate.pass(worker, GatePoint::Start);
    for k in 0..zone.len() {
        list[k] = walk_for(table, law, bodies, zone[k]);
        if k == 0 {
            gate.pass(worker, GatePoint::AfterFirst);
        }
    }
    gate.pass(worker, GatePoint::End);
}

/// The pull on a body.
#[inline]
fn walk_for(table: &FlatTable, law: &Law, bodies: &Bodies, n: u32) -> Pull
    requires table { IsTable law.now (length bodies.now) table.now }
    requires inside { n < length bodies.now }
    ensures { result ≡ walk_of law.now (matter_of bodies.now) table.now n }
{
    let body = bodies.get(n);
    let place = table.places[n as usize];
    walk(&table.nodes, law, body.at, place as usize)
}
