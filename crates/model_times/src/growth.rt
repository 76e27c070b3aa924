//! Times what it takes to read two metamodels from their documents, and to evolve the first to the second.
ghost use Rattle.std.specs.Prelude.{IfOk};
ghost use Rattle.ecore_meta.specs.Sound.{Sound};

use crate::fault::TimesFault;
use anyhow::Result;
use ecore_json::read_metamodel;
use ecore_meta::Metamodel;
use metamodel_growth::{evolve, is_same};
use std::alloc::Global;
use std::fs;
use std::time::Instant;

/// How often the documents are read, and the first metamodel evolves.
const ROUNDS: u32 = 5;

/// The metamodel of a document.
pub(crate) fn read(alloc: Global, document: &str) -> Result<Metamodel, TimesFault>
    ensures { IfOk result Sound }
{
    if document.len() >= u32::MAX as usize {
        return Err(TimesFault::Metamodel);
    }
    let Ok(meta) = read_metamodel(alloc, document) else {
        return Err(TimesFault::Metamodel);
    };
    meta.recall_soundness();
    Ok(meta)
}

/// Prints how many features a metamodel has that was made so, and the microseconds since the start.
fn print_features(rt: &HostRuntime, word: &str, meta: &Metamodel, start: Instant) -> Result<()> {
    let taken = start.elapsed(rt)?.as_micros();
    println!(rt; "{word}: {}", meta.feature_count())?;
    println!(rt; "{taken} us")?;
    Ok(())
}

fn measure_reading(rt: &HostRuntime, document: &str) -> Result<Metamodel> {
    let start = Instant::now(rt)?;
    let meta = read(rt.alloc(), document)?;
    print_features(rt, "Read", &meta, start)?;
    Ok(meta)
}

fn measure_evolving(rt: &HostRuntime, old: &Metamodel, next: Metamodel) -> Result<Metamodel> {
    let start = Instant::now(rt)?;
    let Ok(evolved) = evolve(rt.alloc(), old, next) else {
        return Err(TimesFault::Growth.into());
    };
    print_features(rt, "Evolve", &evolved, start)?;
    Ok(evolved)
}

/// Compares a metamodel with itself.
fn measure_comparing(rt: &HostRuntime, meta: &Metamodel) -> Result<()> {
    let start = Instant::now(rt)?;
    if !is_same(meta, meta) {
        return Err(TimesFault::Growth.into());
    }
    print_features(rt, "Compare", meta, start)
}

/// Reads both documents, evolves the first metamodel to the second, and compares what comes of it with itself.
fn measure_round(rt: &HostRuntime, old: &str, next: &str) -> Result<()> {
    let old = measure_reading(rt, old)?;
    let next = measure_reading(rt, next)?;
    let evolved = measure_evolving(rt, &old, next)?;
    drop(old);
    measure_comparing(rt, &evolved)
}

/// Measures the documents in the files of these names, in rounds.
pub(crate) fn measure_growth(rt: &HostRuntime, old: &str, next: &str) -> Result<()> {
    let old = fs::read_to_string(rt, old)?;
    let next = fs::read_to_string(rt, next)?;
    for _ in 0..ROUNDS {
        measure_round(rt, old.as_str(), next.as_str())?;
    }
    Ok(())
}
