//! The jobs that users of `const_oid` wait for, over inputs of many sizes and shapes: what `bench/run` times.
//!
//! `oid_jobs JOB SEED TURNS` runs one job, or `all`, and prints a digest of all results. Each seed gives other inputs of
//! the same kind and size, and no call is made twice with the same input. More turns, up to 100, take more inputs.
#![tactic(auto)]

mod awkward;
mod certificates;
mod digest;
mod fail;
mod inputs;
mod mib;
mod random;
mod schema;
mod trace;
mod tree;

use digest::Digest;
use fail::Fail;
use random::Random;
use std::alloc::Global;
use std::env;

/// Runs a job.
fn run(
    alloc: Global,
    job: &str,
    random: &mut Random,
    turns: u32,
    digest: &mut Digest,
) -> Result<(), Fail> {
    match job {
        "awkward" => awkward::run(alloc, random, turns, digest),
        "certificates" => certificates::run(alloc, random, turns, digest),
        "mib" => mib::run(alloc, random, turns, digest),
        "trace" => trace::run(random, turns, digest),
        "schema" => {
            schema::run(random, turns, digest);
            Ok(())
        }
        "tree" => {
            tree::run(random, turns, digest);
            Ok(())
        }
        _ => Err(Fail::Usage),
    }
}

/// The digest of a job's results, or of those of all jobs.
fn digest_of(alloc: Global, job: &str, seed: u64, turns: u32) -> Result<u64, Fail> {
    let mut random = Random::new(seed);
    let mut digest = Digest::new();
    if job == "all" {
        for job in ["awkward", "certificates", "mib", "schema", "trace", "tree"] {
            run(alloc, job, &mut random, turns, &mut digest)?;
        }
    } else {
        run(alloc, job, &mut random, turns, &mut digest)?;
    }
    Ok(digest.value())
}

fn main(rt: HostRuntime) -> Result<(), Fail> {
    let mut words = env::args(&rt)?.skip(1);
    let job = words.next().ok_or(Fail::Usage)?;
    let seed = words.next().ok_or(Fail::Usage)?;
    let turns = words.next().ok_or(Fail::Usage)?;
    let seed = seed.as_str().parse::<u64>().map_err(|_| Fail::Usage)?;
    let turns = turns.as_str().parse::<u32>().map_err(|_| Fail::Usage)?;
    let value = digest_of(rt.alloc(), job.as_str(), seed, turns)?;
    println!(rt; "{job} {value:016x}")?;
    Ok(())
}
