//! The program `rabit`: decides Büchi inclusion, emptiness and universality, checks and shortens
//! certificates, and reduces, unites and intersects automata, over files.
#![tactic(auto)]

mod batching;
mod checking;
mod commands;
mod cross_checking;
mod crossing;
mod drilling;
mod emptiness;
mod equality;
mod including;
mod intersecting;
mod joining;
mod laws;
mod properties;
mod reducing;
mod shrinking;
mod top;
mod uniting;
mod universality;
mod upgrading;

use shelf_io::{DiskShelf, OutSink};
use std::env;
use std::process::ExitCode;

fn main(rt: HostRuntime) -> ExitCode {
    let args = match env::args(&rt) {
        Ok(args) => args,
        Err(_refused) => return ExitCode::from(14),
    };
    let words = match args.skip(1).collect::<Vec<String>>(rt.alloc()) {
        Ok(words) => words,
        Err(_refused) => return ExitCode::from(14),
    };
    let mut shelf = DiskShelf::new(&rt);
    let mut out = OutSink::new(&rt);
    ExitCode::from(top::run(rt.alloc(), &words, &mut shelf, &mut out))
}

#[cfg(test)]
mod batch_tests;
#[cfg(test)]
mod combine_tests;
#[cfg(test)]
mod cross_tests;
#[cfg(test)]
mod damage_tests;
#[cfg(test)]
mod equality_tests;
#[cfg(test)]
mod fault_tests;
#[cfg(test)]
mod include_tests;
#[cfg(test)]
mod piece_tests;
#[cfg(test)]
mod property_tests;
#[cfg(test)]
mod reduce_tests;
#[cfg(test)]
mod shrink_tests;
#[cfg(test)]
mod tests;
#[cfg(test)]
mod upgrade_tests;
#[cfg(test)]
mod words_tests;
#[cfg(test)]
mod yes_tests;
