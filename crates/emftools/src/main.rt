//! The program: `tools` over the file `emfstore.journal` in the working folder and the standard streams.
#![tactic(auto)]

mod program;
mod road;

use file_host::FileHost;
use program::program;
use real_system::{BesideSystem, RealSystem, words_of};
use road::{Road, road_of};
use std::process::ExitCode;

fn main(rt: HostRuntime) -> ExitCode {
    match road_of(words_of(&rt)) {
        Road::Store(words) => {
            let mut host = FileHost::new(rt.alloc(), RealSystem::new(&rt));
            program(rt.alloc(), words, &mut host)
        }
        Road::Beside(words) => {
            let mut host = FileHost::new(rt.alloc(), BesideSystem::new(&rt));
            program(rt.alloc(), Ok(words), &mut host)
        }
    }
}
