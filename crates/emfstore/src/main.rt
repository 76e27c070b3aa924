//! The program: `run` over the file `emfstore.journal` in the working folder and the standard streams.
#![tactic(auto)]

mod program;

use file_host::FileHost;
use program::program;
use real_system::{RealSystem, words_of};
use std::process::ExitCode;

fn main(rt: HostRuntime) -> ExitCode {
    program(
        rt.alloc(),
        words_of(&rt),
        &mut FileHost::new(rt.alloc(), RealSystem::new(&rt)),
    )
}
