//! One run of each program, by those clauses of it that the law of lifetimes goes by.
ghost use Rattle.std.specs.Prelude.{map, string_bytes};
ghost use Rattle.lifetimes.specs.Runs.{IsRun, IsToolsRun};

use emf_top::run;
use host_port::Host;
use std::alloc::Global;
use store_session::Status;
use tools_top::tools;

/// A run of `emfstore`, as the law of lifetimes sees it.
pub fn run_once<H: Host>(alloc: Global, words: &[String], host: &mut H) -> Status
    ensures { IsRun (map string_bytes words.now) (H.told host.old) (H.told host.new) }
{
    run(alloc, words, host)
}

/// A run of `emftools`, as the law of lifetimes sees it.
pub fn tools_once<H: Host>(alloc: Global, words: &[String], host: &mut H) -> Status
    ensures { IsToolsRun (map string_bytes words.now) (H.told host.old) (H.told host.new) }
{
    tools(alloc, words, host)
}
