//! All of the program, over any system.
ghost use Rattle.std.specs.Prelude.{◌≡◌, map, string_bytes, Ok, Err};
ghost use Rattle.std.specs.Process.{exit_status};
ghost use Rattle.host_port.specs.Host.{Told};
ghost use Rattle.system_port.specs.Stays.{Stays};
ghost use Rattle.store_session.specs.Endings.{code_of};
ghost use Rattle.store_session.specs.declared.status.Status.{Status};
ghost use Rattle.emftools.specs.Program.{IsRun};

use file_host::FileHost;
use host_port::Host;
use std::alloc::Global;
use std::process::ExitCode;
use system_port::{System, WordsFault};
use tools_top::{Status, tools};

/// Runs the program with the words. Where there are none, no call of the host is made.
fn ran<H: Host>(alloc: Global, words: Result<Vec<String>, WordsFault>, host: &mut H) -> Status
    ensures run { (texts : _) → words ≡ Ok texts → IsRun (map string_bytes texts.items) (H.told host.old) (H.told host.new) result }
    ensures no_text { words ≡ Err WordsFault.NotText → (result ≡ Status.BadWords) × (H.told host.new ≡ H.told host.old) }
    ensures no_memory { words ≡ Err WordsFault.Memory → (result ≡ Status.Memory) × (H.told host.new ≡ H.told host.old) }
{
    match words {
        Ok(words) => tools(alloc, &words, host),
        Err(WordsFault::NotText) => Status::BadWords,
        Err(WordsFault::Memory) => Status::Memory,
    }
}

/// Runs the program with the words, and ends it. Where there are no words, it only ends.
pub(crate) fn program<S: System + Drop>(
    alloc: Global,
    words: Result<Vec<String>, WordsFault>,
    host: &mut FileHost<S>,
) -> ExitCode
    // It does what `tools` does, and its exit status is that of how the run ended. After the run at most a complaint is written.
    ensures run { (texts : _) → words ≡ Ok texts → (status : Status) × (exit_status result ≡ code_of status)
        × (now : Told) × IsRun (map string_bytes texts.items) (⟦<FileHost<S> as Host>⟧.told host.old) now status × Stays now (⟦<FileHost<S> as Host>⟧.told host.new) }
    ensures no_text { words ≡ Err WordsFault.NotText → (exit_status result ≡ code_of Status.BadWords) × Stays (⟦<FileHost<S> as Host>⟧.told host.old) (⟦<FileHost<S> as Host>⟧.told host.new) }
    ensures no_memory { words ≡ Err WordsFault.Memory → (exit_status result ≡ code_of Status.Memory) × Stays (⟦<FileHost<S> as Host>⟧.told host.old) (⟦<FileHost<S> as Host>⟧.told host.new) }
{
    let status = ran(alloc, words, host);
    host.end("emftools", status.code(), status)
}
