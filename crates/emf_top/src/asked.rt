//! What the words ask for, as work over a store.
ghost use Rattle.emf_top.specs.Tasks.{same_reads, task_of};

use crate::filling::fill;
use crate::looking::check_line;
use host_port::Host;
use script_items::{Request, generated};
use std::alloc::Global;
use store_runs::{Unguarded, Work, serve, show};
use store_session::{Session, Status};

/// What the words ask for.
#[derive(Clone, Copy)]
pub(crate) struct Asked {
    pub(crate) request: Request,
}

impl Work for Asked {
    ghost task = { λ asked. task_of asked.request };

    fn fulfil<H: Host>(&self, alloc: Global, host: &mut H, session: &mut Session) -> Status {
        match self.request {
            Request::Serve => serve(alloc, host, session, &Unguarded),
            Request::Check => {
                let Ok(line) = check_line(alloc, session) else {
                    return Status::Memory;
                };
                show(host, line.as_bytes(), false)
            }
            Request::Generate { seed, count } => {
                let Ok(items) = generated(alloc, seed, count) else {
                    return Status::Memory;
                };
                fill(alloc, host, session, items.as_slice())
            }
        }
    }

    ghost reads_alike = { λ asked. same_reads asked.request };
}
