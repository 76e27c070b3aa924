//! One reply is printed, and the store stays as it is.
ghost use Rattle.std.specs.Prelude.{◌≡◌, ◌≢◌, ℕ, List};
ghost use Rattle.host_port.specs.Host.{disk_now, Rose, GoesOn, KeepsDisk};
ghost use Rattle.op_form.specs.declared.event.Event.{Event};
ghost use Rattle.plain_repository.specs.State.{State};
ghost use Rattle.store_session.specs.Session.{IsStoreOf};
ghost use Rattle.store_session.specs.Endings.{IsDone, KeepsUnread};
ghost use Rattle.store_session.specs.Tasks.{telling};

use host_port::Host;
use store_session::Status;

/// Prints a reply that is made already, of a store that is open. The input is not read.
pub fn show<H: Host>(host: &mut H, reply: &[u8], refused: bool) -> Status
    ensures done { (state : State) (made : List Event) → IsStoreOf (disk_now (H.told host.old)) state made → IsDone (telling reply.now refused) made (H.told host.old) (H.told host.new) result }
    ensures still { KeepsDisk (H.told host.old) (H.told host.new) }
    ensures unread { KeepsUnread (telling reply.now refused) (H.told host.old) (H.told host.new) }
    ensures words { result ≢ Status.BadWords }
    ensures read { result ≡ Status.ReadFault → Rose (H.told host.old).take_faults (H.told host.new).take_faults }
    ensures write { result ≡ Status.WriteFault → Rose (H.told host.old).say_faults (H.told host.new).say_faults }
    ensures disk { result ≡ Status.DiskFault → Rose (H.told host.old).disk_faults (H.told host.new).disk_faults }
    ensures damaged { (at : ℕ) → result ≢ Status.Damaged at }
    ensures course { GoesOn (H.told host.old) (H.told host.new) }
{
    match host.say(reply) {
        Ok(()) => {
            if refused {
                return Status::Refused;
            }
            Status::Accepted
        }
        Err(_) => Status::WriteFault,
    }
}
