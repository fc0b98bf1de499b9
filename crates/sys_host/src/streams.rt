//! Where reports go: not into a file that is read, and not into one that data goes to.

ghost use Rattle.std.specs.Prelude.{◌≡◌, ◌↔◌, IsTrue, OnOk, IfErr};
ghost use Rattle.sys_identity.specs.Identity.{IsIdentityOf};
ghost use Rattle.sys_host.specs.Streams.{Reported, Mixed};

use sys_file::System;
use sys_identity::{ERRORS, Identity, OUTPUT, identity_of_stream};
use sys_refusals::{FileArg, HostFault, HostRefusal};

/// The identities of standard output and standard error.
#[derive(Clone, Copy, Drop)]
pub struct Streams {
    pub out: Identity,
    pub err: Identity,
}

impl Streams {
    pub fn of_system<S: System>(system: &S) -> Streams
        ensures { IsTrue S.File.models → IsIdentityOf S.number S.known S.stdout result.out }
    {
        Streams {
            out: identity_of_stream(system, OUTPUT),
            err: identity_of_stream(system, ERRORS),
        }
    }

    /// Fails for a file with data that is to be read and into which a report would be written. No message is printed
    /// that would be written there itself.
    pub fn spare<'a>(&self, identity: Identity, place: FileArg<'a>) -> Result<(), HostRefusal<'a>>
        ensures spared { OnOk result (¬ Reported self.now identity) }
        ensures reported { IfErr result (λ _. Reported self.now identity) }
        ensures fault { IfErr result (λ refusal. refusal.fault ≡ HostFault.SameFile) }
        ensures untold { IfErr result (λ refusal. IsTrue refusal.about.is_untold ↔ (self.now.err ≡ identity)) }
    {
        let is_untold = self.err == identity;
        if identity.holds_data && is_untold {
            return Err(HostRefusal::at(HostFault::SameFile, place, None).untold_if(is_untold));
        }
        if identity.holds_data && self.out == identity {
            return Err(HostRefusal::at(HostFault::SameFile, place, None).untold_if(is_untold));
        }
        Ok(())
    }

    /// Whether a message would be mixed with the data of an output that is this file.
    pub fn mixes_with(&self, identity: Identity) -> bool
        ensures { IsTrue result ↔ Mixed self.now identity }
    {
        identity.mixes && self.err == identity
    }
}
