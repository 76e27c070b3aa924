//! The faults of an Ecore document in the order in which they are looked for, with the number of each in a reply.
ghost use Rattle.std.specs.Prelude.{◌≡◌};
ghost use Rattle.ecore_json.specs.Metamodel.{ecore_fault_number, of_meta};
ghost use Rattle.ecore_json.specs.declared.fault.EcoreFault.TheVariants.{Memory};

use ecore_build::MetaFault;
use std::alloc::AllocError;
use thiserror::Error;

/// What the walk over a document finds first.
#[derive(Clone, Copy)]
pub(crate) enum WalkFault {
    /// A key, a value of a key, a name or a reference that is not read here, or a key that is missing.
    BadKey,
    /// A part of Ecore that is left out here.
    LeftOut,
}

/// Why a text is no metamodel. Faults are looked for in this order.
#[derive(Debug, Drop, Error)]
pub enum EcoreFault {
    /// The text is no JSON: RFC 8259, at most 127 levels deep, with numbers that a double holds.
    #[error("the text is no JSON")]
    NotJson,
    /// The document is no package of Ecore, nor an array of one.
    #[error("the document is no package")]
    NotPackage,
    /// A key that an object may not have or that it lacks, or a value of another kind. Or a name or a reference that
    /// is none, or an object of an unknown class.
    #[error("a key or its value is not read")]
    BadKey,
    /// A part of Ecore that is left out here. Such are packages inside the package, generics, keys of references, and
    /// references of which one may stand twice.
    #[error("a part of Ecore is left out")]
    LeftOut,
    /// A fault of what the document describes.
    #[error("{0}")]
    Meta(MetaFault),
    #[error("out of memory")]
    Memory,
}

impl From<AllocError> for EcoreFault {
    ghost from_gives = { λ _ e. e ≡ Memory };

    fn from(_: AllocError) -> EcoreFault {
        EcoreFault::Memory
    }
}

impl EcoreFault {
    /// The number of the fault in a reply.
    pub fn number(&self) -> u32
        ensures number { result ≡ ecore_fault_number self.now }
    {
        match self {
            EcoreFault::NotJson => 1,
            EcoreFault::NotPackage => 2,
            EcoreFault::BadKey => 3,
            EcoreFault::LeftOut => 4,
            EcoreFault::Memory | EcoreFault::Meta(MetaFault::Memory) => 6,
            EcoreFault::Meta(MetaFault::DupName) => 11,
            EcoreFault::Meta(MetaFault::Unsupported) => 12,
            EcoreFault::Meta(MetaFault::NoType) => 13,
            EcoreFault::Meta(MetaFault::SuperCycle) => 14,
            EcoreFault::Meta(MetaFault::Clash) => 15,
            EcoreFault::Meta(MetaFault::SelfOpposite) => 16,
            EcoreFault::Meta(MetaFault::BadOpposite) => 17,
            EcoreFault::Meta(MetaFault::BadBound) => 18,
            EcoreFault::Meta(MetaFault::BadDefault) => 19,
        }
    }
}

/// A fault of the rows; out of memory is none of theirs.
pub(crate) fn of_meta(fault: MetaFault) -> EcoreFault
    ensures { result ≡ of_meta fault }
{
    match fault {
        MetaFault::Memory => EcoreFault::Memory,
        fault => EcoreFault::Meta(fault),
    }
}
