//! The faults of a metamodel in the order in which they are looked for.
ghost use Rattle.std.specs.Prelude.{◌≡◌};
ghost use Rattle.ecore_build.specs.declared.fault.MetaFault.TheVariants.{Memory};

use std::alloc::AllocError;
use thiserror::Error;

/// Why rows are no metamodel, in the order in which the faults are looked for, each over the whole document.
#[derive(Debug, Drop, Error)]
pub enum MetaFault {
    /// Two classifiers, two features of one class or two literals of one enum have one name, or two literals one text.
    #[error("a name stands twice")]
    DupName,
    /// An attribute has a type of Ecore other than EString, EBoolean, EByte, EShort, EInt and ELong.
    #[error("an attribute's type of Ecore is not read")]
    Unsupported,
    /// A supertype or a reference's type is no class of the package. Or an attribute's type is none of its enums and
    /// data types, or an enum in use has no literal.
    #[error("a type is missing")]
    NoType,
    /// A class is above itself.
    #[error("a class is above itself")]
    SuperCycle,
    /// A class has two different features of one name, inherited ones counted.
    #[error("two features of a class have one name")]
    Clash,
    /// A reference names itself as its opposite.
    #[error("a reference is its own opposite")]
    SelfOpposite,
    /// An opposite is not declared there, is no reference, is skipped, or does not name this one back. Or the type of
    /// each is not the class that declares the other, or both are containments.
    #[error("an opposite does not answer")]
    BadOpposite,
    /// The lower bound is below 0 or above the upper, or the upper is neither -1 nor at least 1. Or a reference to the
    /// container has an upper bound other than 1.
    #[error("a bound is none")]
    BadBound,
    /// The default text of a single attribute gives no value.
    #[error("a default text gives no value")]
    BadDefault,
    #[error("out of memory")]
    Memory,
}

impl From<AllocError> for MetaFault {
    ghost from_gives = { λ _ e. e ≡ Memory };

    fn from(_: AllocError) -> MetaFault {
        MetaFault::Memory
    }
}
