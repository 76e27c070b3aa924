//! The classes of Ecore, by what an object's `eClass` says (emfjson), and what the references to its types begin with.

pub(crate) const PACKAGE: &str = "http://www.eclipse.org/emf/2002/Ecore#//EPackage";

pub(crate) const CLASS: &str = "http://www.eclipse.org/emf/2002/Ecore#//EClass";

pub(crate) const ENUM: &str = "http://www.eclipse.org/emf/2002/Ecore#//EEnum";

pub(crate) const DATA_TYPE: &str = "http://www.eclipse.org/emf/2002/Ecore#//EDataType";

pub(crate) const ATTRIBUTE: &str = "http://www.eclipse.org/emf/2002/Ecore#//EAttribute";

pub(crate) const REFERENCE: &str = "http://www.eclipse.org/emf/2002/Ecore#//EReference";

pub(crate) const TYPES: &str = "http://www.eclipse.org/emf/2002/Ecore#//";
