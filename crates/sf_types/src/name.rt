//! Names of rows, and names of locators and savepoints.
ghost use Rattle.std.specs.Prelude.{◌≡◌, IsTrue, IfOk};
ghost use Rattle.sf_types.specs.Values.Names.{is_name_byte, is_name, name_of};
ghost use Rattle.std.specs.List.{list_all};
ghost use Rattle.std.specs.Hash as fed;
ghost use Rattle.std.specs.Cmp.Lexicographic.{same_text};
ghost use Rattle.std.proofs.Common.{ap, sym};
ghost use Rattle.sf_types.specs.declared.limits.TheConstants.{ROW_NAME_BYTES, LOCATOR_NAME_BYTES};

use crate::blob::Blob;
use crate::copy::{Exact, TryCopy};
use crate::limits::{LOCATOR_NAME_BYTES, ROW_NAME_BYTES};
use crate::memory::Mem;
use std::alloc::{AllocError, Global};
use std::hash::{Hash, Hasher};
use std::marker::Model;

/// A row's name: 1 to 64 of the bytes `A-Z a-z 0-9 _ . -`, seen as their list. A copy shares the bytes.
#[derive(Debug, PartialEq, Eq, PartialOrd, Ord, Drop)]
pub struct Name {
    text: Blob,
}

impl Model for Name {
    ghost use Rattle.std.specs.Prelude.{ℕ, List, IsTrue};
    ghost use Rattle.sf_types.specs.Values.Names.{is_name};
    ghost use Rattle.sf_types.specs.declared.limits.TheConstants.{ROW_NAME_BYTES};

    ghost Value = { List ℕ };

    ghost view = { λ n. n.text };

    ghost invariant = { λ n. IsTrue (is_name ROW_NAME_BYTES n.text) };

    ghost inverse = { λ text. record { text = text } };
}

/// A name of a locator or of a savepoint: 1 to 16 of the bytes of a row's name.
#[derive(Debug, PartialEq, Eq, PartialOrd, Ord, Drop)]
pub struct LocName {
    text: Blob,
}

impl Model for LocName {
    ghost use Rattle.std.specs.Prelude.{ℕ, List, IsTrue};
    ghost use Rattle.sf_types.specs.Values.Names.{is_name};
    ghost use Rattle.sf_types.specs.declared.limits.TheConstants.{LOCATOR_NAME_BYTES};

    ghost Value = { List ℕ };

    ghost view = { λ n. n.text };

    ghost invariant = { λ n. IsTrue (is_name LOCATOR_NAME_BYTES n.text) };

    ghost inverse = { λ text. record { text = text } };
}

// Whether a byte may stand in a name.
fn is_name_byte(byte: u8) -> bool
    ensures { result ≡ is_name_byte byte }
{
    matches!(byte, b'A'..=b'Z' | b'a'..=b'z' | b'0'..=b'9' | b'_' | b'.' | b'-')
}

// Whether each byte may stand in a name.
fn has_name_bytes(text: &[u8]) -> bool
    ensures { result ≡ list_all is_name_byte text.now }
{
    text.iter().all(|byte| is_name_byte(*byte))
}

// Whether a text is a name of at most `most` bytes.
fn is_name(most: usize, text: &[u8]) -> bool
    ensures { result ≡ is_name most text.now }
{
    let spelled = has_name_bytes(text);
    1 <= text.len() && text.len() <= most && spelled
}

impl Name {
    /// The name of these bytes. None exactly where they aren't a row's name.
    pub fn new(alloc: Global, text: &[u8]) -> Mem<Option<Name>>
        ensures { IfOk result (λ name. name ≡ name_of ROW_NAME_BYTES text.now) }
    {
        if is_name(ROW_NAME_BYTES, text) {
            Ok(Some(Name {
                text: Blob::new(alloc, text)?,
            }))
        } else {
            Ok(None)
        }
    }

    /// The bytes of the name.
    pub fn as_bytes(&self) -> &[u8]
        ensures text { result.now ≡ self.now }
        ensures name { IsTrue (is_name ROW_NAME_BYTES self.now) }
    {
        self.text.as_bytes()
    }
}

impl LocName {
    /// The name of these bytes. None exactly where they aren't a locator's name.
    pub fn new(alloc: Global, text: &[u8]) -> Mem<Option<LocName>>
        ensures { IfOk result (λ name. name ≡ name_of LOCATOR_NAME_BYTES text.now) }
    {
        if is_name(LOCATOR_NAME_BYTES, text) {
            Ok(Some(LocName {
                text: Blob::new(alloc, text)?,
            }))
        } else {
            Ok(None)
        }
    }

    /// The bytes of the name.
    pub fn as_bytes(&self) -> &[u8]
        ensures text { result.now ≡ self.now }
        ensures name { IsTrue (is_name LOCATOR_NAME_BYTES self.now) }
    {
        self.text.as_bytes()
    }
}

// Names are hashed by their bytes.
impl Hash for Name {
    ghost hash_input = { λ name. fed.slice fed.u8 name };

    ghost respects_eq = { λ a b is. ap (fed.slice fed.u8) (same_text a b (sym is)) };

    fn hash<H: Hasher>(&self, state: &mut H) {
        self.as_bytes().hash(state);
    }
}

impl Hash for LocName {
    ghost hash_input = { λ name. fed.slice fed.u8 name };

    ghost respects_eq = { λ a b is. ap (fed.slice fed.u8) (same_text a b (sym is)) };

    fn hash<H: Hasher>(&self, state: &mut H) {
        self.as_bytes().hash(state);
    }
}

impl Clone for Name {
    ghost is_clone = { λ name copied. copied ≡ name };

    fn clone(&self) -> Result<Name, AllocError> {
        Ok(Name {
            text: self.text.clone()?,
        })
    }
}

impl Clone for LocName {
    ghost is_clone = { λ name copied. copied ≡ name };

    fn clone(&self) -> Result<LocName, AllocError> {
        Ok(LocName {
            text: self.text.clone()?,
        })
    }
}

impl TryCopy for Name {
    fn copy(&self) -> Mem<Name> {
        Ok(self.clone()?)
    }
}

impl TryCopy for LocName {
    fn copy(&self) -> Mem<LocName> {
        Ok(self.clone()?)
    }
}

impl Exact for Name {
    ghost exact = { λ value copied is. is };
}

impl Exact for LocName {
    ghost exact = { λ value copied is. is };
}
