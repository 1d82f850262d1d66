//! Names of attributes.
ghost use Rattle.std.specs.Prelude.{◌≡◌, IfOk, OnErr, IsTrue};
ghost use Rattle.std.specs.List.{list_all};
ghost use Rattle.std.specs.Option.{option_map};
ghost use Rattle.bstr.specs.BStr.{bstr_bytes};
ghost use Rattle.pathspec_parts.specs.Attributes.{attribute_name_of, begins_with_dash, is_attribute_name, is_name_byte};

use bstr::BStr;
use std::alloc::{AllocError, Global};

/// The name of an attribute: ASCII letters, digits, `-`, `.` and `_`, where the first byte is no `-` (gitattributes).
///
/// The empty text is a name. Names compare by their bytes.
#[derive(Debug, Drop, PartialEq, Eq, PartialOrd, Ord, Hash)]
pub struct Name {
    bytes: Vec<u8>,
    ghost is_name: { IsTrue (is_attribute_name bytes.items) },
}

impl Name {
    ghost use Rattle.pathspec_parts.specs.AttributeNames.{name_bytes};

    /// Makes a name of bytes, or None where they are no name. The call looks at each byte at most twice, and copies the bytes.
    ///
    /// # Errors
    /// Memory runs out. Bytes that are no name take no memory.
    pub fn from_bytes(alloc: Global, bytes: &[u8]) -> Result<Option<Name>, AllocError>
        ensures name { IfOk result (λ name.
            option_map name_bytes name ≡ attribute_name_of bytes.now) }
        ensures refused { OnErr result (IsTrue (is_attribute_name bytes.now)) }
    {
        if !is_name(bytes) {
            return Ok(None);
        }
        Ok(Some(Name {
            bytes: Vec::from_slice(alloc, bytes)?,
        }))
    }

    /// The bytes of the name.
    pub fn as_bytes(&self) -> BStr<'_>
        ensures bytes { bstr_bytes result ≡ name_bytes self.now }
        ensures name { IsTrue (is_attribute_name (name_bytes self.now)) }
    {
        BStr::new(self.bytes.as_slice())
    }

    /// Clones the name.
    ///
    /// # Errors
    /// Memory runs out.
    pub fn try_clone(&self) -> Result<Name, AllocError>
        ensures { IfOk result (λ name. name_bytes name ≡ name_bytes self.now) }
    {
        Ok(Name {
            bytes: self.bytes.clone()?,
        })
    }
}

/// Whether the bytes are the name of an attribute.
fn is_name(bytes: &[u8]) -> bool
    ensures { result ≡ is_attribute_name bytes.now }
{
    has_name_bytes(bytes) && !begins_with_dash(bytes)
}

/// Whether a name may have each of the bytes.
fn has_name_bytes(bytes: &[u8]) -> bool
    ensures { result ≡ list_all is_name_byte bytes.now }
{
    bytes.iter().all(|byte| is_name_byte(*byte))
}

/// Whether the first byte is `-`.
fn begins_with_dash(bytes: &[u8]) -> bool
    ensures { result ≡ begins_with_dash bytes.now }
{
    bytes.starts_with(b"-")
}

/// Whether a name may have the byte.
fn is_name_byte(byte: u8) -> bool
    ensures { result ≡ is_name_byte byte }
{
    byte.is_ascii_alphanumeric() || b"-._".contains(&byte)
}
