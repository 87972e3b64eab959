//! What each container version has, by its edition.

ghost use Rattle.std.specs.Prelude.{◌≡◌};
ghost use Rattle.proof_container.specs.Versions as versions;

use lf_signature::{WordSignature, edition_of};
use word_ops::Profile;

/// Returns the instruction profile of the code in a container of the version.
pub fn profile_of(version: u32) -> Profile
    ensures exact { result ≡ versions.profile_of version }
{
    edition_of(version).profile
}

/// Returns the signature that the terms of a container of the version are over. Its parameter
/// counts also give the size of the proof.
pub fn signature_of(version: u32) -> WordSignature
    ensures exact { result ≡ versions.signature_of version }
{
    edition_of(version).signature
}

/// Checks whether a container of the version names its policy by a number.
pub fn is_numbered(version: u32) -> bool
    ensures exact { result ≡ versions.is_numbered version }
{
    edition_of(version).is_numbered
}

/// Checks whether a container of the version bounds the steps.
pub fn is_bounded(version: u32) -> bool
    ensures exact { result ≡ versions.is_bounded version }
{
    edition_of(version).is_bounded
}

/// Checks whether a container of the version has lemmas.
pub fn has_lemmas(version: u32) -> bool
    ensures exact { result ≡ versions.has_lemmas version }
{
    edition_of(version).has_lemmas
}
