//! The id of an image: the SHA-1 of its parts and their sizes, as `mkbootimg` computes it.

ghost use Rattle.std.specs.Prelude.{◌≡◌, ◌<◌, ◌≤◌, ◌+◌, ◌-◌, ◌^◌, ◌++◌, ◌∷◌, [], ℕ, List, IsTrue, IfOk, IfErr, OnOk};
ghost use Rattle.std.specs.Prelude.{Err, None, length, map, take, drop, replicate};
ghost use Rattle.byteorder.specs.Endian.{little_bytes};
ghost use Rattle.sha1.specs.Sha1.{Holds, sha1};
ghost use Rattle.abt_io.specs.Lent.{OnlyReadsAll};
ghost use Rattle.abt_headers.specs.Places.{EachLow};
ghost use Rattle.abt_sections.specs.Cause.{PackCause, total, full_handed};
ghost use Rattle.abt_sections.specs.Fields.{filled};
ghost use Rattle.abt_sections.specs.Id.{id_of, sized_parts};
ghost use Rattle.abt_sections.specs.Layout.{parts_of};
ghost use Rattle.abt_sections.specs.Moves.{ReadsAllUnless};
ghost use Rattle.abt_sections.specs.Open.{beyond};
ghost use Rattle.abt_sections.specs.Reads.{ReadsUnless};
ghost use Rattle.abt_sections.specs.Refusal.{boot_names, size_refusal, IfRefused};

use crate::fault::SectionFault;
use crate::reading::{next_ask, read_front};
use crate::sizes::boot_sizes;
use abt_headers::Sections;
use abt_io::{Meter, Source, Window};
use sha1::Sha1;

/// Hashes `n` bytes of a source from a place on, in asks of up to a window.
fn hash_range<S: Source>(
    source: &mut S,
    from: u64,
    n: u64,
    hasher: &mut Sha1,
    w: &mut Window,
    m: &mut Meter,
) -> Result<(), SectionFault>
    requires { from + n < 2 ^ 64 }
    ensures reads { ReadsUnless result S.Source source.old source.new
        (IsTrue S.models → (0 < n → from + n ≤ length (S.content source.old)) → ⊥) }
    ensures present { IsTrue S.models → OnOk result (0 < n → from + n ≤ length (S.content source.old)) }
    ensures hashed { IsTrue S.models → OnOk result ((t : List ℕ) → Holds hasher.old t →
        Holds hasher.new (t ++ take n (drop from (S.content source.old)))) }
{
    let mut at = 0;
    while at < n {
        m.tick();
        let ask = next_ask(n - at);
        match read_front(source, from + at, ask, w, m) {
            Ok(()) => {}
            Err(fault) => return Err(fault),
        }
        hasher.update(w.part(0, ask));
        m.close_step(ask as u32);
        at += ask as u64;
    }
    Ok(())
}

/// A digest as the header's field holds it, with twelve zeros after it.
pub(crate) fn id_field(digest: &[u8; 20]) -> [u8; 32]
    ensures { result ≡ digest.now ++ replicate 12 0 }
{
    let mut id = [0; 32];
    id[..20].copy_from_slice(digest);
    id
}

/// Hashes the size of a part, which comes after the part.
pub(crate) fn hash_size(size: u32, hasher: &mut Sha1)
    ensures { (t : List ℕ) → Holds hasher.old t → Holds hasher.new (t ++ little_bytes 4 size) }
{
    hasher.update(&size.to_le_bytes());
}

/// Hashes one part, and after it its size.
fn hash_part<S: Source>(
    part: &mut S,
    size: u32,
    hasher: &mut Sha1,
    w: &mut Window,
    m: &mut Meter,
) -> Result<(), SectionFault>
    ensures reads { ReadsUnless result S.Source part.old part.new
        (IsTrue S.models → S.size part.old ≡ size → ⊥) }
    ensures hashed { IsTrue S.models → OnOk result ((parts : List (List ℕ)) → Holds hasher.old (sized_parts parts) →
        Holds hasher.new (sized_parts (parts ++ (S.content part.old ∷ [])))) }
{
    if part.length() != size as u64 {
        return Err(SectionFault::SourceChanged);
    }
    match hash_range(part, 0, size as u64, hasher, w, m) {
        Ok(()) => {}
        Err(fault) => return Err(fault),
    }
    hash_size(size, hasher);
    Ok(())
}

/// The id of parts of these sizes.
pub(crate) fn hash_parts<S: Source>(
    parts: &mut [S],
    sizes: &[u32; 5],
    w: &mut Window,
    m: &mut Meter,
) -> Result<[u8; 32], SectionFault>
    requires { length parts.old ≤ 5 }
    ensures reads { ReadsAllUnless result S.Source parts.old parts.new
        (IsTrue S.models → sizes.now ≡ filled 5 (map S.size parts.old) → ⊥) }
    ensures id { IsTrue S.models → IfOk result (λ d. d ≡ id_of (map S.content parts.old)) }
{
    let mut hasher = Sha1::new();
    for i in 0..parts.len() {
        m.tick();
        let part = &mut parts[i];
        match hash_part(part, sizes[i], &mut hasher, w, m) {
            Ok(()) => {}
            Err(fault) => return Err(fault),
        }
    }
    let digest = hasher.finalize();
    Ok(id_field(&digest))
}

/// The id of an image of version 0, 1 or 2 with these parts, in the order of its sections, an absent one of length 0.
///
/// # Errors
/// `SectionTooLarge` before anything is read; then `Read`, and `SourceChanged` from a part that isn't what it was.
pub fn image_id<S: Source>(
    version: u32,
    parts: &mut [S],
    w: &mut Window,
    m: &mut Meter,
) -> Result<[u8; 32], SectionFault>
    requires version { version ≤ 2 }
    requires count { length parts.old ≡ length (boot_names version) }
    ensures reads { OnlyReadsAll result S.Source parts.old parts.new }
    ensures refused { IfRefused (size_refusal (boot_names version) (map S.size parts.old))
        (λ f. (result ≡ Err f) × (parts.new ≡ parts.old)) }
    ensures id { IsTrue S.models → IfOk result (λ d. d ≡ id_of (map S.content parts.old)) }
    ensures cause { IfErr result (λ e. PackCause (size_refusal (boot_names version) (map S.size parts.old)) e
        (total S.read_faults parts.old) (total S.read_faults parts.new) 0 0 (IsTrue S.models → ⊥)) }
    ensures failed { full_handed result ≡ 0 }
{
    let sizes = boot_sizes(version, parts, m)?;
    hash_parts(parts, &sizes, w, m)
}

/// The id of what is stored at these places of a source.
pub(crate) fn stored_id<S: Source>(
    source: &mut S,
    sections: &Sections,
    w: &mut Window,
    m: &mut Meter,
) -> Result<[u8; 32], SectionFault>
    requires { EachLow sections.now }
    ensures reads { ReadsUnless result S.Source source.old source.new
        (IsTrue S.models → beyond sections.now (length (S.content source.old)) ≡ None → ⊥) }
    ensures id { IsTrue S.models → IfOk result (λ d. d ≡ id_of (parts_of (S.content source.old) sections.now)) }
{
    let mut hasher = Sha1::new();
    for i in 0..sections.count() {
        m.tick();
        let place = sections.place(i);
        match hash_range(source, place.at, place.size as u64, &mut hasher, w, m) {
            Ok(()) => {}
            Err(fault) => return Err(fault),
        }
        hash_size(place.size, &mut hasher);
    }
    let digest = hasher.finalize();
    Ok(id_field(&digest))
}
