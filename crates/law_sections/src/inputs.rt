//! What the packer accepts fulfils the premises of the laws. No function does anything.

ghost use Rattle.std.specs.Prelude.{◌≡◌, ◌<◌, ◌^◌, ℕ, IsTrue, None, length, map, slice_index};
ghost use Rattle.std.specs.List.{All};
ghost use Rattle.abt_sections.specs.Canonical.{BootNumbers, FragmentFits, IsBootInput, IsVendorInput, VendorNumbers};
ghost use Rattle.abt_sections.specs.Cause.{total};
ghost use Rattle.abt_sections.specs.Fields.{cmd_common_fields, vendor_fields};
ghost use Rattle.abt_sections.specs.Refusal.{boot_names, pack_boot_refusal, pack_vendor_refusal};
ghost use Rattle.abt_sections.specs.VendorCanon.{vendor_parts, vendor_sizes_for};

use abt_io::{Meter, Source};
use abt_sections::{BootSpec, FragmentSpec, VendorSpec};

fn number_fits(number: u32)
    ensures { number < 2 ^ 32 }
{}

fn long_number_fits(number: u64)
    ensures { number < 2 ^ 64 }
{}

fn boot_numbers(spec: &BootSpec)
    ensures { BootNumbers (cmd_common_fields spec.now) }
{
    number_fits(spec.kernel_addr);
    number_fits(spec.ramdisk_addr);
    number_fits(spec.second_addr);
    number_fits(spec.tags_addr);
    long_number_fits(spec.dtb_addr);
    number_fits(spec.os.raw());
}

fn vendor_numbers(spec: &VendorSpec)
    ensures { VendorNumbers (vendor_fields spec.now) }
{
    number_fits(spec.kernel_addr);
    number_fits(spec.ramdisk_addr);
    number_fits(spec.tags_addr);
    long_number_fits(spec.dtb_addr);
}

fn array_fits<T, const N: usize>(array: &[T; N])
    ensures { length array.now ≡ N }
{}

fn words_fit(words: &[u32])
    ensures { (i : ℕ) → slice_index words.now i < 2 ^ 32 }
{}

fn fragment_fits(fragment: &FragmentSpec)
    ensures { FragmentFits fragment.now }
{
    number_fits(fragment.kind);
    array_fits(&fragment.name);
    array_fits(&fragment.board_id);
    words_fit(&fragment.board_id);
}

fn fragments_fit(fragments: &[FragmentSpec], m: &mut Meter)
    ensures { All FragmentFits fragments.now }
{
    for fragment in fragments {
        m.tick();
        fragment_fits(fragment);
    }
}

/// If `pack_boot` accepts these fields and parts, they are an input of it, so that its image is opened and is
/// canonical.
pub fn boot_input<S: Source>(spec: &BootSpec, parts: &[S])
    requires { length parts.now ≡ length (boot_names spec.now.version) }
    ensures { IsTrue S.models → pack_boot_refusal (cmd_common_fields spec.now) (map S.size parts.now) ≡ None →
        IsBootInput (cmd_common_fields spec.now) (map S.content parts.now) }
{
    boot_numbers(spec);
}

/// The same for fields, fragments and parts that `pack_vendor` accepts.
pub fn vendor_input<S: Source>(
    spec: &VendorSpec,
    fragments: &[FragmentSpec],
    ramdisks: &[S],
    dtb: &S,
    bootconfig: &S,
    m: &mut Meter,
)
    requires three { spec.now.version ≡ 3 → (length fragments.now ≡ 0) × (length ramdisks.now ≡ 1) ×
        (S.size bootconfig.now ≡ 0) }
    requires four { spec.now.version ≡ 4 → length fragments.now ≡ length ramdisks.now }
    ensures { IsTrue S.models → pack_vendor_refusal (vendor_fields spec.now)
        (vendor_sizes_for (total S.size ramdisks.now) (S.size dtb.now) (length fragments.now) (S.size bootconfig.now))
        ≡ None → IsVendorInput (vendor_fields spec.now) (vendor_parts fragments.now (map S.content ramdisks.now)
        (S.content dtb.now) (S.content bootconfig.now)) }
{
    vendor_numbers(spec);
    fragments_fit(fragments, m);
}
