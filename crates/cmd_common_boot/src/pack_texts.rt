//! The arguments of `pack` and `repack`, with the bytes that each encodes.

ghost use Rattle.std.specs.Prelude.{◌≡◌, ◌↔◌, None, Some, MatchOption, IfErr, IsTrue, OnOk, is_some};
ghost use Rattle.std.specs.List.{All};
ghost use Rattle.cmd_common_boot.specs.Carried.{IsCarried, IsTaken};
ghost use Rattle.cmd_common_boot.specs.Given.{bytes_or, found, number_in};
ghost use Rattle.cmd_common_boot.specs.Wrong.{IsBadFragment, IsNotCarried, IsUntaken};

use crate::fault::BootCommandFault;
use abt_sections::FragmentSpec;
use cmd_common_fields::ImageKind;
use words_values::Row;

/// An option that was given.
#[derive(Drop)]
pub struct OptionText<'a> {
    /// Its row in the table of the command line, and the name that it has there.
    pub row: &'static Row,
    pub name: &'static str,
    /// The argument, as it is written.
    pub word: &'a str,
    /// The number that it writes, of an option that is one.
    pub number: u64,
    /// The bytes that it encodes.
    pub bytes: Vec<u8>,
}

impl OptionText<'_> {
    // Whether an image of this kind carries it.
    fn is_carried_by(&self, kind: ImageKind) -> bool
        ensures { IsTrue result ↔ IsCarried kind self.now }
    {
        match kind {
            ImageKind::Boot(version) => self.row.is_carried_by(false, version),
            ImageKind::Vendor(version) => self.row.is_carried_by(true, version),
        }
    }
}

/// A ramdisk fragment that was given.
#[derive(Drop)]
pub struct FragmentText<'a> {
    /// The argument, as it is written.
    pub word: &'a str,
    /// The entry of the fragment that it describes, where it has the form TYPE:NAME:FILE.
    pub spec: Option<FragmentSpec>,
    /// The bytes that FILE encodes.
    pub path: Vec<u8>,
}

impl FragmentText<'_> {
    // Whether its argument is valid, and an image of this kind has fragments.
    fn is_taken_by(&self, kind: ImageKind) -> bool
        ensures { IsTrue result ↔ IsTaken kind self.now }
    {
        kind == ImageKind::Vendor(4) && self.spec.is_some()
    }
}

/// The options and the fragments that were given, in the order of the table.
#[derive(Drop)]
pub struct PackTexts<'a> {
    pub options: Vec<OptionText<'a>>,
    pub fragments: Vec<FragmentText<'a>>,
    /// Whether a zero ends the first field of a long command line.
    pub is_front_ended: bool,
}

impl<'a> PackTexts<'a> {
    /// The option of this name, where it was given.
    #[inline(never)]
    pub fn find(&self, name: &str) -> Option<&OptionText<'a>>
        ensures { MatchOption result (found self.now.options.items name.now ≡ None)
            (λ option. found self.now.options.items name.now ≡ Some option.now) }
    {
        for option in &self.options {
            if option.name == name {
                return Some(option);
            }
        }
        None
    }

    /// Whether this option was given.
    #[inline(never)]
    pub fn has(&self, name: &str) -> bool
        ensures { result ≡ is_some (found self.now.options.items name.now) }
    {
        match self.find(name) {
            Some(_) => true,
            None => false,
        }
    }

    /// The number that this option was given.
    #[inline(never)]
    pub fn number(&self, name: &str) -> Option<u64>
        ensures { result ≡ number_in self.now.options.items name.now }
    {
        Some(self.find(name)?.number)
    }

    /// The bytes that this option was given, or else these.
    pub fn bytes_or<'t>(&'t self, name: &str, own: &'t [u8]) -> &'t [u8]
        ensures { result.now ≡ bytes_or self.now.options.items name.now own.now }
    {
        match self.find(name) {
            Some(option) => option.bytes.as_slice(),
            None => own,
        }
    }

    /// Fails with the first option of the table that an image of this kind doesn't have. Otherwise fails with the
    /// first FRAGMENT that is invalid, or with any FRAGMENT where the image has no fragments.
    pub fn check(&self, kind: ImageKind) -> Result<(), BootCommandFault<'a>>
        ensures carried { OnOk result (All (IsCarried kind) self.now.options.items) }
        ensures taken { OnOk result (All (IsTaken kind) self.now.fragments.items) }
        ensures wrong { IfErr result (IsUntaken kind self.now.options.items self.now.fragments.items) }
    {
        if let Some(name) = self.not_carried(kind) {
            return Err(BootCommandFault::OptionNotCarried(name));
        }
        match self.not_taken(kind) {
            Some(word) => Err(BootCommandFault::BadFragment(word)),
            None => Ok(()),
        }
    }

    // The name of the first option that an image of this kind doesn't carry.
    fn not_carried(&self, kind: ImageKind) -> Option<&'static str>
        ensures { MatchOption result (All (IsCarried kind) self.now.options.items)
            (λ name. IsNotCarried kind self.now.options.items name.now) }
    {
        for option in &self.options {
            if !option.is_carried_by(kind) {
                return Some(option.name);
            }
        }
        None
    }

    // The argument of the first fragment that an image of this kind doesn't take.
    fn not_taken(&self, kind: ImageKind) -> Option<&'a str>
        ensures { MatchOption result (All (IsTaken kind) self.now.fragments.items)
            (λ word. IsBadFragment kind self.now.fragments.items word.now) }
    {
        for fragment in &self.fragments {
            if !fragment.is_taken_by(kind) {
                return Some(fragment.word);
            }
        }
        None
    }
}
