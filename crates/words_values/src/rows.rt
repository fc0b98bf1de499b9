//! A row of the table of a command line: a word, an option or a flag.

ghost use Rattle.std.specs.Prelude.{◌≡◌, ◌↔◌, IsTrue, false, Contains};

/// A positional word, an option or a flag.
#[derive(Clone, Copy)]
pub struct Row {
    /// The name: of an option without its hyphens, of a word as help shows it.
    pub name: &'static str,
    pub place: WordPlace,
    /// The kind of its value.
    pub value: Value,
    /// What help calls an option's value.
    pub value_name: &'static str,
    pub is_required: bool,
    /// The default value.
    pub default: Option<&'static str>,
    /// The word that must be given with it.
    pub needs: Option<&'static str>,
    /// The option that must not be given with it.
    pub excludes: Option<&'static str>,
    /// The header versions of boot images that carry it.
    pub boot: &'static [u32],
    /// The header versions of vendor boot images that carry it.
    pub vendor: &'static [u32],
    pub help: &'static str,
}

/// Where the words of a row are on the command line, and how often.
#[derive(Clone, Copy)]
pub enum WordPlace {
    /// A positional word.
    Word,
    /// One word or more.
    Words,
    /// Words after all others, or none.
    LastWords,
    /// `--NAME VALUE`.
    Option,
    /// The same, which may be given again.
    Options,
    /// `--NAME`.
    Flag,
    /// The same, or a hyphen and this letter.
    ShortFlag(char),
    /// `-N VALUE`, where the name N is a letter.
    Letter,
}

/// The kind of a row's value.
#[derive(Clone, Copy)]
pub enum Value {
    /// The path of a file.
    File,
    /// A number of 32 bits, in the notation of flashing guides.
    Number,
    /// The same of 64 bits.
    LongNumber,
    /// A number of 32 bits in decimal digits, at least this one.
    Count(u32),
    /// A text as it is written.
    Text,
    /// The same, which may begin with a hyphen.
    CommandLine,
    /// `A.B.C-YYYY-MM`.
    Os,
    /// One of these names.
    Name(&'static [&'static str]),
    /// Whether it was given.
    IsGiven,
    /// A number of 32 bits, as Python reads it.
    PythonNumber,
    /// The same of 64 bits.
    LongPythonNumber,
    /// An OS version, `A.B.C`, as mkbootimg reads it.
    OsVersion,
    /// A patch level, `YYYY-MM`, as mkbootimg reads it.
    PatchLevel,
    /// None: giving it is an error.
    NotTaken,
}

impl Row {
    /// Whether a boot image, or a vendor boot image, of this header version carries the option.
    pub fn is_carried_by(&self, is_vendor: bool, version: u32) -> bool
        ensures vendor { IsTrue is_vendor → (IsTrue result ↔ Contains self.now.vendor.now version) }
        ensures boot { is_vendor ≡ false → (IsTrue result ↔ Contains self.now.boot.now version) }
    {
        if is_vendor {
            self.vendor.contains(&version)
        } else {
            self.boot.contains(&version)
        }
    }
}
