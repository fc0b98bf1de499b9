//! What is replaced in an image that is packed again.

ghost use Rattle.std.specs.Prelude.{◌≡◌, codes, is_some};
ghost use Rattle.cmd_common_boot.specs.Given.{found};

use cmd_common_boot::PackTexts;
use cmd_common_findings::Anew;

/// What is replaced, or kept as it is.
pub(crate) fn anew_of(texts: &PackTexts<'_>, keeps_trailing: bool) -> Anew
    ensures name { result.name ≡ is_some (found texts.now.options.items (codes "name")) }
    ensures cmdline { result.cmdline ≡ is_some (found texts.now.options.items (codes "cmdline")) }
    ensures trailing { result.trailing ≡ keeps_trailing }
{
    Anew {
        name: texts.has("name"),
        cmdline: texts.has("cmdline"),
        trailing: keeps_trailing,
    }
}
