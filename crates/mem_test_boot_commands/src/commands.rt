//! The commands over any disk, as one call.

ghost use Rattle.std.specs.Prelude.{IsTrue};
ghost use Rattle.sys_disk.specs.World.{IsReading};

use crate::orders::{kernel_alone, nothing_given};
use abt_io::{Meter, Window};
use cmd_info::info_file;
use cmd_pack::{pack_file, repack_file};
use cmd_unpack::unpack_file;
use std::alloc::{AllocError, Global};
use sys_disk::Disk;
use sys_refusals::FileArg;
use sys_report::Report;

/// The commands.
#[derive(Clone, Copy, Drop)]
pub enum BootCall {
    Unpack,
    UnpackWords,
    Info,
    InfoHex,
    InfoCheck,
    /// A boot image of this version, with IN as its kernel.
    Pack(u32),
    /// IN's image, with nothing replaced.
    Repack,
}

/// Each command that is done where nothing fails.
pub const EACH: [BootCall; 8] = [
    BootCall::Unpack,
    BootCall::UnpackWords,
    BootCall::Info,
    BootCall::InfoHex,
    BootCall::Pack(0),
    BootCall::Pack(3),
    BootCall::Pack(4),
    BootCall::Repack,
];

/// Whether a command with IN over this disk, on which nothing is open yet, returns Ok.
pub fn is_done<D: Disk>(
    command: BootCall,
    alloc: Global,
    disk: &mut D,
    report: &mut Report,
    w: &mut Window,
    m: &mut Meter,
) -> Result<bool, AllocError>
    requires { IsTrue D.models → IsReading (D.held disk.old) }
{
    let input = FileArg::new("IN", "in");
    Ok(match command {
        BootCall::Unpack => unpack_file(disk, report, input, "parts", false, w, m).is_ok(),
        BootCall::UnpackWords => unpack_file(disk, report, input, "parts", true, w, m).is_ok(),
        BootCall::Info => info_file(disk, report, input, false, false, w, m).is_ok(),
        BootCall::InfoHex => info_file(disk, report, input, false, true, w, m).is_ok(),
        BootCall::InfoCheck => info_file(disk, report, input, true, false, w, m).is_ok(),
        BootCall::Pack(version) => {
            let order = kernel_alone(alloc, version)?;
            pack_file(disk, report, &order, w, m).is_ok()
        }
        BootCall::Repack => {
            let order = nothing_given(alloc);
            repack_file(disk, report, input, &order, w, m).is_ok()
        }
    })
}
