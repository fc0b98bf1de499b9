//! The sources that the program's disk opens without reading ahead, and with it, and a spool of what they return.

use crate::made::bytes;
use abt_io::{DeviceFault, Input, Output, Source, Spool};
use std::fs;
use sys_disk::{Disk, Lasting};
use sys_host::Reading;
use sys_host_disk::{Host, HostSource};
use sys_refusals::FileArg;
use sys_std::{OsFile, OsSystem};

// A file of this name that is read ahead, or is not.
fn source(host: &mut Host<OsSystem>, name: &str, is_ahead: bool) -> Option<HostSource<OsFile>> {
    let place = FileArg::new("IN", name);
    if is_ahead {
        host.ahead(place).ok()
    } else {
        host.source(place).ok()
    }
}

#[test]
fn a_file_that_grew_is_asked_for_its_length(rt: HostRuntime) {
    for is_ahead in [false, true] {
        let mut host = Host::new(Reading::new(OsSystem { rt }));
        fs::write(&rt, "grown.tmp", "abc").expect(&rt, "is written");
        let mut one = source(&mut host, "grown.tmp", is_ahead).expect(&rt, "opens");
        let mut other = host.again(&one, FileArg::new("IN", "grown.tmp"));
        fs::write(&rt, "grown.tmp", "abcdef").expect(&rt, "is written");
        assert!(rt; one.length() == 3);
        assert!(rt; one.length_now() == 6);
        let mut out = [0; 4];
        assert!(rt; one.read_at(1, &mut out) == Ok(4));
        assert!(rt; out == *b"bcde");
        one.rest();
        one.forget();
        assert!(rt; one.shorter() == None);
        if let Ok(other) = &mut other {
            assert!(rt; other.read_at(3, &mut out) == Ok(3));
            assert!(rt; other.shorter() == None);
        }
        assert!(rt; other.is_ok());
        host.let_go_source(one);
    }
}

/// What came from memory is not returned where the file has become shorter, and a spool that can't be written reports
/// it.
#[test]
fn a_spool_of_what_was_read_ahead_is_told_of_its_file(rt: HostRuntime) {
    for is_ahead in [false, true] {
        let mut host = Host::new(Reading::new(OsSystem { rt }));
        fs::write(&rt, "long.tmp", bytes(rt.alloc(), 900).as_slice()).expect(&rt, "is written");
        let mut from = source(&mut host, "long.tmp", is_ahead).expect(&rt, "opens");
        let through = host.spool(FileArg::new("SPOOL", "of_long.tmp"), 4096, is_ahead, &from);
        let mut through = through.ok().expect(&rt, "opens");
        let mut out = [0; 12];
        assert!(rt; through.clear() == Ok(()));
        assert!(rt; from.read_at(100, &mut out) == Ok(12));
        assert!(rt; through.write(&out) == Ok(12));
        fs::write(&rt, "long.tmp", "abc").expect(&rt, "is written");
        let read = through.read(&mut out);
        assert!(rt;
            read == if is_ahead {
                Err(DeviceFault::Failed)
            } else {
                Ok(12)
            }
        );
        let closed = host.close_spool(through, FileArg::new("SPOOL", "of_long.tmp"));
        let is_changed = closed.ok().expect(&rt, "closes");
        assert!(rt; is_changed || !is_ahead);
    }
}
