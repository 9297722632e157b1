//! Table files, byte for byte, and what they are opened to.

use crate::board::images::{ACTIONPOINT, WATCHPOINT, image};
use crate::board::values::{adt_file, wdt_file};
use crate::shared::{have, same};
use std::process::Abort;
use table_file::{AdtVersion, open};

/// The headers, from the cFE's magic word on; they differ in the image's length and the table's name.
const HEADERS: &[(usize, &[u8])] = &[
    (
        0,
        b"cFE1\x00\x00\x00\x08\x00\x00\x00\x40\x00\x00\x00\x42\x00\x00\x00\x01",
    ),
    (20, &[0; 52]),
    (85, &[0; 31]),
];

/// The file has these headers and then this image, and opens to it.
fn is_file<R: Abort>(rt: &R, file: &[u8], name: &[u8], length_and_name: &[u8], image: &[u8]) {
    have(rt, file, HEADERS);
    have(rt, file, &[(72, length_and_name)]);
    same(rt, name, file.get(116..), Some(image));
    let opened = open(file).expect(rt, "refused");
    same(rt, name, (opened.name(), opened.image()), (name, image));
}

#[test]
fn of_watchpoints(rt: HostRuntime) {
    let file = wdt_file(rt.alloc()).expect(&rt, "out of memory");
    let image = image(rt.alloc(), 1, 1, &WATCHPOINT, 24).expect(&rt, "out of memory");
    is_file(
        &rt,
        &file,
        b"LC.LC_WDT",
        b"\x00\x00\x10\xA8LC.LC_WDT",
        &image,
    );
}

#[test]
fn of_actionpoints(rt: HostRuntime) {
    let file = adt_file(rt.alloc(), AdtVersion::One).expect(&rt, "out of memory");
    let image = image(rt.alloc(), 1, 2, &ACTIONPOINT, 86).expect(&rt, "out of memory");
    is_file(
        &rt,
        &file,
        b"LC.LC_ADT",
        b"\x00\x00\x3B\x48LC.LC_ADT",
        &image,
    );
}

#[test]
fn of_actionpoints_of_version_2(rt: HostRuntime) {
    let file = adt_file(rt.alloc(), AdtVersion::Two).expect(&rt, "out of memory");
    let image = image(rt.alloc(), 2, 2, &ACTIONPOINT, 110).expect(&rt, "out of memory");
    is_file(
        &rt,
        &file,
        b"LC.LC_ADT",
        b"\x00\x00\x4B\xC8LC.LC_ADT",
        &image,
    );
}
