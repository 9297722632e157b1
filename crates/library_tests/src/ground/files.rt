//! Rule texts with the files to which they compile, byte for byte.

use crate::shared::{LOW_VOLTS, have, same};
use rpn_compiler::compile;
use std::process::Abort;

/// Bytes of a file, and the place of the first of them.
type FilePart<'a> = (usize, &'a [u8]);

/// The place of the hash in a file, and that of the first entry, counted from 0.
const HASH: usize = 124;

const ENTRIES: usize = 156;

/// The length of an entry of each table in bytes.
const WDT_ENTRY: usize = 24;

const ADT_ENTRY: usize = 110;

/// A text, the number of entries that it uses in both tables, and parts of both files.
type FileRow<'a> = (&'a [u8], (u16, u16), &'a [FilePart<'a>], &'a [FilePart<'a>]);

/// A text without rules; its hash is the SHA-256 of no bytes.
const EMPTY: FileRow<'static> = (
    b"",
    (0, 0),
    &[
        (116, &[0, 1, 0, 1, 0, 0, 0, 0]),
        (
            HASH,
            b"\xE3\xB0\xC4\x42\x98\xFC\x1C\x14\x9A\xFB\xF4\xC8\x99\x6F\xB9\x24\x27\xAE\x41\xE4\x64\x9B\x93\x4C\xA4\x95\x99\x1B\x78\x52\xB8\x55",
        ),
    ],
    &[
        (116, &[0, 2, 0, 2, 0, 0, 0, 0]),
        (
            HASH,
            b"\xE3\xB0\xC4\x42\x98\xFC\x1C\x14\x9A\xFB\xF4\xC8\x99\x6F\xB9\x24\x27\xAE\x41\xE4\x64\x9B\x93\x4C\xA4\x95\x99\x1B\x78\x52\xB8\x55",
        ),
    ],
);

/// One rule over one watchpoint, with all bytes that aren't blank.
const LOW: FileRow<'static> = (
    LOW_VOLTS,
    (1, 1),
    &[
        (
            0,
            b"cFE1\x00\x00\x00\x08\x00\x00\x00\x40\x00\x00\x00\x42\x00\x00\x00\x01",
        ),
        (20, &[0; 52]),
        (72, b"\x00\x00\x10\xA8LC.LC_WDT"),
        (85, &[0; 31]),
        (116, &[0, 1, 0, 1, 0, 1, 0, 1]),
        (
            HASH,
            b"\xAE\xB0\x91\xA1\xB0\x23\x45\x79\xCB\x52\xD4\x3F\x9B\x60\x66\x2E\x15\xA4\xBC\x44\xAC\x19\xA7\x8F\xD4\x09\x06\x87\xF2\xAF\x28\x4B",
        ),
        (
            ENTRIES,
            b"\x03\x01\x08\x83\0\0\0\x0C\0\0\xFF\xFF\0\0\0\0\0\0\0\x02\0\0\x09\x60",
        ),
    ],
    &[
        (
            0,
            b"cFE1\x00\x00\x00\x08\x00\x00\x00\x40\x00\x00\x00\x42\x00\x00\x00\x01",
        ),
        (20, &[0; 52]),
        (72, b"\x00\x00\x4B\xC8LC.LC_ADT"),
        (85, &[0; 31]),
        (116, &[0, 2, 0, 2, 0, 1, 0, 1]),
        (
            HASH,
            b"\xAE\xB0\x91\xA1\xB0\x23\x45\x79\xCB\x52\xD4\x3F\x9B\x60\x66\x2E\x15\xA4\xBC\x44\xAC\x19\xA7\x8F\xD4\x09\x06\x87\xF2\xAF\x28\x4B",
        ),
        (
            ENTRIES,
            b"\x01\0\0\0\0\0\0\x07\0\x02\0\x03\x03\xE9low volts\0\0\0\0\0\0\0\0\0\0\0\0\0\0\0\0\0\0\0\0\0\0\0",
        ),
        (202, b"\0\0\xFF\x05"),
        (206, &[0; 60]),
    ],
);

/// Two packets that are used before they are declared, a watchpoint that both rules mention, and a condition with the
/// heavier operand first.
const TWO: FileRow<'static> = (
    b"rule LOW passive fails 1 sequence 300 event debug 2000 \"\" report 1 2 3 when not (V < 2400 and X == -1);
    # used before they are declared
    field X = Q i8 at 12 mask 0x7F; packet Q = mid 0x0884 length 13;
    field V = P u16le at 0; packet P = mid 0x0883 length 12;
    rule B disabled fails 258 sequence 1 event critical 1000 \"b\" when X == -1 or (V >= 5 xor V < 2400);",
    (3, 2),
    &[
        (
            ENTRIES,
            b"\x04\x01\x08\x83\0\0\0\0\0\0\xFF\xFF\0\0\0\0\0\0\0\0\0\0\x09\x60",
        ),
        (
            ENTRIES + WDT_ENTRY,
            b"\x02\x04\x08\x84\0\0\0\x0C\0\0\0\x7F\0\0\0\0\0\0\0\0\xFF\xFF\xFF\xFF",
        ),
        (
            ENTRIES + 2 * WDT_ENTRY,
            b"\x04\x05\x08\x83\0\0\0\0\0\0\xFF\xFF\0\0\0\0\0\0\0\0\0\0\0\x05",
        ),
    ],
    &[
        (116, &[0, 2, 0, 2, 0, 2, 0, 3]),
        (ENTRIES, b"\x02\x01\0\x02\0\x03\x01\x2C\0\x01\0\x01\x07\xD0"),
        (ENTRIES + 46, b"\0\0\0\x01\xFF\x01\xFF\x04\xFF\x05\0\0"),
        (
            ENTRIES + ADT_ENTRY,
            b"\x03\0\0\0\0\0\0\x01\x01\x02\0\x04\x03\xE8b\0",
        ),
        (
            ENTRIES + ADT_ENTRY + 46,
            b"\0\x02\0\0\xFF\x03\0\x01\xFF\x02\xFF\x05\0\0",
        ),
    ],
);

/// Checks that all entries from `number` on are blank: 0xFF and zeros.
fn are_blank<R: Abort>(rt: &R, file: &[u8], size: usize, number: u16) {
    let from = size
        .saturating_mul(usize::from(number))
        .saturating_add(ENTRIES);
    for (place, byte) in file.iter().enumerate().skip(from) {
        let is_first = place.saturating_sub(ENTRIES).checked_rem(size) == Some(0);
        let expected = if is_first { 0xFF } else { 0 };
        same(rt, place, *byte, expected);
    }
}

/// Checks that each text compiles to its files.
fn compile_so<R: Abort + AllocGlobal>(rt: &R, rows: &[FileRow]) {
    for &(text, counts, wdt, adt) in rows {
        let pair = compile(rt.alloc(), text).expect(rt, "refused");
        same(rt, text, (pair.watchpoints, pair.rules), counts);
        same(rt, text, (pair.wdt.len(), pair.adt.len()), (4_380, 19_516));
        have(rt, pair.wdt.as_slice(), wdt);
        have(rt, pair.adt.as_slice(), adt);
        are_blank(rt, pair.wdt.as_slice(), WDT_ENTRY, pair.watchpoints);
        are_blank(rt, pair.adt.as_slice(), ADT_ENTRY, pair.rules);
    }
}

#[test]
fn of_three_texts(rt: HostRuntime) {
    compile_so(&rt, &[EMPTY, LOW, TWO]);
}
