//! The digests of load files. Those that are wanted were computed by another program, of the longwords
//! of normal forms that were written by hand.

use super::asserts::{equals, equals_at};
use hunk_loadfile::read_load;
use hunk_survey::{Finding, normal_digest, survey_file, write_finding};
use hunk_test_support::bytes_of;
use hunk_test_support::load_words::{EVEN_WORDS, NO_WORDS, ZEROS};
use hunk_words::{Pieces, Room, Text};
use std::alloc::Global;
use std::process::Abort;
use std::test::Fail;

/// Two hunks: three longwords of code in chip memory, with a site, a symbol and a debug block; and a
/// longword of zeros.
const WHOLE: [u32; 24] = [
    0x3F3, 0, 2, 0, 1, 0x40000003, 1, //
    0x3E9, 3, 0x01020304, 0, 0, //
    0x3EC, 1, 1, 4, 0, //
    0x3F1, 1, 0xCAFEBABE, 0x3F2, //
    0x3EB, 1, 0x3F2,
];

/// The same with a symbol, a short relocation block, and a name, but without a longword of zeros.
const NAMED: [u32; 26] = [
    0x3F3, 0, 2, 0, 1, 0x40000003, 1, //
    0x3E8, 1, 0x6E616D65, //
    0x3E9, 2, 0x01020304, 0, //
    0x3FC, 0x00010001, 0x00040000, //
    0x3F0, 1, 0x666F6F00, 4, 0, 0x3F2, //
    0x3EB, 1, 0x3F2,
];

/// Its normal form.
const NORMAL: [u32; 19] = [
    0x3F3, 0, 2, 0, 1, 0x40000003, 1, //
    0x3E9, 1, 0x01020304, //
    0x3EC, 1, 1, 4, 0, 0x3F2, //
    0x3EB, 1, 0x3F2,
];

const NORMAL_DIGITS: &str = "6130c2dc278ce3b46a38ee55108ab2a4cb8bb473fddd2fafabd239c24bad7656";

/// Code that is zeros alone.
const ZERO_CODE: [u32; 11] = [0x3F3, 0, 1, 0, 0, 2, 0x3E9, 2, 0, 0, 0x3F2];

/// Load files, the number of their hunks, and the digests of their normal forms.
static ROWS: [(&[u32], u64, &str); 7] = [
    (&WHOLE, 2, NORMAL_DIGITS),
    (&NAMED, 2, NORMAL_DIGITS),
    (&NORMAL, 2, NORMAL_DIGITS),
    (
        &ZEROS,
        1,
        "abc16d399ae9a654b0db108eb6cc48fc8050578aeeaf45369fd36e554b65a7d5",
    ),
    (
        &EVEN_WORDS,
        1,
        "7004a465cfb2fcb50d9e4719fffe0efa20ba30b6172bd3ec4e17b9e5150f82c1",
    ),
    (
        &NO_WORDS,
        1,
        "39900938e71d5b1be972be08006d97c0b09a9d43804cd122d03c72356a1b65c5",
    ),
    (
        &ZERO_CODE,
        1,
        "fd1ad3cb91f40dd22555d902d65acbdd1954cf1b0c5f34b4808929582a81b7d8",
    ),
];

/// The line about the load file of a row, with its digest.
fn line_of(alloc: Global, digits: &str, hunks: u64) -> Result<String, Fail> {
    Ok(format!(in alloc; "a: load file: {hunks} hunks, SHA-256 {digits}\n")?)
}

/// The line about what was found, if it was found.
fn told(alloc: Global, finding: Finding) -> Result<Vec<u8>, Fail> {
    let mut writer = Room::new(alloc, 128, 128, false)?;
    let mut text = Text::new(&mut writer);
    write_finding(&mut text, b"a", finding);
    let _ = text.finish();
    Ok(writer.bytes().to_vec(alloc)?)
}

#[test]
fn finds_the_digest_of_the_normal_form(rt: HostRuntime) -> Result<(), Fail> {
    let alloc = rt.alloc();
    for &(words, hunks, digits) in &ROWS {
        let mut reader = Pieces::new(bytes_of(alloc, words, &[])?, 5, None);
        let finding = survey_file(alloc, &mut reader, true)?;
        let line = line_of(alloc, digits, hunks)?;
        equals_at(
            &rt,
            &digits,
            told(alloc, finding)?.as_slice(),
            line.as_bytes(),
        );
    }
    Ok(())
}

#[test]
fn finds_the_digest_of_a_load_file(rt: HostRuntime) -> Result<(), Fail> {
    let alloc = rt.alloc();
    for words in [&WHOLE[..], &NAMED, &NORMAL] {
        let bytes = bytes_of(alloc, words, &[])?;
        let file = read_load(alloc, &mut Pieces::new(bytes, 7, None))?;
        let digest = Some(normal_digest(alloc, file)?);
        let line = line_of(alloc, NORMAL_DIGITS, 2)?;
        let got = told(alloc, Finding::Load { hunks: 2, digest })?;
        equals(&rt, got.as_slice(), line.as_bytes());
    }
    Ok(())
}
