//! The image of a load file, and its symbols.

use super::asserts::equals;
use hunk_commands::LoadText;
use hunk_commands::load::load_to;
use hunk_fake_files::{Broken, ONE_HUNK, ONE_SYMBOL};
use hunk_tool::{ImageForm, SymbolForm, ToolFault};
use hunk_words::{Fault, Reason, Watched};
use std::alloc::Global;
use std::io::Read;
use std::process::Abort;

/// What is written of a file at an address, and what the call returns.
fn load_at<I: Read + Drop>(
    alloc: Global,
    input: I,
    text: LoadText,
    base: u32,
) -> (Vec<u8>, Result<(), ToolFault>) {
    let mut writer = Watched::new(Vec::new(alloc));
    let got = load_to(alloc, &mut Watched::new(input), &[base], text, &mut writer);
    (writer.into_inner(), got)
}

/// Whether these lines are written of a file at the address 10000.
fn has_text(rt: &impl Abort, alloc: Global, file: &[u8], text: LoadText, lines: &str) {
    let (bytes, got) = load_at(alloc, file, text, 0x1_0000);
    equals(rt, got, Ok(()));
    equals(rt, bytes.as_slice(), lines.as_bytes());
}

#[test]
fn writes_the_texts_of_files(rt: HostRuntime) {
    let alloc = rt.alloc();
    let report = LoadText::Image(ImageForm::Report);
    let lines = "hunk 0 at 00010000 size 4\n00010000 4e754e71\n";
    has_text(&rt, alloc, &ONE_HUNK, report, lines);
    let records = LoadText::Image(ImageForm::SRecords);
    let lines = "S00A0000616D6968756E6B08\nS309000100004E754E7173\nS70500000000FA\n";
    has_text(&rt, alloc, &ONE_HUNK, records, lines);
    let symbols = LoadText::Symbols(SymbolForm::Lines);
    let lines = "00010002 hunk 0 \"loop\"\n";
    has_text(&rt, alloc, &ONE_SYMBOL, symbols, lines);
    let symbols = LoadText::Symbols(SymbolForm::Records);
    let lines = "$$ amihunk\n  loop $00010002\n$$ \n\
         S00A0000616D6968756E6B08\nS309000100004E754E7173\nS70500000000FA\n";
    has_text(&rt, alloc, &ONE_SYMBOL, symbols, lines);
}

#[test]
fn tells_why_there_is_no_text_of_a_file(rt: HostRuntime) {
    let alloc = rt.alloc();
    let report = LoadText::Image(ImageForm::Report);
    let fault = Fault {
        place: 9,
        reason: Reason::PartialLongword,
    };
    let lines = LoadText::Symbols(SymbolForm::Lines);
    let records = LoadText::Symbols(SymbolForm::Records);
    for text in [report, lines, records] {
        let (bytes, got) = load_at(alloc, &ONE_HUNK[..38], text, 0x1_0000);
        equals(&rt, got, Err(ToolFault::Input { file: 0, fault }));
        equals(&rt, bytes.as_slice(), b"");
        let (bytes, got) = load_at(alloc, Broken, text, 0x1_0000);
        equals(&rt, got, Err(ToolFault::InputDevice { file: 0 }));
        equals(&rt, bytes.as_slice(), b"");
    }
    let mut reader = Watched::new(ONE_HUNK.as_slice());
    let mut writer = Watched::new(Broken);
    let got = load_to(alloc, &mut reader, &[0x1_0000], report, &mut writer);
    equals(&rt, got, Err(ToolFault::Output { written: 0 }));
}
