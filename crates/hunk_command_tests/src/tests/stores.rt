//! Commands over files in memory.

use super::asserts::{equals, equals_at, holds};
use bumpalo::Bump;
use hunk_commands::copy::copy;
use hunk_commands::image::image;
use hunk_commands::link::{link, link_with_map};
use hunk_commands::load::load;
use hunk_commands::{Addresses, Failure, LoadText, MemoryStore, Output, Store};
use hunk_fake_files::{CALLEE, CALLER, ONE_HUNK, ONE_SYMBOL, PLAIN, PROGRAM, WITH_GLOBALS};
use hunk_tool::{
    CopyForm, FileSystem, FileType, ImageForm, LinkOptions, OpenFault, SymbolForm, ToolFault,
};
use hunk_words::{DeviceFault, Fault, Reason, Sink, Source, Watched};
use std::alloc::{AllocError, Global};
use std::process::Abort;
use std::test::Fail;

const STRIP: LinkOptions = LinkOptions {
    strip: true,
    ..PLAIN
};

const STRIPPED: CopyForm = CopyForm::Written(STRIP);

/// An output that keeps nothing back.
#[derive(Drop)]
pub(super) struct Unbuffered<W> {
    pub(super) sink: W,
}

impl<W: Sink> Sink for Unbuffered<W> {
    ghost taken = { λ output. W.taken output.sink };

    ghost failed = { λ output. W.failed output.sink };

    fn write(&mut self, buffer: &[u8]) -> Result<usize, DeviceFault> {
        self.sink.write(buffer)
    }

    fn failed(&self) -> bool {
        self.sink.failed()
    }
}

impl<W: Sink> Output for Unbuffered<W> {
    ghost use Rattle.std.specs.Prelude.{[]};

    ghost waiting = { λ output. [] };

    fn flush(&mut self) -> Result<(), DeviceFault> {
        Ok(())
    }
}

/// An output to memory.
fn new_output(alloc: Global) -> Unbuffered<Watched<Vec<u8>>> {
    Unbuffered {
        sink: Watched::new(Vec::new(alloc)),
    }
}

/// The files that a store has from the start.
fn all_files() -> [(&'static str, &'static [u8]); 4] {
    [
        ("caller", &CALLER),
        ("callee", &CALLEE),
        ("one-hunk", &ONE_HUNK),
        ("one-symbol", &ONE_SYMBOL),
    ]
}

/// A store of these files.
pub(super) fn store_in(alloc: Global, arena: &Bump) -> Result<MemoryStore<'_>, AllocError> {
    let mut store = MemoryStore::new(alloc, arena);
    for (name, bytes) in all_files() {
        store.insert(name, bytes)?;
    }
    Ok(store)
}

/// The files are what they were, but for the one with this name.
pub(super) fn are_unchanged_but(rt: &impl Abort, store: &MemoryStore<'_>, changed: &str) {
    for (name, bytes) in all_files() {
        if name != changed {
            equals_at(rt, &name, store.bytes(name), Some(bytes));
        }
    }
}

#[test]
fn links_files_to_one_beside_them(rt: HostRuntime) -> Result<(), Fail> {
    let arena = Bump::new(rt.alloc());
    let mut store = store_in(rt.alloc(), &arena)?;
    for out in ["out", "out", "callee"] {
        let linked = link(
            rt.alloc(),
            &mut store,
            out,
            PLAIN,
            false,
            &["caller", "callee"],
        );
        equals_at(&rt, &out, linked, Ok(()));
        equals_at(&rt, &out, store.bytes(out), Some(PROGRAM.as_slice()));
        are_unchanged_but(&rt, &store, out);
    }
    Ok(())
}

#[test]
fn prints_of_a_linked_file_what_it_prints_of_its_object_files(rt: HostRuntime) -> Result<(), Fail> {
    let alloc = rt.alloc();
    let arena = Bump::new(alloc);
    let mut store = store_in(alloc, &arena)?;
    let files = ["caller", "callee"];
    for globals in [false, true] {
        let linked = link(alloc, &mut store, "out", PLAIN, globals, &files);
        equals_at(&rt, &globals, linked, Ok(()));
        prints_the_image(&rt, alloc, &store, &files)?;
    }
    Ok(())
}

/// What `load` prints of `out` is what `image` prints of these files.
fn prints_the_image(
    rt: &impl Abort,
    alloc: Global,
    store: &MemoryStore<'_>,
    files: &[&'static str],
) -> Result<(), Fail> {
    let addresses = Addresses::List("10000,20000");
    for form in [ImageForm::Report, ImageForm::SRecords] {
        let mut loaded = new_output(alloc);
        let text = LoadText::Image(form);
        let ended = load(alloc, store, &mut loaded, addresses, text, "out");
        equals(rt, ended, Ok(()));
        let mut imaged = new_output(alloc);
        let text = LoadText::Image(form);
        let ended = image(alloc, store, &mut imaged, addresses, text, files);
        equals(rt, ended, Ok(()));
        let text = loaded.sink.into_inner();
        holds(rt, &"something is printed", !text.is_empty());
        equals(rt, imaged.sink.into_inner().as_slice(), text.as_slice());
    }
    Ok(())
}

/// The hunk that defines `foo` at 4 has it as a symbol, also without the symbols of the units.
#[test]
fn links_files_with_globals(rt: HostRuntime) -> Result<(), Fail> {
    let alloc = rt.alloc();
    let arena = Bump::new(alloc);
    let mut store = store_in(alloc, &arena)?;
    let files = ["caller", "callee"];
    for options in [PLAIN, STRIP] {
        let linked = link(alloc, &mut store, "out", options, true, &files);
        equals(&rt, linked, Ok(()));
        equals(&rt, store.bytes("out"), Some(WITH_GLOBALS.as_slice()));
    }
    are_unchanged_but(&rt, &store, "out");
    prints_the_image(&rt, alloc, &store, &files)
}

#[test]
fn copies_a_file_over_itself(rt: HostRuntime) -> Result<(), Fail> {
    let arena = Bump::new(rt.alloc());
    let mut store = store_in(rt.alloc(), &arena)?;
    let copied = copy(rt.alloc(), &mut store, "one-symbol", STRIPPED, "one-symbol");
    equals(&rt, copied, Ok(()));
    equals(&rt, store.bytes("one-symbol"), Some(ONE_HUNK.as_slice()));
    are_unchanged_but(&rt, &store, "one-symbol");
    Ok(())
}

#[test]
fn a_link_that_fails_leaves_every_file_as_it_was(rt: HostRuntime) -> Result<(), Fail> {
    let alloc = rt.alloc();
    let arena = Bump::new(alloc);
    let mut store = store_in(alloc, &arena)?;
    for out in ["callee", "out"] {
        let unlinked = link(alloc, &mut store, out, PLAIN, false, &["caller"]);
        let is_unlinked = matches!(unlinked, Err(Failure::Tool(ToolFault::Link(_))));
        holds(&rt, &out, is_unlinked);
        let refused = link(
            alloc,
            &mut store,
            out,
            PLAIN,
            false,
            &["callee", "one-hunk"],
        );
        let fault = Fault {
            place: 0,
            reason: Reason::WrongStart,
        };
        let input = Failure::Tool(ToolFault::Input { file: 1, fault });
        equals_at(&rt, &out, refused, Err(input));
        let missing = link(alloc, &mut store, out, PLAIN, false, &["caller", "x"]);
        let unopened = Failure::Opening("x", OpenFault::NotFound);
        equals_at(&rt, &out, missing, Err(unopened));
        let files = ["caller", "callee"];
        let mapped = link_with_map(alloc, &mut store, out, out, PLAIN, false, &files, &[]);
        equals_at(&rt, &out, mapped, Err(Failure::SameFile(out)));
        are_unchanged_but(&rt, &store, "");
        equals(&rt, store.bytes("out"), None);
    }
    Ok(())
}

/// With an allocation that fails, `callee` is what it was, and the next link replaces it.
#[test]
fn every_file_is_what_it_was_where_memory_runs_out(rt: HostRuntime) -> Result<(), Fail> {
    let alloc = rt.alloc();
    let arena = Bump::new(alloc);
    let mut store = store_in(alloc, &arena)?;
    let files = ["caller", "callee"];
    let linked = link(alloc, &mut store, "callee", PLAIN, false, &files);
    if linked.is_err() {
        equals(&rt, linked, Err(Failure::out_of_memory()));
        are_unchanged_but(&rt, &store, "");
        let again = link(alloc, &mut store, "callee", PLAIN, false, &files);
        equals(&rt, again, Ok(()));
    }
    equals(&rt, store.bytes("callee"), Some(PROGRAM.as_slice()));
    are_unchanged_but(&rt, &store, "callee");
    Ok(())
}

#[test]
fn prints_nothing_of_a_file_that_is_missing(rt: HostRuntime) -> Result<(), Fail> {
    let alloc = rt.alloc();
    let arena = Bump::new(alloc);
    let store = store_in(alloc, &arena)?;
    let mut printed = new_output(alloc);
    let text = LoadText::Symbols(SymbolForm::Lines);
    for (addresses, file) in [
        (Addresses::List("0"), "x"),
        (Addresses::File("x"), "one-hunk"),
    ] {
        let ended = load(alloc, &store, &mut printed, addresses, text, file);
        let unopened = Failure::Opening("x", OpenFault::NotFound);
        equals(&rt, ended, Err(unopened));
    }
    equals(&rt, printed.sink.into_inner().as_slice(), b"".as_slice());
    equals(&rt, store.file_type("x"), FileType::Unknown);
    equals(&rt, store.file_type("one-hunk"), FileType::Regular);
    Ok(())
}

#[test]
fn an_open_file_keeps_its_bytes_while_it_is_replaced(rt: HostRuntime) -> Result<(), Fail> {
    let arena = Bump::new(rt.alloc());
    let mut store = store_in(rt.alloc(), &arena)?;
    let mut file = store.open("caller").ok().ok_or("caller")?;
    store.insert("caller", b"new")?;
    let mut buffer = [0; 40];
    let mut bytes = Vec::new(rt.alloc());
    for count in [40, 12, 0, 0] {
        let got = file.read(&mut buffer)?;
        equals(&rt, got, count);
        bytes.extend_from_slice(&buffer[..got])?;
        equals_at(&rt, &count, file.ended(), count == 0);
    }
    equals(&rt, bytes.as_slice(), CALLER.as_slice());
    equals(&rt, store.bytes("caller"), Some(b"new".as_slice()));
    Ok(())
}
