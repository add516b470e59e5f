//! What decoders and loaders keep: errors that are returned again, and allocations that fail.

use super::asserts::{equals, equals_at, holds};
use super::decoders::{Judge, answers_again};
use hunk_loader::{ImageLoader, LoadRefusal};
use hunk_loadfile::LoadDecoder;
use hunk_test_support::words::{PAST_CONTENT, SCATTERED};
use hunk_test_support::{BASE, FILE, Refusing, bytes_of};
use hunk_tool::{LoadCounter, ObjectCounter};
use hunk_words::{Core, CoreState, Decoder, Fault, Feed, Reason, Refusal, Splitter};
use std::alloc::{Allocator, Global};
use std::process::Abort;
use std::test::Fail;

/// More allocations than a file of the tests needs.
const MOST_GROWTHS: u64 = 128;

/// The decoder of an object file that refuses these bytes returns this error again.
fn answers_for_an_object<A: Allocator + Copy>(
    rt: &impl Abort,
    alloc: A,
    bytes: &[u8],
    refusal: LoadRefusal,
) {
    let mut decoder = Decoder::new(ObjectCounter::new(alloc));
    equals(rt, decoder.judge(bytes), Err(refusal));
    answers_again(rt, decoder, refusal);
}

/// The same for the decoder and the loader of a load file.
fn answers_for_a_load<A: Allocator + Copy>(
    rt: &impl Abort,
    alloc: A,
    bytes: &[u8],
    refusal: LoadRefusal,
) -> Result<(), Fail> {
    let mut decoder = LoadDecoder::new(alloc);
    equals(rt, decoder.judge(bytes), Err(refusal));
    answers_again(rt, decoder, refusal);
    let mut loader = ImageLoader::new(alloc, &[BASE])?;
    equals(rt, loader.judge(bytes), Err(refusal));
    answers_again(rt, loader, refusal);
    Ok(())
}

#[test]
fn answers_a_refusal_again(rt: HostRuntime) -> Result<(), Fail> {
    let bytes = bytes_of(rt.alloc(), &PAST_CONTENT, &[])?;
    let refusal = LoadRefusal::File(Fault {
        place: 9,
        reason: Reason::SiteOutside(5),
    });
    answers_for_an_object(&rt, rt.alloc(), &bytes, refusal);

    let bytes = bytes_of(rt.alloc(), &FILE, &[0, 0, 3, 0xF5])?;
    let refusal = LoadRefusal::File(Fault {
        place: 10,
        reason: Reason::UnsupportedBlock(1013),
    });
    answers_for_a_load(&rt, rt.alloc(), &bytes, refusal)
}

/// Whether a file was taken with an allocation failing. If not, the error is returned again.
fn is_taken<J: Judge>(rt: &impl Abort, begun: J, bytes: &[u8]) -> bool {
    let mut judge = begun;
    for piece in bytes.chunks(5) {
        match judge.judge(piece) {
            Ok(()) => {}
            Err(refusal) => {
                equals(rt, refusal, LoadRefusal::OutOfMemory);
                answers_again(rt, judge, refusal);
                return false;
            }
        }
    }
    equals(rt, judge.close(), Ok(()));
    true
}

/// The same for each decoder.
fn is_object_counted<A: Allocator + Copy>(rt: &impl Abort, alloc: A, bytes: &[u8]) -> bool {
    is_taken(rt, Decoder::new(ObjectCounter::new(alloc)), bytes)
}

fn is_load_counted<A: Allocator + Copy>(rt: &impl Abort, alloc: A, bytes: &[u8]) -> bool {
    is_taken(rt, Decoder::new(LoadCounter::new(alloc)), bytes)
}

fn is_load_decoded<A: Allocator + Copy>(rt: &impl Abort, alloc: A, bytes: &[u8]) -> bool {
    is_taken(rt, LoadDecoder::new(alloc), bytes)
}

/// The same for a loader, which may already fail to allocate its bases.
fn is_loaded<A: Allocator + Copy>(rt: &impl Abort, alloc: A, bases: &[u32], bytes: &[u8]) -> bool {
    match ImageLoader::new(alloc, bases) {
        Ok(loader) => is_taken(rt, loader, bytes),
        Err(_) => false,
    }
}

/// The bytes of a file that begins with `begin`, with one hunk of `count` longwords, each of which
/// is a site.
fn sites_of(alloc: Global, begin: &[u32], count: u32) -> Result<Vec<u8>, Fail> {
    let mut words = begin.to_vec(alloc)?;
    words.extend_from_slice(&[0x0000_03E9, count])?;
    for _ in 0..count {
        words.push(0)?;
    }
    words.extend_from_slice(&[0x0000_03EC, count, 0])?;
    for number in 0..count {
        words.push(number.saturating_mul(4))?;
    }
    words.extend_from_slice(&[0, 0x0000_03F2])?;
    Ok(bytes_of(alloc, &words, &[])?)
}

#[test]
fn refuses_each_growth(rt: HostRuntime) -> Result<(), Fail> {
    let object = sites_of(rt.alloc(), &[0x0000_03E7, 0], 20)?;
    let load = sites_of(rt.alloc(), &[0x0000_03F3, 0, 1, 0, 0, 20], 20)?;
    let mut ended = [false, false];
    for number in 0..MOST_GROWTHS {
        let heap = Refusing::new(rt.alloc(), number);
        let taken = is_object_counted(&rt, &heap, &object);
        equals_at(&rt, &("growth", number), taken, heap.asked() <= number);
        holds(&rt, &"the sites grow", !taken || 1 <= number);
        let heap = Refusing::new(rt.alloc(), number);
        let also = is_load_counted(&rt, &heap, &load);
        equals_at(&rt, &("growth", number), also, heap.asked() <= number);
        holds(&rt, &"the sizes and the sites grow", !also || 2 <= number);
        ended = [taken, also];
    }
    equals(&rt, ended, [true, true]);
    Ok(())
}

/// A file is judged with each of its allocations failing, and with none.
fn is_judged_with_each_growth_refused(
    rt: &impl Abort,
    alloc: Global,
    bytes: &[u8],
    bases: &[u32],
    least: u64,
) {
    let mut ended = [false, false];
    for number in 0..MOST_GROWTHS {
        let heap = Refusing::new(alloc, number);
        let decoded = is_load_decoded(rt, &heap, bytes);
        equals_at(rt, &("growth", number), decoded, heap.asked() <= number);
        holds(rt, &("growths", number), !decoded || least <= number);
        let heap = Refusing::new(alloc, number);
        let loaded = is_loaded(rt, &heap, bases, bytes);
        equals_at(rt, &("growth", number), loaded, heap.asked() <= number);
        holds(
            rt,
            &"the bases, the sizes and the image grow",
            !loaded || 3 <= number,
        );
        ended = [decoded, loaded];
    }
    equals(rt, ended, [true, true]);
}

#[test]
fn refuses_each_growth_of_a_load_file(rt: HostRuntime) -> Result<(), Fail> {
    let bytes = bytes_of(rt.alloc(), &SCATTERED, &[])?;
    let bases = [0x0000_1000, 0x0000_2000];
    // sizes, hunks, content, sites, symbols, a name, debug blocks, and one of them
    is_judged_with_each_growth_refused(&rt, rt.alloc(), &bytes, &bases, 8);
    let bytes = sites_of(rt.alloc(), &[0x0000_03F3, 0, 1, 0, 0, 20], 20)?;
    is_judged_with_each_growth_refused(&rt, rt.alloc(), &bytes, &[BASE], 4);
    Ok(())
}

/// A `Copy` value can be used twice.
fn twice<T: Copy>(value: T) -> (T, T) {
    (value, value)
}

#[test]
fn copies_what_stands_beside_the_taker(rt: HostRuntime) {
    let (mut one, other) = twice(Splitter::new());
    equals(&rt, one.push(1), None);
    equals(&rt, (one.rest(), other.rest()), (1, 0));
    let (state, same) = twice(None::<CoreState>);
    assert!(rt; state.is_none() && same.is_none());
}

#[test]
fn counts_the_longwords_that_a_core_took(rt: HostRuntime) {
    let mut core = Core::new(ObjectCounter::new(rt.alloc()));
    for (place, word) in [0x3E7, 0, 0x3EB, 5, 0x3F2].into_iter().enumerate() {
        equals(&rt, core.place(), place as u64);
        equals(&rt, core.word(word), Ok(()));
    }
    equals(&rt, core.place(), 5);
}

/// Feeds a decoder by its trait alone.
fn fed<F: Feed>(decoder: &mut F, bytes: &[u8]) -> Result<(), Refusal> {
    decoder.feed(bytes)
}

#[test]
fn is_fed_by_its_trait(rt: HostRuntime) {
    let mut decoder = Decoder::new(ObjectCounter::new(rt.alloc()));
    equals(&rt, fed(&mut decoder, &[0, 0, 3]), Ok(()));
    let refusal = Refusal::Fault(Fault {
        place: 0,
        reason: Reason::WrongStart,
    });
    equals(&rt, fed(&mut decoder, &[0xF3]), Err(refusal));
    equals(&rt, fed(&mut decoder, &[]), Err(refusal));
}
