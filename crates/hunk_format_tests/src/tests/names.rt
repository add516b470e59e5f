//! Names: their bytes, their longwords, their order and their hashes.

use super::asserts::{equals, holds};
use hunk_test_support::Refusing;
use hunk_words::{Name, OpenName};
use std::alloc::Allocator;
use std::collections::{BTreeSet, HashSet};
use std::process::Abort;
use std::test::Fail;

#[test]
fn ends_a_name_at_the_first_zero_byte(rt: HostRuntime) -> Result<(), Fail> {
    let name = Name::from_words(rt.alloc(), &[0x4100_4242, 0x4343_4343])?;
    equals(&rt, name.bytes(), b"A".as_slice());
    equals(
        &rt,
        name.words(rt.alloc())?.as_slice(),
        [0x4100_0000].as_slice(),
    );
    Ok(())
}

#[test]
fn writes_whole_longwords(rt: HostRuntime) -> Result<(), Fail> {
    let empty = Name::from_words(rt.alloc(), &[])?;
    equals(&rt, empty.words(rt.alloc())?.as_slice(), [0].as_slice());
    let main = Name::from_words(rt.alloc(), &[0x6D61_696E, 0])?;
    equals(
        &rt,
        main.words(rt.alloc())?.as_slice(),
        [0x6D61_696E].as_slice(),
    );
    let start = Name::from_words(rt.alloc(), &[0x5F73_7461, 0x7274_0000])?;
    equals(&rt, start.bytes(), b"_start".as_slice());
    Ok(())
}

#[test]
fn compares_by_bytes(rt: HostRuntime) -> Result<(), Fail> {
    let foo = Name::from_words(rt.alloc(), &[0x666F_6F00])?;
    let food = Name::from_words(rt.alloc(), &[0x666F_6F64])?;
    let copy = foo.copy(rt.alloc())?;
    assert!(rt; foo == copy && foo != food && foo < food);
    let mut names = BTreeSet::new(rt.alloc());
    assert!(rt; names.insert(food)? && names.insert(foo)? && !names.insert(copy)?);
    Ok(())
}

#[test]
fn hashes_equal_names_alike(rt: HostRuntime) -> Result<(), Fail> {
    let mut names = HashSet::new(rt.alloc());
    names.insert(Name::from_words(rt.alloc(), &[0x666F_6F00])?)?;
    assert!(rt; names.contains(&Name::from_words(rt.alloc(), &[0x666F_6F00, 1])?));
    assert!(rt; !names.contains(&Name::from_words(rt.alloc(), &[0x6261_7200])?));
    Ok(())
}

#[test]
fn takes_longwords_at_once_and_one_by_one(rt: HostRuntime) -> Result<(), Fail> {
    let mut name = OpenName::new(rt.alloc());
    name.push_bytes(b"module12_fun")?;
    name.push(0x6374_696F)?;
    name.push_bytes(b"n_4\0ignored.")?;
    name.push_bytes(b"as well.")?;
    name.push(0x7468_6973)?;
    equals(&rt, name.len(), 19);
    equals(&rt, name.close().bytes(), b"module12_function_4".as_slice());
    Ok(())
}

/// The longest name that has its bytes in place, and one with a byte more.
const IN_PLACE: &[u8] = b"_a_name_of_thirty_eight_bytes_of_ascii";

const ALLOCATED: &[u8] = b"_a_name_of_thirty-nine_bytes_of_ascii__";

/// Opens names at an allocator that counts in `heap`.
fn opens_once<A: Allocator + Copy>(rt: &impl Abort, heap: &Refusing, alloc: A) -> Result<(), Fail> {
    let mut short = OpenName::new(alloc);
    short.push_bytes(&IN_PLACE[..36])?;
    short.push(0x6969_0000)?;
    equals(rt, heap.asked(), 0);
    equals(rt, short.close().bytes(), IN_PLACE);
    let mut long = OpenName::new(alloc);
    long.push_bytes(ALLOCATED)?;
    equals(rt, heap.asked(), 1);
    long.push(0x7061_6765)?;
    equals(rt, heap.asked(), 1);
    equals(
        rt,
        long.close().bytes(),
        b"_a_name_of_thirty-nine_bytes_of_ascii__page".as_slice(),
    );
    Ok(())
}

#[test]
fn allocates_once_for_a_long_run_and_the_longword_after_it(rt: HostRuntime) -> Result<(), Fail> {
    let heap = Refusing::new(rt.alloc(), u64::MAX);
    opens_once(&rt, &heap, &heap)
}

/// Opens a name one longword at a time, which goes over to an allocation with its tenth. That fails at first.
fn goes_over<A: Allocator + Copy>(rt: &impl Abort, heap: &Refusing, alloc: A) -> Result<(), Fail> {
    let mut name = OpenName::new(alloc);
    for _ in 0..9 {
        name.push(0x666F_6F5F)?;
    }
    equals(rt, heap.asked(), 0);
    holds(rt, &"refused", name.push(0x6261_725F).is_err());
    equals(rt, name.len(), 36);
    name.push(0x6261_725F)?;
    name.push(0x656E_6400)?;
    equals(
        rt,
        name.close().bytes(),
        b"foo_foo_foo_foo_foo_foo_foo_foo_foo_bar_end".as_slice(),
    );
    Ok(())
}

#[test]
fn stays_as_it_was_where_a_name_that_grows_has_no_memory(rt: HostRuntime) -> Result<(), Fail> {
    let heap = Refusing::new(rt.alloc(), 0);
    goes_over(&rt, &heap, &heap)
}

/// Opens a name whose second allocation fails.
fn stays_as_it_was<A: Allocator + Copy>(rt: &impl Abort, alloc: A) -> Result<(), Fail> {
    let mut name = OpenName::new(alloc);
    name.push_bytes(ALLOCATED)?;
    // more than the memory that the first run was given
    let run = b"the_longest_name_that_any_of_these_tests_has";
    holds(rt, &"refused", name.push_bytes(run).is_err());
    equals(rt, name.len(), 39);
    name.push_bytes(run)?;
    equals(
        rt,
        name.close().bytes(),
        b"_a_name_of_thirty-nine_bytes_of_ascii__the_longest_name_that_any_of_these_tests_has".as_slice(),
    );
    Ok(())
}

#[test]
fn stays_as_it_was_where_a_run_of_a_name_has_no_memory(rt: HostRuntime) -> Result<(), Fail> {
    stays_as_it_was(&rt, &Refusing::new(rt.alloc(), 1))
}

/// Makes a name of 40 bytes, whose first allocation fails.
fn has_no_bytes<A: Allocator + Copy>(rt: &impl Abort, alloc: A) -> Result<(), Fail> {
    let refused = Name::from_words(alloc, &[0x666F_6F5F; 10]).is_err();
    holds(rt, &"the first name", refused);
    let name = Name::from_words(alloc, &[0x666F_6F5F; 10])?;
    equals(
        rt,
        name.bytes(),
        b"foo_foo_foo_foo_foo_foo_foo_foo_foo_foo_".as_slice(),
    );
    Ok(())
}

/// Copies a name of 40 bytes, whose second allocation fails.
fn has_no_copy<A: Allocator + Copy>(rt: &impl Abort, alloc: A) -> Result<(), Fail> {
    let name = Name::from_words(alloc, &[0x666F_6F5F; 10])?;
    holds(rt, &"the first copy", name.copy(alloc).is_err());
    equals(rt, name.copy(alloc)?.bytes(), name.bytes());
    Ok(())
}

#[test]
fn is_out_of_memory_where_the_copy_of_a_name_has_none(rt: HostRuntime) -> Result<(), Fail> {
    has_no_copy(&rt, &Refusing::new(rt.alloc(), 1))
}

#[test]
fn is_out_of_memory_where_the_bytes_of_a_name_have_none(rt: HostRuntime) -> Result<(), Fail> {
    has_no_bytes(&rt, &Refusing::new(rt.alloc(), 0))
}

/// Makes a short name, and its longwords, whose first allocation fails.
fn has_no_longwords<A: Allocator + Copy>(rt: &impl Abort, alloc: A) -> Result<(), Fail> {
    let name = Name::from_words(alloc, &[0x666F_6F00])?;
    holds(rt, &"the first longwords", name.words(alloc).is_err());
    equals(rt, name.words(alloc)?.as_slice(), [0x666F_6F00].as_slice());
    Ok(())
}

#[test]
fn is_out_of_memory_where_the_longwords_of_a_name_have_none(rt: HostRuntime) -> Result<(), Fail> {
    has_no_longwords(&rt, &Refusing::new(rt.alloc(), 0))
}
