//! The names that no hunk defines, of object files that were read one by one.

use super::MOST_GROWTHS;
use super::asserts::equals_at;
use super::unlinked::{AGAIN, END, LATER, NONE, ONE, OTHER};
use hunk_objects::read_object;
use hunk_origins::{UndefinedName, undefined_names};
use hunk_test_support::{KEY, Refusing, bytes_of};
use hunk_tool::{NameHasher, ObjectFiles};
use hunk_words::{Pieces, ReadFault, Refusal};
use std::alloc::{AllocError, Allocator, Global};
use std::process::Abort;
use std::test::Fail;

/// A name; the file, the unit and the hunk of its first reference; and the number of references.
type Wanted = (&'static str, usize, usize, usize, u64);

/// The longwords of a file, and the bytes after them.
type File = (&'static [u32], &'static [u8]);

/// Two files, and what is told of them.
type Row = (File, File, &'static [Wanted]);

static ROWS: [Row; 6] = [
    (
        (&NONE, &[0; 4]),
        (&ONE, &END),
        &[("go", 1, 0, 0, 2), ("run", 1, 0, 0, 1)],
    ),
    ((&OTHER, &END), (&ONE, &END), &[("run", 0, 0, 0, 2)]),
    ((&ONE, &END), (&OTHER, &END), &[("run", 0, 0, 0, 2)]),
    ((&AGAIN, &END), (&ONE, &END), &[]),
    ((&NONE, &[0; 4]), (&LATER, &END), &[("go", 1, 1, 1, 1)]),
    (
        (&LATER, &END),
        (&ONE, &END),
        &[("go", 0, 1, 1, 3), ("run", 1, 0, 0, 1)],
    ),
];

/// The units of files that are read one by one; an error only if an allocation failed.
fn files_of<A: Allocator + Copy>(
    rt: &impl Abort,
    alloc: A,
    inputs: &mut [Pieces; 2],
) -> Result<ObjectFiles<A>, AllocError> {
    let mut files = ObjectFiles::new(alloc);
    for number in 0..inputs.len() {
        match read_object(alloc, &mut inputs[number]) {
            Ok(units) => files = files.with_file(number, units)?,
            Err(ReadFault::Refused(Refusal::OutOfMemory)) => return Err(AllocError),
            Err(_) => panic!(rt; "not read"),
        }
    }
    Ok(files)
}

/// Readers of the files of a row.
fn inputs_of(alloc: Global, row: &Row) -> Result<[Pieces; 2], AllocError> {
    let ((words, rest), (other_words, other_rest), _) = row;
    Ok([
        Pieces::new(bytes_of(alloc, words, rest)?, 64, None),
        Pieces::new(bytes_of(alloc, other_words, other_rest)?, 3, None),
    ])
}

/// Whether these are the names.
fn are_told<A: Allocator + Copy>(
    rt: &impl Abort,
    names: &[UndefinedName<A>],
    wanted: &'static [Wanted],
) {
    equals_at(rt, &wanted, names.len(), wanted.len());
    for (index, (name, file, unit, hunk, references)) in wanted.iter().enumerate() {
        let Some(told) = names.get(index) else {
            panic!(rt; "{index}");
        };
        let place = (told.file, told.unit, told.hunk, told.references);
        equals_at(rt, &wanted, told.name.as_slice(), name.as_bytes());
        equals_at(rt, &wanted, place, (*file, *unit, *hunk, *references));
    }
}

/// Whether they are told of the files of a row; an error only if an allocation failed.
fn tells<A: Allocator + Copy>(
    rt: &impl Abort,
    alloc: A,
    inputs: &mut [Pieces; 2],
    wanted: &'static [Wanted],
) -> Result<(), AllocError> {
    let files = files_of(rt, alloc, inputs)?;
    let names = undefined_names(alloc, &files, NameHasher::new(KEY))?;
    are_told(rt, &names, wanted);
    Ok(())
}

#[test]
fn tells_each_name_once_with_its_first_reference(rt: HostRuntime) -> Result<(), Fail> {
    for row in &ROWS {
        tells(&rt, rt.alloc(), &mut inputs_of(rt.alloc(), row)?, row.2)?;
    }
    Ok(())
}

/// Whether the names are told once no allocation is refused.
fn are_told_at_last(rt: &impl Abort, alloc: Global, row: &'static Row) -> Result<bool, Fail> {
    for refused in 0..MOST_GROWTHS {
        let heap = Refusing::new(alloc, refused);
        let got = tells(rt, &heap, &mut inputs_of(alloc, row)?, row.2);
        let all_given = heap.asked() <= refused;
        equals_at(rt, &(row.2, refused), got.is_ok(), all_given);
        if all_given {
            return Ok(true);
        }
    }
    Ok(false)
}

#[test]
fn tells_names_with_each_growth_refused(rt: HostRuntime) -> Result<(), Fail> {
    for row in &ROWS {
        let at_last = are_told_at_last(&rt, rt.alloc(), row)?;
        equals_at(&rt, &row.2, at_last, true);
    }
    Ok(())
}
