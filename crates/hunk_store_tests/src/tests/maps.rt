//! The load file of object files, and its map.

use super::asserts::{equals, equals_at};
use super::outcomes::{NEW_OUT, is_under, was_done};
use super::systems::link_with_map;
use hunk_commands::Failure;
use hunk_fake_files::{CALLEE, CALLER, FakeFiles, Log, PLAIN, PROGRAM};
use hunk_tool::OpenFault;
use std::alloc::{AllocError, Global};
use std::io::ErrorKind;
use std::process::Abort;
use std::test::Fail;

/// The map of the load file of `caller` and `callee`.
static MAP: &str = "hunk 0 code any 2 longwords caller unit 0 \"\" hunk 0 \"\"\n\
                    hunk 1 code any 2 longwords callee unit 0 \"\" hunk 0 \"\"\n  \
                    define \"foo\" at 00000004\n";

/// What is done to put a new map under the name `map`.
static NEW_MAP: &str = "create .amihunk-0\nsync .amihunk-0\nrename .amihunk-0 map\n";

/// What is done with a new map that is not whole.
static NO_NEW_MAP: &str = "create .amihunk-0\nremove .amihunk-0\n";

/// The names `caller` and `callee`.
fn names_of(alloc: Global) -> Result<[String; 2], AllocError> {
    Ok([
        String::from_str(alloc, "caller")?,
        String::from_str(alloc, "callee")?,
    ])
}

/// How a link with a map ends.
#[derive(Drop)]
struct End<'a, 'e, 'o, 'm> {
    ended: Result<(), Failure<'a>>,
    // What was done with files.
    events: &'e str,
    // The bytes under the names OUT and MAP then.
    out: Option<&'o [u8]>,
    map: Option<&'m [u8]>,
}

/// Linking these files to OUT and MAP, with the names `caller` and `callee`, ends so, and no new file is
/// left.
fn is_linked<'a>(
    rt: &impl Abort,
    alloc: Global,
    log: &Log,
    (out, map_file): (&'a str, &'a str),
    files: &[&'a str],
    end: End<'a, '_, '_, '_>,
) -> Result<(), Fail> {
    let system = FakeFiles { openings: 100, log };
    let names = names_of(alloc)?;
    let got = link_with_map(&(system, alloc), out, map_file, PLAIN, files, &names);
    equals_at(rt, &(out, map_file), got, end.ended);
    was_done(rt, log, end.events)?;
    is_under(rt, alloc, system, out, end.out)?;
    is_under(rt, alloc, system, map_file, end.map)?;
    is_under(rt, alloc, system, ".amihunk-0", None)
}

/// Linking `caller` and `callee` to `out` and MAP puts the load file there, and then ends so, after this was
/// done for MAP; then this text is under the name MAP.
fn is_mapped<'a>(
    rt: &impl Abort,
    alloc: Global,
    log: &Log,
    map_file: &'a str,
    wanted: Result<(), Failure<'a>>,
    map_events: &str,
    map: Option<&[u8]>,
) -> Result<(), Fail> {
    let mut events = String::from_str(alloc, NEW_OUT)?;
    events.push_str(map_events)?;
    let end = End {
        ended: wanted,
        events: events.as_str(),
        out: Some(&PROGRAM),
        map,
    };
    is_linked(
        rt,
        alloc,
        log,
        ("out", map_file),
        &["caller", "callee"],
        end,
    )
}

#[test]
fn writes_the_map_after_the_load_file(rt: HostRuntime) -> Result<(), Fail> {
    let alloc = rt.alloc();
    let text = Some(MAP.as_bytes());
    is_mapped(&rt, alloc, &Log::new(alloc), "map", Ok(()), NEW_MAP, text)?;
    let over = "open addresses\ncreate .amihunk-0\npermissions .amihunk-0\nsync .amihunk-0\n\
                rename .amihunk-0 addresses\n";
    is_mapped(
        &rt,
        alloc,
        &Log::new(alloc),
        "addresses",
        Ok(()),
        over,
        text,
    )?;
    let to_pipe = "open pipe\n";
    is_mapped(&rt, alloc, &Log::new(alloc), "pipe", Ok(()), to_pipe, text)
}

#[test]
fn tells_why_the_map_is_not_written(rt: HostRuntime) -> Result<(), Fail> {
    let alloc = rt.alloc();
    let empty = Some([].as_slice());
    let log = Log::new(alloc);
    let unopened = Err(Failure::Opening("directory", OpenFault::Directory));
    is_mapped(&rt, alloc, &log, "directory", unopened, "", empty)?;
    let log = Log::new(alloc);
    let nowhere = Err(Failure::Opening("nowhere/map", OpenFault::NotFound));
    is_mapped(&rt, alloc, &log, "nowhere/map", nowhere, "", None)?;
    let log = Log::new(alloc);
    let unwritten = Err(Failure::Writing("full"));
    is_mapped(&rt, alloc, &log, "full", unwritten, "open full\n", empty)
}

/// The load file has 88 bytes, which files take before those of the map.
#[test]
fn the_map_is_what_it_was_where_a_write_fails(rt: HostRuntime) -> Result<(), Fail> {
    let alloc = rt.alloc();
    let over = "open addresses\ncreate .amihunk-0\npermissions .amihunk-0\nremove .amihunk-0\n";
    for room in 0..MAP.len() {
        let log = Log::new(alloc);
        log.faults.room.set(PROGRAM.len().saturating_add(room));
        let unwritten = Err(Failure::Writing("map"));
        is_mapped(&rt, alloc, &log, "map", unwritten, NO_NEW_MAP, None)?;
        let log = Log::new(alloc);
        log.faults.room.set(PROGRAM.len().saturating_add(room));
        let unwritten = Err(Failure::Writing("addresses"));
        let old = Some(b"10000, 20000\r\n".as_slice());
        is_mapped(&rt, alloc, &log, "addresses", unwritten, over, old)?;
    }
    let log = Log::new(alloc);
    log.faults.room.set(PROGRAM.len().saturating_add(MAP.len()));
    let text = Some(MAP.as_bytes());
    is_mapped(&rt, alloc, &log, "map", Ok(()), NEW_MAP, text)
}

/// A line of the map is longer than the buffer in front of it, so that it is written at once.
#[test]
fn tells_that_a_write_of_the_map_failed(rt: HostRuntime) -> Result<(), Fail> {
    let alloc = rt.alloc();
    let mut long = String::new(alloc);
    for _ in 0..20_000 {
        long.push('c')?;
    }
    let names = [long, String::from_str(alloc, "callee")?];
    let rows = [
        (
            "full-at-first",
            usize::MAX,
            "open full-at-first\n",
            Some([].as_slice()),
        ),
        ("map", 100, NO_NEW_MAP, None),
    ];
    for (map_file, room, map_events, text) in rows {
        let log = Log::new(alloc);
        log.faults.room.set(room);
        let system = FakeFiles {
            openings: 100,
            log: &log,
        };
        let files = ["caller", "callee"];
        let got = link_with_map(&(system, alloc), "out", map_file, PLAIN, &files, &names);
        equals(&rt, got, Err(Failure::Writing(map_file)));
        let mut events = String::from_str(alloc, NEW_OUT)?;
        events.push_str(map_events)?;
        was_done(&rt, &log, events.as_str())?;
        is_under(&rt, alloc, system, "out", Some(&PROGRAM))?;
        is_under(&rt, alloc, system, map_file, text)?;
    }
    Ok(())
}

/// OUT and MAP of links of `caller`, `callee` and `x` that are refused: for one file of both, or else for a
/// MAP that is linked.
static REFUSED: [(&str, &str, bool); 5] = [
    ("out", "out", true),
    ("callee", "callee", true),
    ("out", "callee", false),
    ("callee", "caller", false),
    ("out", "x", false),
];

/// No file is opened or created.
#[test]
fn refuses_a_map_over_another_file(rt: HostRuntime) -> Result<(), Fail> {
    let alloc = rt.alloc();
    let names = names_of(alloc)?;
    for (out, map_file, is_one) in REFUSED {
        let log = Log::new(alloc);
        let system = FakeFiles {
            openings: 100,
            log: &log,
        };
        let files = ["caller", "callee", "x"];
        let got = link_with_map(&(system, alloc), out, map_file, PLAIN, &files, &names);
        let failure = if is_one {
            Failure::SameFile(map_file)
        } else {
            Failure::MapOverFile(map_file)
        };
        equals_at(&rt, &(out, map_file), got, Err(failure));
        was_done(&rt, &log, "")?;
        equals_at(&rt, &(out, map_file), log.opened.get(), 0);
        is_under(&rt, alloc, system, "caller", Some(&CALLER))?;
        is_under(&rt, alloc, system, "callee", Some(&CALLEE))?;
        is_under(&rt, alloc, system, "out", None)?;
        is_under(&rt, alloc, system, "x", None)?;
    }
    Ok(())
}

/// Linking these files to OUT and `map` fails for this reason, after this was done; no map is begun.
fn begins_no_map<'a>(
    rt: &impl Abort,
    alloc: Global,
    log: &Log,
    out_file: &'a str,
    files: &[&'a str],
    (failure, events): (Failure<'a>, &'a str),
    out: Option<&'a [u8]>,
) -> Result<(), Fail> {
    let end = End {
        ended: Err(failure),
        events,
        out,
        map: None,
    };
    is_linked(rt, alloc, log, (out_file, "map"), files, end)
}

#[test]
fn begins_no_map_without_a_load_file(rt: HostRuntime) -> Result<(), Fail> {
    let alloc = rt.alloc();
    let empty = Some([].as_slice());
    let log = Log::new(alloc);
    let missing = (Failure::Opening("x", OpenFault::NotFound), "");
    begins_no_map(&rt, alloc, &log, "out", &["caller", "x"], missing, None)?;
    let files = ["caller", "callee"];
    let log = Log::new(alloc);
    let unopened = (Failure::Opening("directory", OpenFault::Directory), "");
    begins_no_map(&rt, alloc, &log, "directory", &files, unopened, empty)?;
    let log = Log::new(alloc);
    let unwritten = (Failure::Printing, "open full\n");
    begins_no_map(&rt, alloc, &log, "full", &files, unwritten, empty)?;
    let log = Log::new(alloc);
    log.faults.rename.set(Some(ErrorKind::PermissionDenied));
    let unplaced = (
        Failure::Opening("out", OpenFault::NotAllowed),
        "create .amihunk-0\nsync .amihunk-0\nremove .amihunk-0\n",
    );
    begins_no_map(&rt, alloc, &log, "out", &files, unplaced, None)
}
