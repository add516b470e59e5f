//! What the help of each subcommand says after its arguments.

/// The end of the help of `link`.
pub const LINK: &str = "\
It writes to OUT one load file with the hunks of all the object files, in the order of linking: the
files in the order given, the units in the order of a file, and the hunks in the order of a unit.

Neither `--short` nor `--trim` changes the bytes of the hunks in memory, but not every old loader
reads the short form, which has blocks of type 1020.

With `--globals`, each name that a hunk defines at an offset stays in OUT as a symbol of that hunk, after
its own symbols, unless it is one of them already. With `--strip` these are the only symbols.

With `--map` it writes to MAP, after OUT, a line for each hunk of the load file, with the file, the
unit and the hunk that it is from, and below it a line for each name that the hunk defines:
  hunk 0 code any 2 longwords main.o unit 0 \"test\" hunk 0 \"CODE\"
    define \"main\" at 00000000

For example, this writes a short and trimmed load file without symbols and debug blocks:
  amihunk link --out program --strip --short --trim startup.o main.o

With `--files-from` it links the object files that LIST names too, after the FILEs. Each name in LIST ends
with a zero byte or, with `--lines`, with the end of a line. For example, with `startup.o` first:
  amihunk link --out program --files-from names --lines startup.o

A FILE or LIST that is `-` is standard input, and OUT or MAP that is `-` is standard output. A file of that
name is `./-`.

OUT and MAP are each replaced in one step: whatever fails, each is the old file or the whole new one.

The exit status is 0 if everything was written, 1 if a FILE is not an object file or the units do not
link, 2 if the command line is not understood, or MAP is OUT or one of the FILEs, 3 if a FILE cannot be
read or OUT or MAP cannot be written, and 4 if memory runs out.";

/// The usage of `load`.
pub const LOAD_USAGE: &str = "amihunk load [OPTIONS] <--at <LIST>|--at-file <FILE>> <FILE>";

/// The usage of `image`.
pub const IMAGE_USAGE: &str = "amihunk image [OPTIONS] <--at <LIST>|--at-file <FILE>> <FILE>...";

/// The end of the help of `load`.
pub const LOAD: &str = "\
For each hunk it prints a line with the hunk's number, address and size in bytes, and then the
bytes, at most 16 in a line, after the address of the first of them. For example,
`amihunk load --at 10000 FILE` prints for a file of one hunk
  hunk 0 at 00010000 size 4
  00010000 4e754e71
and `amihunk load --at 10000 --srec FILE` the same bytes as S-records
  S00A0000616D6968756E6B08
  S309000100004E754E7173
  S70500000000FA
An address is the number of a byte, from 0 to FFFFFFFF. With `--at-file`, the addresses are read from a
file of at most 16 MiB: `amihunk load --at-file addresses FILE`.

A FILE that is `-` is standard input, and one of that name is `./-`.

With `--symbols` it prints a line for each symbol of FILE, in file order, with the symbol's address,
the number of its hunk, and its name. The address is that of the hunk plus the symbol's value, modulo
2^32. For example, `amihunk load --at 10000 --symbols FILE` prints for a file whose only symbol has the
value 2
  00010002 hunk 0 \"loop\"

With `--srec` and `--symbols` it prints the names and addresses of the symbols, and then the S-records,
in the form that GNU binutils calls `symbolsrec`: for that file
  $$ amihunk
    loop $00010002
  $$
  S00A0000616D6968756E6B08
  S309000100004E754E7173
  S70500000000FA
where a space follows the second `$$`. A name that is empty, or has a byte that is not a visible ASCII
character, is left out, and an `S0` record before the others then tells how many there are.

The exit status is 0 if the text was printed, 1 if FILE is not a load file or its hunks cannot be
placed at the addresses, 2 if the addresses or the command line are not understood, 3 if a file cannot
be read or the text cannot be printed, and 4 if memory runs out.";

/// The end of the help of `image`.
pub const IMAGE: &str = "\
It prints what `load` prints of the load file of the object files. LIST has one address for each hunk,
in the order of linking: the files in the order given, the units in the order of a file, and the hunks
in the order of a unit. An address is the number of a byte, from 0 to FFFFFFFF. For example, this
prints two hunks, the first of them at the address 10000:
  amihunk image --at 10000,20000 startup.o main.o
With `--at-file`, the addresses are read from a file of at most 16 MiB. A FILE that is `-` is standard
input, and one of that name is `./-`.

With `--symbols`, that load file has the symbols and debug blocks of the object files, and the addresses
of its symbols are printed, in lines or, with `--srec` too, before the S-records. For example:
  amihunk image --at 10000,20000 --srec --symbols startup.o main.o

The exit status is 0 if the text was printed, 1 if a FILE is not an object file, or the units do not
link, or their hunks cannot be placed at the addresses, 2 if the addresses or the command line are not
understood, 3 if a file cannot be read or the text cannot be printed, and 4 if memory runs out.";

/// The end of the help of `check`.
pub const CHECK: &str = "\
It prints one line, which for an object file has the number of units, and of the hunks of all
units, for example
  object file: 1 units, 2 hunks
and for a load file
  load file: 2 hunks

With `--lint` it prints more lines, if there is something to tell: what in the file is ignored, and what
programs stumble over, such as a longword at an odd offset to which an address is added. For example
  longword 10: the upper bits of the size are ignored
  hunk 0: site 00000003 is at an odd offset
Numbers of longwords count from 0. The exit status does not depend on what is told.

A FILE that is `-` is standard input, and one of that name is `./-`.

The exit status is 0 if FILE is an object file or a load file, 1 if it is neither, 2 if the command
line is not understood, 3 if FILE cannot be read or the line cannot be printed, and 4 if memory runs
out.";

/// The end of the help of `show`.
pub const SHOW: &str = "\
For example, it prints for an object file
  object file: 1 units, 2 hunks
  unit 0 \"test\"
  hunk 0 code any 2 longwords \"CODE\"
    00000002 adds hunk 1
    define \"main\" at 00000000
    symbol \"loop\" 00000006
    debug 1
  hunk 1 bss chip 2 longwords \"\"
and for a load file
  load file: 1 hunks
  hunk 0 code any 2 longwords, 1 stored

The first line is that of `check`. The line of a hunk has its number, kind, memory and size, and
then its name, or how many longwords of it the file stores. The lines below it are the offsets to
which the address of a hunk or the value of a name is added, the names that the hunk defines, its
symbols, and the number of longwords in each debug block. A longword has 4 bytes. Offsets, addresses
and values are hexadecimal, and offsets and addresses count bytes.

With `--json` it prints what the listing tells as one JSON document, on one line, in which all numbers
are decimal. For example, `amihunk show --json FILE` prints for that load file
  {\"hunks\":[{\"debugs\":[],\"kind\":\"code\",\"memory\":\"any\",\"sites\":[],\"size\":2,\"stored\":1,\"symbols\":[]}],\"kind\":\"load file\"}
With `--content` as well, each hunk has two more members: the bytes that the file stores of it, in base64,
and the offset in the file at which they begin.
Here they are `\"content\":\"TnVOcQ==\",\"content_offset\":32`, behind `\"stored\":1`.

With `--html` it prints a page for a browser, which needs nothing from outside, and shows the hunks, their
bytes, their sites, and all names. For example, this makes a page of a program:
  amihunk show --html program > program.html

With `--names` it lists the names in FILE..., a load file or object files, sorted, each with its value, a
letter, and where it is. For example, `amihunk show --names main.o` prints
  00000000 T \"main\" unit 0 hunk 0
           U \"put\" unit 0 hunk 0
The letters are those of `nm`: `T`, `D` and `B` for what code, data and bss hunks define, `A` for absolute
values, `U` for what is referred to and none of the FILEs defines, and `t`, `d` and `b` for symbols. Units
are numbered from 0 over all FILEs.

A FILE that is `-` is standard input, and one of that name is `./-`.

The exit status is 0 if the text was printed, 1 if FILE is neither an object file nor a load file, 2 if
the command line is not understood, 3 if FILE cannot be read or the text cannot be printed, and 4 if
memory runs out.";

/// The end of the help of `survey`.
pub const SURVEY: &str = "\
It prints a line about each FILE, in the order given, with its name and what `check` prints, or why the
FILE is refused or cannot be read, and goes on with the next one. The last two lines have the number of
files, how many are of each kind, and how many of those that are refused are no hunk files at all. For
example, `amihunk survey disk/*` prints for three files
  disk/main.o: object file: 1 units, 2 hunks
  disk/program: load file: 2 hunks
  disk/readme: longword 0: wrong first longword
  3 files: 1 object files, 1 load files, 1 refused, 0 unreadable
  1 refused, of which 1 are no hunk files

With `--json` each line is a JSON document about a FILE, and there are no last lines. For example:
  {\"file\":\"disk/main.o\",\"kind\":\"object file\",\"units\":1,\"hunks\":2}

With `--digest` the line of a load file has the SHA-256 of its normal form too, which `copy --normal` writes:
files with one digest mean the same.

With `--files-from` it goes on with the files that LIST names. Each name in LIST ends with a zero byte or,
with `--lines`, with the end of a line. For example:
  find disk -type f -print0 | amihunk survey --files-from -

A FILE that is a pipe, a socket or a device is opened if it is the only one, or with `--wait`. A FILE or LIST
that is `-` is standard input, and a file of that name is `./-`. A name may be any bytes.

The exit status is 0 if each FILE is an object file or a load file, 1 if one is neither and each was
read, 2 if the command line is not understood, 3 if a FILE cannot be read or the lines cannot be
printed, and 4 if memory runs out.";

/// The end of the help of `copy`.
pub const COPY: &str = "\
It reads the load file FILE, and writes it to OUT as `link` would write it: `--strip`, `--short` and
`--trim` do what they do there. Memory is the same whichever of them are given. OUT may be FILE.

With `--normal`, which goes with no other flag, it writes the normal form: no symbols and debug blocks,
32-bit lists, and of each hunk no zero longwords at its end. Two files that mean the same have one
normal form, byte for byte. `--strip --trim` is not that form: it keeps the zeros that an address is
added to, as not every old loader clears the end of a hunk before it adds addresses there.

For example, this makes a program smaller where it is:
  amihunk copy --out program --strip --short --trim program

A FILE that is `-` is standard input, and OUT that is `-` is standard output. A file of that name is `./-`.

OUT is replaced in one step: whatever fails, it is the old file or the whole new one.

The exit status is 0 if everything was written, 1 if FILE is not a load file, or its symbols and debug
blocks are too large to be linked, 2 if the command line is not understood, 3 if FILE cannot be read or
OUT cannot be written, and 4 if memory runs out.";

/// The end of the help of `compare`.
pub const COMPARE: &str = "\
Two load files mean the same if they have as many hunks, of the same kinds, memory and sizes, with the
same bytes and the same relocations: then they are the same in memory, wherever they are loaded. Zeros
at the end of a hunk that one file stores and the other does not make no difference, nor does the form
of the files. Nothing is printed if they mean the same, and otherwise one line with the first
difference of A and B, for example one of
  hunks: 3 and 4
  hunk 0 kind: code and data
  hunk 0 memory: any and chip
  hunk 0 size: 12 and 16
  hunk 1 offset 00000012: 4e and 4f
  hunk 1 site 00000008: hunk 1 and none
A size is in bytes. A site is an offset to which the address of a hunk is added.

With `--symbols`, files that mean the same are compared further, hunk by hunk: symbol by symbol, and then
debug block by debug block, for example
  hunk 0 symbol 2: \"loop\" 00000004 and 00000008
  hunk 0 symbol 3: \"loop\" 00000010 and none
  hunk 0 symbol 3: \"loop\" and \"next\"
  hunk 1 debug 0

A or B that is `-` is standard input, and a file of that name is `./-`.

The exit status is 0 if nothing differs, 1 if something does, 2 if the command line is not understood
or A or B is not a load file, 3 if a file cannot be read or the line cannot be printed, and 4 if memory
runs out.";
