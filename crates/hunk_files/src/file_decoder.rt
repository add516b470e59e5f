//! Reads a file of either kind: its first four bytes tell which.

ghost use Rattle.std.specs.Prelude.{◌≡◌, ℕ, ◌+◌, ◌<◌, ◌≤◌, ◌^◌, List, [], ◌++◌, length, IfOk, IfErr, OnOk, IsTrue};
ghost use Rattle.hunk_words.specs.Decoder.{RefusesBytes, RefusesInput, StandsFor as DecoderStandsFor};
ghost use Rattle.hunk_base.specs.Longwords.{longwords};
ghost use Rattle.hunk_base.specs.Streams.{HasRead};
ghost use Rattle.hunk_words.specs.Files.{IsValidPrefix};
ghost use Rattle.hunk_words.specs.declared.event.FileKind.{FileKind};
ghost use Rattle.hunk_words.specs.declared.event.FileKind.TheVariants.{Object, Load};
ghost use Rattle.hunk_base.specs.declared.fault.Refusal.{Refusal};
ghost use Rattle.hunk_files.specs.FileDecoder.{inner, IsFileOf, IsReadFault, KindBegins, KindStandsFor, RefusesFed, StandsFor};
ghost use Rattle.hunk_files.specs.FileValue.{kind_of_bytes};

use crate::first_bytes::{FirstBytes, LONGWORD};
use byteorder::{BigEndian, ByteOrder};
use hunk_words::doshunks::HUNK_HEADER;
use hunk_words::{Builder, Feed, FileKind, ReadFault, Refusal, Source, ValueDecoder, read_all};

/// Block types are the numbers below this one: they have 30 bits.
const TYPES: u32 = 0x4000_0000;

/// A decoder of files of one kind.
pub trait KindDecoder: Drop {
    // What it holds after these bytes have been fed.
    ghost stands_for: { Self → List ℕ → Type 0 };

    ghost KIND: { FileKind };

    // What is known of bytes that it took without an error.
    ghost begins: { List ℕ → Type 0 };

    // The value is that of the file that the bytes are.
    ghost is_value: { Self.Value → List ℕ → Type 0 };

    /// What it makes of a file.
    type Value;

    /// Takes the next bytes.
    ///
    /// # Errors
    ///
    /// The first offence of all bytes; or `OutOfMemory` only if an allocation failed.
    fn feed(&mut self, piece: &[u8]) -> Result<(), Refusal>
        ensures stands { (bytes : List ℕ) → stands_for self.old bytes →
            stands_for self.new (bytes ++ piece.now) }
        ensures front { OnOk result ((bytes : List ℕ) → stands_for self.new bytes → begins bytes) }
        ensures refused { IfErr result (λ refusal. (bytes : List ℕ) → stands_for self.new bytes →
            RefusesBytes KIND bytes refusal) }
        ensures bounded { OnOk result
            ((bytes : List ℕ) → stands_for self.new bytes → length bytes < 2 ^ 30 + 4) };

    /// What the whole file is.
    ///
    /// # Errors
    ///
    /// The first offence of all bytes, and their end; or `OutOfMemory` if an earlier call returned it.
    fn finish(self) -> Result<Self::Value, Refusal>
        ensures value { IfOk result
            (λ value. (bytes : List ℕ) → stands_for self bytes → is_value value bytes) }
        ensures refused { IfErr result (λ refusal. (bytes : List ℕ) → stands_for self bytes →
            RefusesInput KIND bytes refusal) };
}

impl<B: Builder> KindDecoder for ValueDecoder<B> {
    ghost stands_for = { λ d bytes. DecoderStandsFor B.KIND B.stands_for d bytes };

    ghost KIND = { B.KIND };

    ghost begins = { λ bytes. IsValidPrefix B.KIND (longwords bytes) };

    ghost is_value = { B.is_value };

    type Value = B::Value;

    fn feed(&mut self, piece: &[u8]) -> Result<(), Refusal> {
        self.feed(piece)
    }

    fn finish(self) -> Result<B::Value, Refusal> {
        self.finish()
    }
}

/// What was made of a file of either kind.
#[derive(Drop)]
pub enum File<O, L> {
    /// Of an object file.
    Object(O),
    /// Of a load file.
    Load(L),
}

impl<T> File<T, T> {
    /// What was made, where it is the same for both kinds.
    pub(crate) fn into_inner(self) -> T
        ensures { result ≡ inner self }
    {
        match self {
            File::Object(value) | File::Load(value) => value,
        }
    }
}

/// The kind of file that begins with these bytes.
fn kind_of(bytes: &[u8]) -> FileKind
    ensures { result ≡ kind_of_bytes bytes.now }
{
    if bytes.len() >= LONGWORD && BigEndian::read_u32(bytes) % TYPES == HUNK_HEADER {
        FileKind::Load
    } else {
        FileKind::Object
    }
}

/// A decoder for each kind.
#[derive(Drop)]
pub(crate) struct Decoders<O, L> {
    object: O,
    load: L,
}

impl<O: KindDecoder, L: KindDecoder> Decoders<O, L> {
    /// Takes the next bytes of a file of this kind.
    fn feed(&mut self, kind: FileKind, piece: &[u8]) -> Result<(), Refusal>
        ensures stands { (bytes : List ℕ) →
            KindStandsFor O.KIND O.stands_for L.KIND L.stands_for kind self.old bytes →
            KindStandsFor O.KIND O.stands_for L.KIND L.stands_for kind self.new
            (bytes ++ piece.now) }
        ensures front { OnOk result ((bytes : List ℕ) → KindStandsFor O.KIND O.stands_for L.KIND
            L.stands_for kind self.new bytes → KindBegins O.begins L.begins kind bytes) }
        ensures refused { IfErr result (λ refusal. (bytes : List ℕ) →
            KindStandsFor O.KIND O.stands_for L.KIND L.stands_for kind self.new bytes →
            RefusesBytes kind bytes refusal) }
        ensures bounded { OnOk result ((bytes : List ℕ) → KindStandsFor O.KIND O.stands_for L.KIND
            L.stands_for kind self.new bytes → length bytes < 2 ^ 30 + 4) }
    {
        match kind {
            FileKind::Object => self.object.feed(piece),
            FileKind::Load => self.load.feed(piece),
        }
    }

    /// What the whole file of this kind is.
    fn finish(self, kind: FileKind) -> Result<File<O::Value, L::Value>, Refusal>
        ensures value { IfOk result (λ file. (bytes : List ℕ) → KindStandsFor O.KIND O.stands_for
            L.KIND L.stands_for kind self bytes → IsFileOf O.is_value L.is_value kind file bytes) }
        ensures refused { IfErr result (λ refusal. (bytes : List ℕ) → KindStandsFor O.KIND
            O.stands_for L.KIND L.stands_for kind self bytes → RefusesInput kind bytes refusal) }
    {
        match kind {
            FileKind::Object => match self.object.finish() {
                Ok(value) => Ok(File::Object(value)),
                Err(refusal) => Err(refusal),
            },
            FileKind::Load => match self.load.finish() {
                Ok(value) => Ok(File::Load(value)),
                Err(refusal) => Err(refusal),
            },
        }
    }
}

/// A decoder of files of either kind. It keeps the first bytes back until they tell the kind.
#[derive(Drop)]
pub(crate) struct FileDecoder<O, L> {
    front: FirstBytes,
    decoders: Decoders<O, L>,
}

impl<O: KindDecoder, L: KindDecoder> FileDecoder<O, L> {
    /// A decoder before the first byte, with decoders of both kinds before theirs.
    pub(crate) fn new(object: O, load: L) -> Self
        requires object { O.stands_for object [] }
        requires load { L.stands_for load [] }
        requires object_kind { O.KIND ≡ Object }
        requires load_kind { L.KIND ≡ Load }
        ensures { StandsFor O.KIND O.stands_for L.KIND L.stands_for result [] }
    {
        FileDecoder {
            front: FirstBytes::new(),
            decoders: Decoders { object, load },
        }
    }

    /// Takes the next bytes.
    ///
    /// # Errors
    ///
    /// The first offence of all bytes; or `OutOfMemory` only if an allocation failed.
    pub(crate) fn feed(&mut self, piece: &[u8]) -> Result<(), Refusal>
        ensures stands { (bytes : List ℕ) →
            StandsFor O.KIND O.stands_for L.KIND L.stands_for self.old bytes →
            StandsFor O.KIND O.stands_for L.KIND L.stands_for self.new (bytes ++ piece.now) }
        ensures front { OnOk result
            ((bytes : List ℕ) → StandsFor O.KIND O.stands_for L.KIND L.stands_for self.new bytes →
            4 ≤ length bytes → KindBegins O.begins L.begins (kind_of_bytes bytes) bytes) }
        ensures refused { IfErr result
            (RefusesFed O.KIND O.stands_for L.KIND L.stands_for self.new) }
        ensures bounded { OnOk result ((bytes : List ℕ) → StandsFor O.KIND O.stands_for L.KIND
            L.stands_for self.new bytes → length bytes < 2 ^ 30 + 4) }
    {
        if self.front.as_bytes().len() == LONGWORD {
            let kind = kind_of(self.front.as_bytes());
            return self.decoders.feed(kind, piece);
        }
        let taken = self.front.take(piece);
        let front = self.front.as_bytes();
        if front.len() < LONGWORD {
            return Ok(());
        }
        let kind = kind_of(front);
        // an error is kept, and returned for the bytes that follow
        let _ = self.decoders.feed(kind, front);
        self.decoders.feed(kind, &piece[taken..])
    }

    /// What the whole file is. One of fewer than four bytes is read as an object file.
    pub(crate) fn finish(self) -> Result<File<O::Value, L::Value>, Refusal>
        ensures value { IfOk result (λ file. (bytes : List ℕ) →
            StandsFor O.KIND O.stands_for L.KIND L.stands_for self bytes →
            IsFileOf O.is_value L.is_value (kind_of_bytes bytes) file bytes) }
        ensures refused { IfErr result (λ refusal. (bytes : List ℕ) → StandsFor O.KIND O.stands_for
            L.KIND L.stands_for self bytes → RefusesInput (kind_of_bytes bytes) bytes refusal) }
    {
        let mut decoders = self.decoders;
        let front = self.front.as_bytes();
        let kind = kind_of(front);
        if front.len() < LONGWORD {
            // an error is kept, and returned at the end
            let _ = decoders.feed(kind, front);
        }
        decoders.finish(kind)
    }
}

impl<O: KindDecoder, L: KindDecoder> Feed for FileDecoder<O, L> {
    ghost stands_for = { λ d bytes. StandsFor O.KIND O.stands_for L.KIND L.stands_for d bytes };

    ghost refused = { λ d refusal. RefusesFed O.KIND O.stands_for L.KIND L.stands_for d refusal };

    fn feed(&mut self, piece: &[u8]) -> Result<(), Refusal> {
        self.feed(piece)
    }
}

/// Reads to the end of `reader`, and gives what the decoder of its kind makes of the file that its
/// bytes are. A file is a load file if its first four bytes are there and tell so; otherwise it is
/// read as an object file. The decoders are new.
///
/// # Errors
///
/// - [`ReadFault::Refused`] with the first offence of the bytes read; where the file ends too early
///   only once the reader has ended.
/// - [`ReadFault::Refused`] with [`Refusal::OutOfMemory`] only if an allocation failed.
/// - [`ReadFault::Device`] only if a read failed.
pub fn read_file<R: Source, O: KindDecoder, L: KindDecoder>(
    reader: &mut R,
    object: O,
    load: L,
) -> Result<File<O::Value, L::Value>, ReadFault>
    requires object { O.stands_for object [] }
    requires load { L.stands_for load [] }
    requires object_kind { O.KIND ≡ Object }
    requires load_kind { L.KIND ≡ Load }
    ensures file { IfOk result (λ file. HasRead (R.left reader.old) (R.left reader.new)
        (λ bytes. IsFileOf O.is_value L.is_value (kind_of_bytes bytes) file bytes)) }
    ensures ended { OnOk result (IsTrue (R.ended reader.new)) }
    ensures refused { IfErr result (IsReadFault (R.left reader.old) (R.left reader.new)
        (R.failed reader.new) (R.ended reader.new)) }
{
    let mut decoder = FileDecoder::new(object, load);
    read_all(reader, &mut decoder)?;
    Ok(decoder.finish()?)
}
