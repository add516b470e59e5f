//! Decodes the longwords of a file: judges them, and sends their events to a taker.

ghost use Rattle.std.specs.Prelude.{◌≡◌, ℕ, ◌+◌, ◌*◌, ◌<◌, ◌≤◌, List, [], ◌∷◌, ◌++◌, length, Option, Some, None, IsTrue, IsFalse, IfOk, OnOk};
ghost use Rattle.hunk_words.specs.DecoderCore.{Behind, StandsBy, StandsFor, SomeTaken, OffsetsTaken, TakesSome, EndAnswered, Keeps, in_offsets, kept, refused_at, taker_of};
ghost use Rattle.hunk_words.specs.Due.{Dues, dues_read};
ghost use Rattle.hunk_words.specs.Files.{IsValidPrefix, most_longwords};
ghost use Rattle.hunk_base.specs.Longwords.{longwords};
ghost use Rattle.hunk_words.specs.Machine.{IsComplete};
ghost use Rattle.hunk_words.specs.Reading.{start_of};
ghost use Rattle.hunk_words.specs.State.{Around, IsState, expected_view, view};
ghost use Rattle.hunk_base.specs.declared.fault.Refusal.{Refusal};

use crate::due::{Due, due_of};
use crate::event::FileKind;
use crate::numbers::{NumberRefusal, take_offset, take_word, take_words};
use crate::state::{AfterWords, Expected, State};
use crate::taker::Taker;
use byteorder::{BigEndian, ByteOrder};
use hunk_base::fault::{Fault, Reason, Refusal};

/// The most longwords that a file may have.
const MOST_LONGWORDS: u64 = 0x1000_0000;

/// What a core keeps apart from its taker: what is expected, the place, and an error.
#[derive(Clone, Copy)]
pub struct CoreState {
    state: State,
    place: u64,
    refusal: Option<Refusal>,
}

/// A decoder of longwords. It judges each longword by the table of faults and the rules for sites,
/// and sends its events to the taker.
#[derive(Drop)]
pub struct Core<T> {
    taker: T,
    state: CoreState,
}

/// What is expected at the start of a file.
fn initial_state(file: FileKind) -> State
    ensures file { result.file ≡ file }
    ensures due { view result [] ≡ start_of file ∷ [] }
    ensures is_state { IsState result [] }
{
    let due = match file {
        FileKind::Object => Expected::ObjectStart,
        FileKind::Load => Expected::LoadStart,
    };
    State {
        due,
        file,
        last: 0,
        hunk: 0,
        limit: 0,
    }
}

/// The state after one more longword, if no error is kept.
fn advance<T: Taker>(taker: &mut T, core: CoreState, word: u32) -> CoreState
    ensures stands { (ws : List ℕ) → Behind T.KIND (T.stands_for taker.old) core ws →
        StandsBy T.KIND (T.stands_for taker.new) result (ws ++ word ∷ []) }
    ensures given { T.given taker.new ≡ T.given taker.old }
{
    let CoreState { state, place, .. } = core;
    if place >= MOST_LONGWORDS {
        return refused(core, Reason::TooLarge);
    }
    match take_word(taker, state, word) {
        Ok(state) => CoreState {
            state,
            place: place + 1,
            refusal: None,
        },
        Err(stop) => CoreState {
            refusal: Some(refusal_at(place, stop)),
            ..core
        },
    }
}

/// The error for a longword that is refused at its place.
fn refusal_at(place: u64, stop: NumberRefusal) -> Refusal
    ensures { result ≡ refused_at place stop }
{
    match stop {
        NumberRefusal::Refused(reason) => fault(place, reason),
        NumberRefusal::OutOfMemory => Refusal::OutOfMemory,
    }
}

/// How many of these longwords can be taken at once, in a run of which so many more follow the next.
fn run_length(place: u64, more: u32, bytes: &[u8]) -> usize
    ensures few { result ≤ more }
    ensures within { 4 * result ≤ length bytes.now }
    ensures room { 0 < result → place + result ≤ most_longwords }
{
    let room = MOST_LONGWORDS.saturating_sub(place).min(u64::from(more));
    (room as usize).min(bytes.len() / 4)
}

/// The state after a run of this many longwords.
fn after_run(state: State, due: Expected, place: u64, count: usize) -> CoreState
    requires room { place + count ≤ most_longwords }
    ensures { result ≡
        record { state = record state { due = due }; place = place + count; refusal = None } }
{
    CoreState {
        state: State { due, ..state },
        place: place + count as u64,
        refusal: None,
    }
}

/// Takes offsets to one hunk. Another offset follows the last, so only the taker judges them.
fn take_offsets<T: Taker>(
    taker: &mut T,
    place: u64,
    target: u32,
    bytes: &[u8],
) -> Result<(), Refusal>
    requires room { place + length (longwords bytes.now) ≤ most_longwords }
    ensures taken { (state : State) (more : ℕ) (ws : List ℕ) → length (longwords bytes.now) ≤ more →
        Behind T.KIND (T.stands_for taker.old) (in_offsets state more target place) ws →
        OffsetsTaken T.KIND (T.stands_for taker.new) state more target place ws
        (longwords bytes.now) result }
    ensures given { T.given taker.new ≡ T.given taker.old }
{
    for index in 0..bytes.len() / 4 {
        let at = 4 * index;
        let offset = BigEndian::read_u32(&bytes[at..at + 4]);
        match take_offset(taker, target, offset) {
            Ok(()) => {}
            Err(stop) => return Err(refusal_at(place + index as u64, stop)),
        }
    }
    Ok(())
}

fn fault(place: u64, reason: Reason) -> Refusal
    ensures { result ≡ Refusal.Fault (record { place = place; reason = reason }) }
{
    Refusal::Fault(Fault { place, reason })
}

/// Keeps this fault of the longword at its place.
fn refused(core: CoreState, reason: Reason) -> CoreState
    ensures { result ≡ record core {
      refusal = Some
          (Refusal.Fault (record { place = core.place; reason = reason }));
    } }
{
    CoreState {
        refusal: Some(fault(core.place, reason)),
        ..core
    }
}

/// Whether a file may end here.
fn is_complete(due: Expected) -> bool
    ensures yes { IsTrue result → (a : Around) → IsComplete (expected_view due a) }
    ensures no { IsFalse result → (a : Around) → IsComplete (expected_view due a) → ⊥ }
{
    matches!(due, Expected::UnitType | Expected::PastEnd)
}

impl<T: Taker> Core<T> {
    /// A core before the first longword. The taker must not have taken any event.
    pub fn new(taker: T) -> Self
        requires { T.stands_for taker [] }
        ensures stands { StandsFor T.KIND T.stands_for result [] }
        ensures none { kept result ≡ None }
        ensures given { T.given (taker_of result) ≡ T.given taker }
    {
        Core {
            taker,
            state: CoreState {
                state: initial_state(T::KIND),
                place: 0,
                refusal: None,
            },
        }
    }

    /// Takes the next longword.
    ///
    /// # Errors
    ///
    /// - [`Refusal::Fault`] with the first offence: its place, counted in longwords from 0, and its
    ///   reason by the table of faults or the rules for sites. The longword at place 2^28 is always
    ///   a fault.
    /// - [`Refusal::OutOfMemory`] only if an allocation failed.
    ///
    /// After an error, every later call returns the same error.
    pub fn word(&mut self, word: u32) -> Result<(), Refusal>
        ensures stands { (ws : List ℕ) → StandsFor T.KIND T.stands_for self.old ws →
            StandsFor T.KIND T.stands_for self.new (ws ++ word ∷ []) }
        ensures kept { Keeps (kept self.new) result }
        ensures given { T.given (taker_of self.new) ≡ T.given (taker_of self.old) }
        ensures again { (refusal : Refusal) → kept self.old ≡ Some refusal → result ≡ Err refusal }
        ensures front { OnOk result
            ((ws : List ℕ) → StandsFor T.KIND T.stands_for self.new ws → IsValidPrefix T.KIND ws) }
    {
        match self.state.refusal {
            Some(refusal) => return Err(refusal),
            None => {}
        }
        self.state = advance(&mut self.taker, self.state, word);
        match self.state.refusal {
            Some(refusal) => Err(refusal),
            None => Ok(()),
        }
    }

    /// Takes the first longword of these bytes, and returns the number taken.
    fn take_one(&mut self, bytes: &[u8]) -> Result<usize, Refusal>
        requires some { 4 ≤ length bytes.now }
        ensures stands { (ws : List ℕ) → StandsFor T.KIND T.stands_for self.old ws →
            SomeTaken T.KIND T.stands_for self.new ws bytes.now result }
        ensures count { TakesSome bytes.now result }
        ensures kept { Keeps (kept self.new) result }
        ensures given { T.given (taker_of self.new) ≡ T.given (taker_of self.old) }
    {
        match self.word(BigEndian::read_u32(&bytes[..4])) {
            Ok(()) => Ok(1),
            Err(refusal) => Err(refusal),
        }
    }

    /// Takes longwords of these bytes in a run of words, without looking up what is expected for
    /// each of them.
    fn take_run(&mut self, more: u32, then: AfterWords, bytes: &[u8]) -> Result<usize, Refusal>
        requires some { 4 ≤ length bytes.now }
        requires due { self.old.state.state.due ≡ Expected.Word more then }
        requires none { kept self.old ≡ None }
        ensures stands { (ws : List ℕ) → StandsFor T.KIND T.stands_for self.old ws →
            SomeTaken T.KIND T.stands_for self.new ws bytes.now result }
        ensures count { TakesSome bytes.now result }
        ensures kept { Keeps (kept self.new) result }
        ensures given { T.given (taker_of self.new) ≡ T.given (taker_of self.old) }
    {
        let CoreState { state, place, .. } = self.state;
        let count = run_length(place, more, bytes);
        if count == 0 {
            return self.take_one(bytes);
        }
        match take_words(&mut self.taker, &bytes[..4 * count]) {
            Ok(()) => {
                let more = more - count as u32;
                self.state = after_run(state, Expected::Word { more, then }, place, count);
                Ok(count)
            }
            Err(_) => {
                self.state = CoreState {
                    state,
                    place,
                    refusal: Some(Refusal::OutOfMemory),
                };
                Err(Refusal::OutOfMemory)
            }
        }
    }

    /// Takes longwords of these bytes in a run of offsets to one hunk, without looking up what is
    /// expected for each of them.
    fn take_sites(&mut self, more: u32, target: u32, bytes: &[u8]) -> Result<usize, Refusal>
        requires some { 4 ≤ length bytes.now }
        requires due { self.old.state.state.due ≡ Expected.Offset more target }
        requires none { kept self.old ≡ None }
        ensures stands { (ws : List ℕ) → StandsFor T.KIND T.stands_for self.old ws →
            SomeTaken T.KIND T.stands_for self.new ws bytes.now result }
        ensures count { TakesSome bytes.now result }
        ensures kept { Keeps (kept self.new) result }
        ensures given { T.given (taker_of self.new) ≡ T.given (taker_of self.old) }
    {
        let CoreState { state, place, .. } = self.state;
        let count = run_length(place, more, bytes);
        if count == 0 {
            return self.take_one(bytes);
        }
        match take_offsets(&mut self.taker, place, target, &bytes[..4 * count]) {
            Ok(()) => {
                let more = more - count as u32;
                self.state = after_run(state, Expected::Offset { more, target }, place, count);
                Ok(count)
            }
            Err(refusal) => {
                self.state = CoreState {
                    state,
                    place,
                    refusal: Some(refusal),
                };
                Err(refusal)
            }
        }
    }

    /// Takes at least one longword of these bytes.
    fn take_some(&mut self, bytes: &[u8]) -> Result<usize, Refusal>
        requires some { 4 ≤ length bytes.now }
        requires none { kept self.old ≡ None }
        ensures stands { (ws : List ℕ) → StandsFor T.KIND T.stands_for self.old ws →
            SomeTaken T.KIND T.stands_for self.new ws bytes.now result }
        ensures count { TakesSome bytes.now result }
        ensures kept { Keeps (kept self.new) result }
        ensures given { T.given (taker_of self.new) ≡ T.given (taker_of self.old) }
    {
        match self.state.state.due {
            Expected::Word { more, then } => self.take_run(more, then, bytes),
            Expected::Offset { more, target } => self.take_sites(more, target, bytes),
            _ => self.take_one(bytes),
        }
    }

    /// Takes all longwords of these bytes, and ignores up to three bytes after them. In a run of
    /// words or of offsets, it does not look up what is expected for each of them.
    pub(crate) fn words(&mut self, bytes: &[u8]) -> Result<(), Refusal>
        requires { kept self.old ≡ None }
        ensures stands { (ws : List ℕ) → StandsFor T.KIND T.stands_for self.old ws →
            StandsFor T.KIND T.stands_for self.new (ws ++ longwords bytes.now) }
        ensures kept { Keeps (kept self.new) result }
        ensures given { T.given (taker_of self.new) ≡ T.given (taker_of self.old) }
    {
        let count = bytes.len() / 4;
        let mut taken = 0;
        while taken < count {
            match self.take_some(&bytes[4 * taken..]) {
                Ok(more) => taken += more,
                Err(refusal) => return Err(refusal),
            }
        }
        Ok(())
    }

    /// The error that it keeps, if any.
    pub fn refusal(&self) -> Option<Refusal>
        ensures { result ≡ kept self.now }
    {
        self.state.refusal
    }

    /// The number of longwords taken, which is the place of the next one.
    pub fn place(&self) -> u64
        ensures { (ws : List ℕ) → kept self.now ≡ None →
            StandsFor T.KIND T.stands_for self.now ws → result ≡ length ws }
    {
        self.state.place
    }

    /// What is due after the longwords taken, if it keeps no error. Where two 16-bit words are due, it is
    /// the first of them.
    pub fn due(&self) -> Due
        ensures due { (ws : List ℕ) → kept self.now ≡ None →
            StandsFor T.KIND T.stands_for self.now ws → Dues T.KIND ws result }
        ensures read { (ws : List ℕ) (w : ℕ) → kept self.now ≡ None →
            StandsFor T.KIND T.stands_for self.now ws →
            dues_read T.KIND (ws ++ w ∷ []) ≡ dues_read T.KIND ws ++ (result, w) ∷ [] }
    {
        due_of(self.state.state.due)
    }

    /// The taker, once the file is whole, if the input ends `rest` bytes after the longwords taken.
    ///
    /// # Errors
    ///
    /// [`Refusal::Fault`] with `UnexpectedEnd` if the file is not complete, or with
    /// `PartialLongword` if bytes of a further longword follow. The error of an earlier call is
    /// returned again.
    pub fn end(self, rest: u8) -> Result<T, Refusal>
        ensures answer { (ws : List ℕ) → StandsFor T.KIND T.stands_for self ws →
            EndAnswered T.KIND T.stands_for ws rest result }
        ensures again { (refusal : Refusal) → kept self ≡ Some refusal → result ≡ Err refusal }
        ensures given { IfOk result (λ taker. T.given taker ≡ T.given (taker_of self)) }
        ensures memory { result ≡ Err Refusal.OutOfMemory → kept self ≡ Some Refusal.OutOfMemory }
    {
        let CoreState {
            state,
            place,
            refusal,
        } = self.state;
        match refusal {
            Some(refusal) => return Err(refusal),
            None => {}
        }
        if rest > 0 {
            return Err(fault(place, Reason::PartialLongword));
        }
        if is_complete(state.due) {
            Ok(self.taker)
        } else {
            Err(fault(place, Reason::UnexpectedEnd))
        }
    }
}
