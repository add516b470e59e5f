//! The numbers of a file, and the events that they send to a taker.

ghost use Rattle.std.specs.Prelude.{◌≡◌, ℕ, suc, ◌+◌, ◌<◌, ◌^◌, List, [], ◌++◌, length, IfErr, OnOk};
ghost use Rattle.hunk_words.specs.Kinds.{Field, is_half, width};
ghost use Rattle.hunk_words.specs.Event.{events, with_event, word_events};
ghost use Rattle.hunk_base.specs.Longwords.{IsWhole, longwords};
ghost use Rattle.hunk_words.specs.Machine.{due as first_due};
ghost use Rattle.hunk_words.specs.Reading.{Progress};
ghost use Rattle.hunk_words.specs.Numbers.{Reached, MayCome, NumberAnswered, WordAnswered, at_offset, site_refused, with_state};
ghost use Rattle.hunk_words.specs.Taker.{JudgesEvent, context_of, sizes_told};
ghost use Rattle.hunk_words.specs.State.{Around, IsState, SizeIsGiven, expected_view};
ghost use Rattle.hunk_words.specs.declared.event.Event.{Event};
ghost use Rattle.hunk_words.specs.declared.numbers.NumberRefusal.{NumberRefusal};

use crate::event::{Event, FileKind};
use crate::state::{Expected, State};
use crate::step::step;
use crate::taker::Taker;
use byteorder::{BigEndian, ByteOrder};
use hunk_base::fault::Reason;
use hunk_base::sites::SiteRefusal;

/// Why a number was refused.
#[derive(Clone, Copy)]
pub enum NumberRefusal {
    /// It is not allowed.
    Refused(Reason),
    /// An allocation failed.
    OutOfMemory,
}

/// The size of this hunk in the header, if the size of its content is expected.
fn size_asked<T: Taker>(taker: &T, state: State) -> u32
    ensures { (told : List Event) → T.stands_for taker.now told → state.file ≡ T.KIND →
        IsState state (sizes_told T.KIND told) → SizeIsGiven state (sizes_told T.KIND told) result }
{
    match state.due {
        Expected::ContentSize { .. } => match state.file {
            FileKind::Object => 0,
            FileKind::Load => taker.size_of(state.hunk),
        },
        _ => 0,
    }
}

/// Why a number is refused whose site a taker refuses.
fn refused_site(number: u32, refusal: SiteRefusal) -> NumberRefusal
    ensures { result ≡ site_refused number refusal }
{
    match refusal {
        SiteRefusal::Outside => NumberRefusal::Refused(Reason::SiteOutside(number)),
        SiteRefusal::Overlap => NumberRefusal::Refused(Reason::SiteOverlap(number)),
        SiteRefusal::OutOfMemory => NumberRefusal::OutOfMemory,
    }
}

/// Sends the taker the event of a number, if it has one.
fn tell<T: Taker>(taker: &mut T, event: Option<Event>) -> Result<(), SiteRefusal>
    ensures takes { (told : List Event) → T.stands_for taker.old told → length told < 2 ^ 29 →
        OnOk result (T.stands_for taker.new (told ++ with_event event [])) }
    ensures judges { (told : List Event) → T.stands_for taker.old told → length told < 2 ^ 29 →
        JudgesEvent (context_of T.KIND told) event result }
    ensures given { T.given taker.new ≡ T.given taker.old }
{
    match event {
        None => Ok(()),
        Some(event) => taker.take(event),
    }
}

/// Takes a number: judges it by the table of faults, and then, if it is a site, by the taker.
pub fn take_number<T: Taker>(
    taker: &mut T,
    state: State,
    number: u32,
) -> Result<State, NumberRefusal>
    ensures answer { (fs : List Field) (at : Progress) →
        Reached T.KIND (T.stands_for taker.old) state fs at → MayCome fs at number →
        NumberAnswered T.KIND (T.stands_for taker.new) fs at number result }
    ensures given { T.given taker.new ≡ T.given taker.old }
{
    let size = size_asked(taker, state);
    match step(state, size, number) {
        Ok(next) => match tell(taker, next.event) {
            Ok(()) => Ok(next.state),
            Err(refusal) => Err(refused_site(number, refusal)),
        },
        Err(reason) => Err(NumberRefusal::Refused(reason)),
    }
}

/// Takes an offset of a list of 32-bit relocations that another offset to the same hunk follows.
pub fn take_offset<T: Taker>(taker: &mut T, target: u32, offset: u32) -> Result<(), NumberRefusal>
    ensures answer { (state : State) (more : ℕ) (fs : List Field) (at : Progress) →
        Reached T.KIND (T.stands_for taker.old) (at_offset state (suc more) target) fs at →
        length (events fs) + 1 < 2 ^ 29 → WordAnswered T.KIND (T.stands_for taker.new) fs at offset
        (with_state (at_offset state more target) result) }
    ensures given { T.given taker.new ≡ T.given taker.old }
{
    match taker.take(Event::Site { offset, target }) {
        Ok(()) => Ok(()),
        Err(refusal) => Err(refused_site(offset, refusal)),
    }
}

/// Whether two halves are expected: 16-bit words of a list of relocations.
fn is_halved(due: Expected) -> bool
    ensures { (a : Around) → result ≡ is_half (width (first_due (expected_view due a))) }
{
    matches!(
        due,
        Expected::ShortCount { .. }
            | Expected::ShortHunk { .. }
            | Expected::ShortOffset { .. }
            | Expected::ShortPad
    )
}

/// Takes a longword: one number, or two halves, the upper one first.
pub fn take_word<T: Taker>(taker: &mut T, state: State, word: u32) -> Result<State, NumberRefusal>
    ensures answer { (fs : List Field) (at : Progress) →
        Reached T.KIND (T.stands_for taker.old) state fs at → length (events fs) + 1 < 2 ^ 29 →
        WordAnswered T.KIND (T.stands_for taker.new) fs at word result }
    ensures given { T.given taker.new ≡ T.given taker.old }
{
    if is_halved(state.due) {
        match take_number(taker, state, word / 0x1_0000) {
            Ok(upper) => take_number(taker, upper, word % 0x1_0000),
            Err(stop) => Err(stop),
        }
    } else {
        take_number(taker, state, word)
    }
}

/// Takes the longwords of a run of words, one after the other.
fn take_each_word<T: Taker>(taker: &mut T, bytes: &[u8]) -> Result<(), NumberRefusal>
    ensures takes { (told : List Event) → T.stands_for taker.old told →
        length told + length (longwords bytes.now) < 2 ^ 29 →
        OnOk result (T.stands_for taker.new (told ++ word_events (longwords bytes.now))) }
    ensures memory { IfErr result (λ stop. stop ≡ NumberRefusal.OutOfMemory) }
    ensures given { T.given taker.new ≡ T.given taker.old }
{
    for index in 0..bytes.len() / 4 {
        let at = 4 * index;
        let word = BigEndian::read_u32(&bytes[at..at + 4]);
        match taker.take(Event::Word(word)) {
            Ok(()) => {}
            Err(_) => return Err(NumberRefusal::OutOfMemory),
        }
    }
    Ok(())
}

/// Takes the longwords of a run of words: at once, if the taker has a way to do so.
pub fn take_words<T: Taker>(taker: &mut T, bytes: &[u8]) -> Result<(), NumberRefusal>
    requires { IsWhole bytes.now }
    ensures takes { (told : List Event) → T.stands_for taker.old told →
        length told + length (longwords bytes.now) < 2 ^ 29 →
        OnOk result (T.stands_for taker.new (told ++ word_events (longwords bytes.now))) }
    ensures memory { IfErr result (λ stop. stop ≡ NumberRefusal.OutOfMemory) }
    ensures given { T.given taker.new ≡ T.given taker.old }
{
    match taker.take_words(bytes) {
        Ok(true) => Ok(()),
        Ok(false) => take_each_word(taker, bytes),
        Err(_) => Err(NumberRefusal::OutOfMemory),
    }
}
