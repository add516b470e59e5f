//! The arguments of a command line, some of which may be bytes that are no text.
ghost use Rattle.std.specs.Prelude.{◌≡◌, ◌<◌, ◌^◌, ℕ, IfOk, Some};
ghost use Rattle.std.specs.List.{list_all, list_any};
ghost use Rattle.clap.specs.Walk.{texts};
ghost use Rattle.hunk_store.specs.FileList.{given_list};
ghost use Rattle.amihunk.specs.Arguments.{AreArguments, AreMeantBy, IsArgument, IsAskedInBytes, IsMeantBy, begins_with, is_strange_list, is_strange_option, is_text, may_survey, own_bytes, stand_in, word_of};

use crate::command_line::read_words;
use crate::refusal::refuse_bytes;
use hunk_commands::{FileList, Request};
use std::alloc::{AllocError, Global};
use std::convert::AsStr;
use std::env::FillError;
use std::rt::Env;
use std::str;

/// The bytes that are first offered to hold an argument.
const FIRST_CAPACITY: usize = 256;

/// An argument of a command line.
#[derive(Drop)]
pub enum Argument {
    /// A text.
    Text(String),
    /// One that is no text.
    Bytes {
        /// What it is.
        bytes: Vec<u8>,
        /// The word as which it is parsed: a zero byte and its index among the arguments, in decimal. No
        /// argument of the system has a zero byte.
        word: String,
    },
}

impl AsStr for Argument {
    ghost text = { word_of };

    fn as_str(&self) -> &str {
        match self {
            Argument::Text(text) => text.as_str(),
            Argument::Bytes { word, .. } => word.as_str(),
        }
    }
}

impl Argument {
    /// Whether it is a text.
    fn is_text(&self) -> bool
        ensures { result ≡ is_text self.now }
    {
        match self {
            Argument::Text(_) => true,
            Argument::Bytes { .. } => false,
        }
    }
}

/// Whether all of the arguments are texts.
pub fn are_texts(arguments: &[Argument]) -> bool
    ensures { result ≡ list_all is_text arguments.now }
{
    arguments.iter().all(|it| it.is_text())
}

/// The arguments of the command line, with the program's name first.
///
/// # Errors
///
/// [`AllocError`] if an allocation failed.
pub fn arguments_of<R: Env + AllocGlobal>(rt: &R) -> Result<Vec<Argument>, AllocError>
    ensures { IfOk result (λ arguments. AreArguments arguments.items) }
{
    let alloc = rt.alloc();
    let mut arguments = Vec::new(alloc);
    for _ in 0..usize::MAX {
        let index = arguments.len();
        match bytes_at(rt, alloc, index)? {
            Some(bytes) => arguments.push(argument_of(alloc, index, bytes)?)?,
            None => break,
        }
    }
    Ok(arguments)
}

/// The bytes of the argument at this index, or `None` if there are not so many.
///
/// # Errors
///
/// [`AllocError`] if an allocation failed.
fn bytes_at<R: Env>(rt: &R, alloc: Global, index: usize) -> Result<Option<Vec<u8>>, AllocError> {
    let mut capacity = FIRST_CAPACITY;
    for _ in 0..usize::BITS {
        let mut bytes = vec![in alloc; 0; capacity]?;
        match rt.arg(index, bytes.as_mut_slice()) {
            Ok(length) => {
                bytes.truncate(length);
                // All arguments are kept, and most are short.
                bytes.shrink_to_fit();
                return Ok(Some(bytes));
            }
            Err(FillError::NotPresent) => return Ok(None),
            Err(FillError::TooLong) => capacity = capacity.saturating_mul(2),
        }
    }
    Err(AllocError)
}

/// The argument at this index, of these bytes.
///
/// # Errors
///
/// [`AllocError`] if an allocation failed.
fn argument_of(alloc: Global, index: usize, bytes: Vec<u8>) -> Result<Argument, AllocError>
    ensures { IfOk result (IsArgument index) }
{
    match String::from_utf8(bytes) {
        Ok(text) => Ok(Argument::Text(text)),
        Err(error) => {
            let word = format!(in alloc; "\0{index}")?;
            let bytes = error.into_bytes();
            Ok(Argument::Bytes { bytes, word })
        }
    }
}

/// Reads arguments some of which are no text: they may be files of a survey, and nothing else. Any other
/// command line is rejected, as `clap` rejects one with such arguments.
pub fn read_arguments<'a>(alloc: Global, arguments: &'a [Argument]) -> Request<'a>
    requires { AreArguments arguments.now }
    ensures { IsAskedInBytes arguments.entry.now result }
{
    match read_words(alloc, arguments) {
        Request::Survey {
            options,
            files,
            list,
        } => {
            if !may_survey(arguments, list) {
                return refuse_bytes(alloc);
            }
            Request::Survey {
                options,
                files: meant_files(arguments, files),
                list,
            }
        }
        Request::OutOfMemory => Request::OutOfMemory,
        _ => refuse_bytes(alloc),
    }
}

/// Whether a survey may be made of the arguments with this list: none that is no text begins with a hyphen,
/// which may be an option, or is the list.
fn may_survey(arguments: &[Argument], list: Option<FileList<'_>>) -> bool
    ensures { result ≡ may_survey arguments.now (given_list list.entry) }
{
    !(has_strange_option(arguments) || is_strange_list(list))
}

/// Whether one of the arguments is no text, and begins with a hyphen.
fn has_strange_option(arguments: &[Argument]) -> bool
    ensures { result ≡ list_any is_strange_option arguments.now }
{
    arguments.iter().any(|it| is_strange_option(it))
}

/// Whether the argument is no text, and begins with a hyphen.
fn is_strange_option(argument: &Argument) -> bool
    ensures { result ≡ is_strange_option argument.now }
{
    match argument {
        Argument::Text(_) => false,
        Argument::Bytes { bytes, .. } => begins_with(bytes.as_slice(), b'-'),
    }
}

/// Whether the list is a word that stands for an argument.
fn is_strange_list(list: Option<FileList<'_>>) -> bool
    ensures { result ≡ is_strange_list (given_list list.entry) }
{
    match list {
        Some(list) => begins_with(list.file.as_bytes(), 0),
        None => false,
    }
}

/// Whether the first of the bytes is this one.
fn begins_with(bytes: &[u8], byte: u8) -> bool
    ensures { result ≡ begins_with byte bytes.now }
{
    match bytes.get(0) {
        Some(first) => *first == byte,
        None => false,
    }
}

/// What words for files mean among the arguments.
fn meant_files<'a>(arguments: &'a [Argument], mut words: Vec<&'a [u8]>) -> Vec<&'a [u8]>
    requires { AreArguments arguments.now }
    ensures { AreMeantBy arguments.entry.now (texts words.entry.items) (texts result.items) }
{
    for word in words.iter_mut() {
        *word = meant_file(arguments, word);
    }
    words
}

/// The bytes that a word means among the arguments: those of the argument for which it stands, or its own.
fn meant_file<'a>(arguments: &'a [Argument], word: &'a [u8]) -> &'a [u8]
    requires { AreArguments arguments.now }
    ensures { IsMeantBy arguments.entry.now word.entry.now result.now }
{
    match index_of(word) {
        Some(index) => match arguments.get(index) {
            Some(argument) => own_bytes(argument, word),
            None => word,
        },
        None => word,
    }
}

/// The bytes of the argument, if it is no text and the word stands for it, or else those of the word.
fn own_bytes<'a>(argument: &'a Argument, word: &'a [u8]) -> &'a [u8]
    ensures { result.now ≡ own_bytes argument.entry.now word.entry.now }
{
    match argument {
        Argument::Bytes { bytes, word: own } if own.as_bytes() == word => bytes.as_slice(),
        _ => word,
    }
}

/// The index of the argument for which a word stands, if it has the form of a word that does.
fn index_of(word: &[u8]) -> Option<usize>
    ensures { (index : ℕ) → index < 2 ^ 64 → word.now ≡ stand_in index → result ≡ Some index }
{
    if !begins_with(word, 0) {
        return None;
    }
    match str::from_utf8(&word[1..]) {
        Ok(digits) => match digits.parse::<usize>() {
            Ok(index) => Some(index),
            Err(_) => None,
        },
        Err(_) => None,
    }
}
