ghost use Rattle.std.specs.Prelude.{◌≡◌, ◌≢◌, ℕ, ◌<◌, ◌^◌, ◌↔◌, List, ◌∷◌, map, decimal, Ok, IsTrue, IfOk, IfErr, IfSome, IfNone};
ghost use Rattle.cap_files.specs.WordsLeft.{words_left};
ghost use Rattle.cap_text.specs.Word.{IsFolderWord, AreFolderWords, IsNumberWord, IsBytesWord, IsArgWord, AreArgWords, argument_read};
ghost use Rattle.vm_step.specs.Arguments.{Argument, argument_of};

use cap_files::WordsIter;
use hex::FromHexError;
use itoa::{Buffer, Integer};
use std::alloc::{AllocError, Global};
use vm_step::Arg;

/// An argument of a run, as a word writes it, with the bytes of its array where it is one.
#[derive(Drop)]
pub enum OwnedArg {
    /// A number from -2,147,483,648 to 2,147,483,647.
    Number(i32),
    /// The null reference.
    Null,
    /// The bytes of an array, at most 1,024.
    Bytes(Vec<u8>),
}

impl OwnedArg {
    /// The argument as a machine takes it, its bytes borrowed.
    pub fn lend(&self) -> Arg<'_>
        ensures { argument_of result ≡ argument_read self.now }
    {
        match self {
            OwnedArg::Number(number) => Arg::Number(*number),
            OwnedArg::Null => Arg::Null,
            OwnedArg::Bytes(bytes) => Arg::Bytes(bytes.as_slice()),
        }
    }
}

/// Whether a word names a folder.
pub fn folder_word(word: &str) -> bool
    ensures { IsTrue result ↔ IsFolderWord word.now }
{
    !word.is_empty() && word != "--"
}

/// Whether there are words left, and each names a folder.
pub fn folder_words(mut words: WordsIter<'_>) -> bool
    ensures { IsTrue result ↔ AreFolderWords (words_left words.entry) }
{
    let Some(first) = words.next() else {
        return false;
    };
    folder_word(first) && words.all(folder_word)
}

// Whether the word is how this number prints.
fn writes<I: Integer>(word: &str, n: I) -> bool
    ensures { IsTrue result ↔ (word.now ≡ I.text n) }
{
    Buffer::new().format(n) == word
}

/// The number from 0 to 4,294,967,295 that a word writes in decimal, where it writes one.
pub fn number(word: &str) -> Option<u32>
    ensures found { IfSome result (λ n. IsNumberWord word.now n) }
    ensures none { IfNone result ((n : ℕ) → IsNumberWord word.now n → ⊥) }
{
    match word.parse::<u32>() {
        Ok(n) if writes(word, n) => Some(n),
        _ => None,
    }
}

/// The number from 0 to 65,535 that a word writes in decimal, where it writes one.
pub fn short_number(word: &str) -> Option<u16>
    ensures found { IfSome result (λ n. word.now ≡ decimal n) }
    ensures none { IfNone result ((n : ℕ) → n < 2 ^ 16 → word.now ≢ decimal n) }
{
    match word.parse::<u16>() {
        Ok(n) if writes(word, n) => Some(n),
        _ => None,
    }
}

/// The argument that a word writes, where it writes one. Only words that begin with a number sign take memory.
pub fn argument(alloc: Global, word: &str) -> Result<Option<OwnedArg>, AllocError>
    ensures found { IfOk result (λ o. IfSome o (λ a. IsArgWord word.now (argument_read a))) }
    ensures none { IfOk result (λ o. IfNone o ((a : Argument) → IsArgWord word.now a → ⊥)) }
    ensures memory { IfErr result (λ _. (digits : List ℕ) × (word.now ≡ 35 ∷ digits)) }
{
    let Some(digits) = after_sign(word) else {
        return Ok(number_or_null(word));
    };
    match bytes(alloc, digits)? {
        Some(bytes) => Ok(Some(OwnedArg::Bytes(bytes))),
        None => Ok(None),
    }
}

// What stands after a number sign.
fn after_sign(word: &str) -> Option<&str>
    ensures found { IfSome result (λ digits. word.now ≡ 35 ∷ digits.now) }
    ensures none { IfNone result ((rest : List ℕ) → word.now ≢ 35 ∷ rest) }
{
    word.strip_prefix('#')
}

// The argument that a word without a number sign writes.
fn number_or_null(word: &str) -> Option<OwnedArg>
    requires { (rest : List ℕ) → word.now ≢ 35 ∷ rest }
    ensures found { IfSome result (λ a. IsArgWord word.now (argument_read a)) }
    ensures none { IfNone result ((a : Argument) → IsArgWord word.now a → ⊥) }
{
    if word == "null" {
        return Some(OwnedArg::Null);
    }
    match word.parse::<i32>() {
        Ok(z) if writes(word, z) => Some(OwnedArg::Number(z)),
        _ => None,
    }
}

/// The most bytes of an argument.
const MOST_BYTES: usize = 1024;

// The bytes that the digits after a number sign write.
fn bytes(alloc: Global, digits: &str) -> Result<Option<Vec<u8>>, AllocError>
    ensures found { IfOk result (λ o. IfSome o (λ v. IsBytesWord (35 ∷ digits.now) v.items)) }
    ensures none { IfOk result (λ o. IfNone o ((bs : List ℕ) → IsBytesWord (35 ∷ digits.now) bs → ⊥)) }
{
    if digits.len() > 2 * MOST_BYTES {
        return Ok(None);
    }
    match hex::decode(alloc, digits) {
        Ok(bytes) => {
            let printed = hex::encode(alloc, bytes.as_slice())?;
            if printed.as_str() == digits {
                Ok(Some(bytes))
            } else {
                Ok(None)
            }
        }
        Err(end) => match end {
            FromHexError::OutOfMemory => Err(AllocError),
            _ => Ok(None),
        },
    }
}

/// The arguments that the words write, where each writes one.
pub fn arguments(alloc: Global, words: WordsIter<'_>) -> Result<Option<Vec<OwnedArg>>, AllocError>
    ensures found { IfOk result (λ o. IfSome o (λ v. AreArgWords (words_left words.entry) (map argument_read v.items))) }
    ensures none { IfOk result (λ o. IfNone o ((xs : List Argument) → AreArgWords (words_left words.entry) xs → ⊥)) }
{
    let mut args = Vec::new(alloc);
    for word in words {
        let Some(arg) = argument(alloc, word)? else {
            return Ok(None);
        };
        args.push(arg)?;
    }
    Ok(Some(args))
}
