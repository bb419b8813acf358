// Every refusal of the solvency book: what is wrong, its number, and for words the place.
#![tactic(auto)]

ghost use Rattle.std.specs.Prelude.{◌≡◌, Some};
ghost use Rattle.refusals.specs.Numbers.{number_of, place_of, meaning_of, told};

use std::fmt;

// Those that carry a place tell which word is at fault, counted from 0; it is 0 where no words are read.
#[derive(Clone, Copy, PartialEq, Eq, Debug)]
pub enum Refusal {
    KeyOutOfRange,
    KeyStanding,
    NoSuchKey,
    UnknownLineOrBin,
    AmountOutOfRange,
    MarkOutOfRange,
    PlacesTaken,
    TotalsTooLarge,
    TooManyWords(usize),
    WordsEndEarly(usize),
    KindNotAllowed(usize),
    ValueOutOfRange(usize),
    TableNotLawful(usize),
    TooDeep(usize),
    WordsLeftOver(usize),
    GrossTooLarge,
    TooManyRoundings,
    SettingOutOfRange,
    RequiredIsZero,
    UncappedBelowZero,
}

impl Refusal {
    pub fn number(&self) -> u8
        ensures { result ≡ number_of self.now }
    {
        match self {
            Refusal::KeyOutOfRange => 11,
            Refusal::KeyStanding => 12,
            Refusal::NoSuchKey => 13,
            Refusal::UnknownLineOrBin => 14,
            Refusal::AmountOutOfRange => 15,
            Refusal::MarkOutOfRange => 16,
            Refusal::PlacesTaken => 17,
            Refusal::TotalsTooLarge => 18,
            Refusal::TooManyWords(_) => 20,
            Refusal::WordsEndEarly(_) => 21,
            Refusal::KindNotAllowed(_) => 22,
            Refusal::ValueOutOfRange(_) => 23,
            Refusal::TableNotLawful(_) => 24,
            Refusal::TooDeep(_) => 25,
            Refusal::WordsLeftOver(_) => 26,
            Refusal::GrossTooLarge => 27,
            Refusal::TooManyRoundings => 28,
            Refusal::SettingOutOfRange => 31,
            Refusal::RequiredIsZero => 32,
            Refusal::UncappedBelowZero => 33,
        }
    }

    // Which word is at fault, where the refusal is about words.
    pub fn place(&self) -> Option<usize>
        ensures { result ≡ place_of self.now }
    {
        match self {
            Refusal::TooManyWords(at)
            | Refusal::WordsEndEarly(at)
            | Refusal::KindNotAllowed(at)
            | Refusal::ValueOutOfRange(at)
            | Refusal::TableNotLawful(at)
            | Refusal::TooDeep(at)
            | Refusal::WordsLeftOver(at) => Some(*at),
            _ => None,
        }
    }

    // What is wrong, in a few plain words.
    pub fn meaning(&self) -> &'static str
        ensures { result.now ≡ meaning_of self.now }
    {
        match self {
            Refusal::KeyOutOfRange => "the key is out of range",
            Refusal::KeyStanding => "a record stands under this key",
            Refusal::NoSuchKey => "no record stands under this key",
            Refusal::UnknownLineOrBin => "there is no such line or bin",
            Refusal::AmountOutOfRange => "the amount is out of range",
            Refusal::MarkOutOfRange => "the mark is out of range",
            Refusal::PlacesTaken => "all usable places are taken",
            Refusal::TotalsTooLarge => "the line totals together would be too large",
            Refusal::TooManyWords(_) => "there are more than 512 words",
            Refusal::WordsEndEarly(_) => "the words end early",
            Refusal::KindNotAllowed(_) => "a word of this kind may not stand here",
            Refusal::ValueOutOfRange(_) => "the value is out of range",
            Refusal::TableNotLawful(_) => "the correlation table is not lawful",
            Refusal::TooDeep(_) => "the tree is too deep",
            Refusal::WordsLeftOver(_) => "words are left over after the tree",
            Refusal::GrossTooLarge => "the gross is too large",
            Refusal::TooManyRoundings => "there are too many roundings",
            Refusal::SettingOutOfRange => "a setting is out of range",
            Refusal::RequiredIsZero => "required capital is 0",
            Refusal::UncappedBelowZero => "uncapped capital is below 0",
        }
    }
}

impl fmt::Display for Refusal {
    ghost output = { λ x. Some (told x) };

    fn fmt<W: fmt::Write>(&self, f: &mut fmt::Formatter<W>) -> fmt::Result {
        let number = self.number();
        let meaning = self.meaning();
        match self.place() {
            Some(place) => write!(f, "{number} at {place}: {meaning}"),
            None => write!(f, "{number}: {meaning}"),
        }
    }
}
