ghost use Rattle.std.specs.Prelude.{◌≡◌, Some};
ghost use Rattle.refusals.specs.Refusals.{number_of, words_of};

use std::error::Error;
use std::fmt;

// Why a call was turned down. A call that has several reasons gives the one with the lowest number.
#[derive(Clone, Copy, PartialEq, Eq, Debug)]
pub enum Refusal {
    // of what comes in
    RuleLength = 1,
    NotAForm = 2,
    TooManyForms = 3,
    TooDeep = 4,
    NumberTooLarge = 5,
    EmptyInterval = 6,
    NormalFormTooLarge = 7,
    TimeOverLimit = 8,
    BrokenFile = 9,
    // of how things stand
    LogFull = 10,
    TimeFalls = 11,
    MemoryTooShort = 12,
    EventAbsent = 13,
    OutputTooShort = 14,
}

impl Refusal {
    // The number by which reports and the pages under docs/ name the reason.
    pub fn number(self) -> u8
        ensures { result ≡ number_of self }
    {
        self as u8
    }

    // The reason in plain words.
    fn words(self) -> &'static str
        ensures { result.now ≡ words_of self }
    {
        match self {
            Refusal::RuleLength => "the rule text is empty or longer than 1,024 bytes",
            Refusal::NotAForm => "the rule text is not a form",
            Refusal::TooManyForms => "the rule has more than 64 forms",
            Refusal::TooDeep => "the rule nests deeper than 32 forms",
            Refusal::NumberTooLarge => "a number in the rule is above 1,000,000,000",
            Refusal::EmptyInterval =>
                "an interval's lower end is above its upper end, or equal to it and not 0",
            Refusal::NormalFormTooLarge => "the rule's normal form has more than 64 forms",
            Refusal::TimeOverLimit => "the event's time is above 4,000,000,000,000 milliseconds",
            Refusal::BrokenFile => "the log file is damaged or holds no lawful log",
            Refusal::LogFull => "the log is full",
            Refusal::TimeFalls => "the event is earlier than the last accepted one",
            Refusal::MemoryTooShort => "the working memory is too short",
            Refusal::EventAbsent => "the log has no such event",
            Refusal::OutputTooShort => "the output is too short",
        }
    }
}

impl fmt::Display for Refusal {
    ghost output = { λ x. Some (words_of x) };

    fn fmt<W: fmt::Write>(&self, f: &mut fmt::Formatter<W>) -> fmt::Result {
        f.write_str(self.words())
    }
}

impl Error for Refusal {}
