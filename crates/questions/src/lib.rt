// The fifteen questions that the calls ask, and a refusal for each.
//
// A call asks the questions that concern it in the order of their numbers.  The first one
// answered no refuses the call, which then leaves every table as it was.
#![tactic(auto)]

ghost use Rattle.std.specs.Prelude.{◌≡◌, Some};
ghost use Rattle.questions.specs.Questions.{number_of};
ghost use Rattle.questions.specs.Words.{words_of};

use std::error::Error;
use std::fmt;

// A question answered no.  The discriminants are the numbers that are printed and handed to C,
// where a bare acceptance is 0.
#[derive(Clone, Copy, PartialEq, Eq, Debug)]
pub enum Refusal {
    // a table is shorter than its size, or more of it is said to be in use than that
    ShortTable = 1,
    // a message has more than 64 changes, 32 lower times, 32 upper times or 256 counts
    LongMessage = 2,
    // a recorded time is behind the sender's frontier
    BehindFrontier = 3,
    // a close does not move the sender's frontier on
    NoAdvance = 4,
    // a count is over 1,000,000
    LargeCount = 5,
    // a counted time is not beyond the statement's lower list and behind its upper list
    OutsideStatement = 6,
    // a statement counts one time twice
    CountedTwice = 7,
    // a change has the data and time of an earlier one, and another amount
    OtherAmount = 8,
    // more than 2,048 changes would be held or pending
    ManyChanges = 9,
    // 32 statements are waiting already
    ManyWaiting = 10,
    // the counts do not fit their table
    ManyCounts = 11,
    // a frontier would have more than 32 times
    ManyTimes = 12,
    // the queue has 16 messages already
    FullQueue = 13,
    // a line is malformed, or a number is out of its range
    Malformed = 14,
    // a file or a listing has more than 65,536 bytes, or the listing does not fit
    LongListing = 15,
}

impl Refusal {
    // The number of the question.
    pub fn number(self) -> u8
        ensures { result ≡ number_of self }
    {
        self as u8
    }
}

impl From<Refusal> for u8 {
    ghost from_gives = { λ refusal n. n ≡ number_of refusal };

    fn from(refusal: Refusal) -> u8 {
        refusal.number()
    }
}

// By hand: what `thiserror` writes promises nothing of the words.
impl fmt::Display for Refusal {
    ghost output = { λ refusal. Some (words_of refusal) };

    #[tactic(auto, unfolding(crate::specs::Words::words_of))]
    fn fmt<W: fmt::Write>(&self, f: &mut fmt::Formatter<W>) -> fmt::Result {
        f.write_str(match self {
            Refusal::ShortTable => "a table is shorter than its size, or than what is in use of it",
            Refusal::LongMessage =>
                "a message has more than 64 changes, 32 lower times, 32 upper times or 256 counts",
            Refusal::BehindFrontier => "a recorded time is behind the sender's frontier",
            Refusal::NoAdvance => "a close does not move the sender's frontier on",
            Refusal::LargeCount => "a count is over 1,000,000",
            Refusal::OutsideStatement =>
                "a counted time is not beyond the lower list and behind the upper list",
            Refusal::CountedTwice => "a statement counts one time twice",
            Refusal::OtherAmount =>
                "a change has the data and time of an earlier one, and another amount",
            Refusal::ManyChanges => "more than 2,048 changes would be held or pending",
            Refusal::ManyWaiting => "32 statements are waiting already",
            Refusal::ManyCounts => "the counts do not fit their table",
            Refusal::ManyTimes => "a frontier has more than 32 times",
            Refusal::FullQueue => "the queue has 16 messages already",
            Refusal::Malformed => "a line is malformed, or a number is out of its range",
            Refusal::LongListing =>
                "a file or a listing has more than 65,536 bytes, or the listing does not fit",
        })
    }
}

impl Error for Refusal {}
