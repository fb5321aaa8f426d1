// Why a line cannot be read. What is printed of it has no comma, since answers are separated by commas.
use std::alloc::AllocError;
use thiserror::Error;
use values::decimal::DecimalFault;

// What is wrong with one word. It does not quote the word: `Words::field` takes the readers as values, and the borrow check
// allows that only if what they answer holds no reference.
#[derive(Clone, Copy, Debug, Error)]
pub(crate) enum WordFault {
    #[error("not a whole number")]
    NotWhole,
    #[error("a number too large for its field")]
    TooLarge,
    // of a price, or of the number before a percentage's sign
    #[error("{0}")]
    Decimal(#[from] DecimalFault),
    #[error("not a percentage such as 0.10%")]
    NotPercent,
    #[error("not a time such as 34200 or 09:30:00")]
    NotMoment,
    #[error("not one of the kinds of order")]
    NotKind,
}

// What is wrong with a line.
#[derive(Clone, Copy, Debug, Error)]
pub(crate) enum Unreadable {
    // not UTF-8
    #[error("not text")]
    NotText,
    // no line begins with its first word
    #[error("unknown word")]
    UnknownWord,
    #[error("too few words")]
    TooFewWords,
    #[error("too many words")]
    TooManyWords,
    // a field, and what is wrong with its word
    #[error("{0}: {1}")]
    Field(&'static str, WordFault),
    // a field, and the two words that alone could stand there
    #[error("{0}: not {1} or {2}")]
    Neither(&'static str, &'static str, &'static str),
    // it sets what can only be set before the first call
    #[error("only before the first call")]
    TooLate,
    // it stands where a burst wants a quote, and is none
    #[error("not a quote of the burst")]
    NotQuote,
}

// Why a line was not read: the line is at fault, or memory is wanting.
#[derive(Debug, Drop, Error)]
pub(crate) enum ReadFault {
    #[error(transparent)]
    Unreadable(#[from] Unreadable),
    #[error(transparent)]
    Memory(#[from(alloc)] AllocError),
}
