// The words of a line, and what each kind of word is read as.
ghost use Rattle.std.specs.Prelude.{◌≡◌, ◌^◌};
ghost use Rattle.std.specs.Result.{result_ok};
ghost use Rattle.trigger.specs.Reading.{parted, whole_read, fitting, price_read, percent_read, step_read, clock, clock_read, moment_read};

use crate::cutting::{before_sign, cut_at};
use crate::unreadable::{Unreadable, WordFault};
use std::iter::Peekable;
use std::str::SplitWhitespace;
use values::decimal::{DecimalFault, read_decimal};

// A step of a price: a part of it, in hundredths of a percent, or a difference, in ten-thousandths of a yuan.
// Not a `Step`: these are numbers that nothing has checked yet.
#[derive(Clone, Copy)]
pub(crate) enum StepLine {
    Percent(u32),
    Difference(u32),
}

// A whole number that fits 32 bits.
pub(crate) fn read_number(text: &str) -> Result<u32, WordFault>
    ensures { result_ok result ≡ whole_read text.now }
{
    read_decimal(text, 0).map_err(|fault| match fault {
        DecimalFault::TooLarge => WordFault::TooLarge,
        _ => WordFault::NotWhole,
    })
}

// A whole number up to 255. It and the next are two functions, not one over the type: each clause says its own bound.
pub(crate) fn read_byte(text: &str) -> Result<u8, WordFault>
    ensures { result_ok result ≡ fitting (2 ^ 8) (whole_read text.now) }
{
    u8::try_from(read_number(text)?).map_err(|_| WordFault::TooLarge)
}

// A whole number up to 65,535.
pub(crate) fn read_day(text: &str) -> Result<u16, WordFault>
    ensures { result_ok result ≡ fitting (2 ^ 16) (whole_read text.now) }
{
    u16::try_from(read_number(text)?).map_err(|_| WordFault::TooLarge)
}

// A price in ten-thousandths of a yuan.
pub(crate) fn read_price(text: &str) -> Result<u32, WordFault>
    ensures { result_ok result ≡ price_read text.now }
{
    Ok(read_decimal(text, 4)?)
}

// A percentage in its hundredths.
pub(crate) fn read_percent(text: &str) -> Result<u32, WordFault>
    ensures { result_ok result ≡ percent_read text.now }
{
    let number = before_sign(text).ok_or(WordFault::NotPercent)?;
    Ok(read_decimal(number, 2)?)
}

pub(crate) fn read_step(text: &str) -> Result<StepLine, WordFault>
    ensures { result_ok result ≡ step_read text.now }
{
    match before_sign(text) {
        Some(number) => Ok(StepLine::Percent(read_decimal(number, 2)?)),
        None => Ok(StepLine::Difference(read_price(text)?)),
    }
}

// A time of the day in seconds since its midnight. The hours may pass 23: the core refuses such a moment.
fn clock_seconds(hours: u32, minutes: u32, seconds: u32) -> Result<u32, WordFault>
    ensures { result_ok result ≡ clock hours minutes seconds }
{
    if minutes >= 60 || seconds >= 60 {
        return Err(WordFault::NotMoment);
    }
    let all = u64::from(hours) * 3600 + u64::from(minutes) * 60 + u64::from(seconds);
    u32::try_from(all).map_err(|_| WordFault::TooLarge)
}

// A time of the day, from its hours and from what stands after their colon.
fn read_clock(hours: &str, rest: &str) -> Result<u32, WordFault>
    ensures { result_ok result ≡ clock_read hours.now (parted 58 rest.now) }
{
    let (minutes, seconds) = cut_at(rest, ':').ok_or(WordFault::NotMoment)?;
    clock_seconds(
        read_number(hours)?,
        read_number(minutes)?,
        read_number(seconds)?,
    )
}

// A moment of the day: a whole number of seconds, or HH:MM:SS.
pub(crate) fn read_moment(text: &str) -> Result<u32, WordFault>
    ensures { result_ok result ≡ moment_read text.now }
{
    match cut_at(text, ':') {
        None => read_number(text),
        Some((hours, rest)) => read_clock(hours, rest),
    }
}

// The words of a line that are left. A word that may be absent is looked at before it is taken.
#[derive(Drop)]
pub(crate) struct Words<'a> {
    pub(crate) left: Peekable<SplitWhitespace<'a>>,
}

impl<'a> Words<'a> {
    pub(crate) fn new(text: &'a str) -> Words<'a> {
        Words {
            left: text.split_whitespace().peekable(),
        }
    }

    pub(crate) fn word(&mut self) -> Result<&'a str, Unreadable> {
        self.left.next().ok_or(Unreadable::TooFewWords)
    }

    // Takes the next word if it is this one.
    pub(crate) fn takes(&mut self, word: &str) -> bool {
        self.left.next_if(|next| *next == word).is_some()
    }

    // The line has to end here.
    pub(crate) fn end(&mut self) -> Result<(), Unreadable> {
        self.left
            .next()
            .map_or(Ok(()), |_| Err(Unreadable::TooManyWords))
    }

    // Reads the next word, which is that of the field.
    pub(crate) fn field<T: Drop, F: FnOnce(&str) -> Result<T, WordFault>>(
        &mut self,
        field: &'static str,
        read: F,
    ) -> Result<T, Unreadable>
        requires { F.IsAlwaysCallable read }
    {
        let word = self.word()?;
        read(word).map_err(|fault| Unreadable::Field(field, fault))
    }

    // Reads the next word, which is one of two that each stand for a value.
    pub(crate) fn either<T: Copy>(
        &mut self,
        field: &'static str,
        (first, one): (&'static str, T),
        (second, other): (&'static str, T),
    ) -> Result<T, Unreadable> {
        let word = self.word()?;
        if word == first {
            Ok(one)
        } else if word == second {
            Ok(other)
        } else {
            Err(Unreadable::Neither(field, first, second))
        }
    }
}
