// Date words (document 01, "Names and dates"; document 02, Req 02): a calendar day, and the word that names it. Nothing here knows of
// directories.
#![tactic(auto)]

ghost use Rattle.std.specs.Prelude.{◌≡◌, true};
ghost use Rattle.dates.specs.Dates.{is_leap, days_in, in_calendar, packed_day, years, day_field, month_field};
ghost use Rattle.dates.specs.Dates.{good_date, word_of_day, day_of_word};

// The length of each month; there is no month 0.
const MONTH_LENGTHS: [u16; 13] = [0, 31, 28, 31, 30, 31, 30, 31, 31, 30, 31, 30, 31];

const FIRST_YEAR: u16 = 1972;

const LAST_YEAR: u16 = 2099;

// The word of a day: number 0, or 9 and word 0. A number and no Option: docs/MANUAL.md gives the answer by it, and the theorem
// `word_day_word` of proofs/Days.antt speaks of these fields.
#[derive(Clone, Copy)]
pub struct DayWord {
    pub number: u16,
    pub word: u16,
}

// The day of a word: number 0, or 9 where the word is bad; zeros where it is 0 or bad. A number for the same reason, by `day_word_day`.
#[derive(Clone, Copy)]
pub struct WordDay {
    pub number: u16,
    pub day: u16,
    pub month: u16,
    pub year: u16,
}

// Three numbers for a day, which the calendar may lack.
#[derive(Clone, Copy)]
struct Day {
    day: u16,
    month: u16,
    year: u16,
}

#[tactic(auto, unfolding(crate::specs::Dates::is_leap))]
fn is_leap(year: u16) -> bool
    ensures { result ≡ is_leap year }
{
    year % 400 == 0 || (year % 100 != 0 && year % 4 == 0)
}

#[tactic(auto, unfolding(crate::specs::Dates::days_in, crate::specs::Dates::month_lengths))]
fn days_in(month: u16, year: u16) -> u16
    ensures { result ≡ days_in month year }
{
    let Some(days) = MONTH_LENGTHS.get(month as usize) else {
        return 0;
    };
    if month == 2 && is_leap(year) {
        days + 1
    } else {
        *days
    }
}

impl Day {
    // The numbers in the fields of a date word.
    #[tactic(auto, unfolding(crate::specs::Dates::day_field, crate::specs::Dates::month_field, crate::specs::Dates::years))]
    fn of_word(word: u16) -> Day
        ensures day { result.day ≡ day_field word }
        ensures month { result.month ≡ month_field word }
        ensures year { result.year ≡ years.named word }
    {
        Day {
            day: word / 32 % 32,
            month: word / 1024 % 16,
            year: FIRST_YEAR + 32 * (word / 16384) + word % 32,
        }
    }

    #[tactic(auto, unfolding(crate::specs::Dates::in_calendar, crate::specs::Dates::years))]
    fn is_in_calendar(self) -> bool
        ensures { result ≡ in_calendar self.day self.month self.year }
    {
        (FIRST_YEAR..=LAST_YEAR).contains(&self.year)
            && (1..=days_in(self.month, self.year)).contains(&self.day)
    }

    #[tactic(auto, using(crate::proofs::Days::calendar_parts), unfolding(crate::specs::Dates::packed_day, crate::specs::Dates::years))]
    fn word(self) -> u16
        requires { in_calendar self.day self.month self.year ≡ true }
        ensures { result ≡ packed_day self.day self.month self.year }
    {
        let since = self.year - FIRST_YEAR;
        self.month * 1024 + self.day * 32 + (since / 32 * 16384 + since % 32)
    }
}

// Day, month and year to the date word.
#[tactic(auto, unfolding(crate::specs::Dates::word_of_day))]
pub fn word_of_day(day: u16, month: u16, year: u16) -> DayWord
    ensures { result ≡ word_of_day day month year }
{
    let date = Day { day, month, year };
    if !date.is_in_calendar() {
        return DayWord { number: 9, word: 0 };
    }
    DayWord {
        number: 0,
        word: date.word(),
    }
}

// A date word to day, month and year.
#[tactic(auto, unfolding(crate::specs::Dates::day_of_word, crate::specs::Dates::names_day))]
pub fn day_of_word(word: u16) -> WordDay
    ensures { result ≡ day_of_word word }
{
    let date = Day::of_word(word);
    if !date.is_in_calendar() {
        return WordDay {
            number: if word == 0 { 0 } else { 9 },
            day: 0,
            month: 0,
            year: 0,
        };
    }
    WordDay {
        number: 0,
        day: date.day,
        month: date.month,
        year: date.year,
    }
}

// Whether a date word is 0 or names a calendar day.
#[tactic(auto, unfolding(crate::specs::Dates::good_date, crate::specs::Dates::names_day))]
pub fn is_good_date(word: u16) -> bool
    ensures { result ≡ good_date word }
{
    word == 0 || Day::of_word(word).is_in_calendar()
}
