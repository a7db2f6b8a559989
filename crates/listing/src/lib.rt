// Listings: the words of a program as lines of A64 text, written one after the other and read back.
#![tactic(auto)]

ghost use Rattle.std.specs.Prelude.{◌≡◌, Ok};
ghost use Rattle.listing.specs.Codes.{list_code, list_error_code, read_error_code};
ghost use Rattle.listing.specs.Inside.Method.{read_form};
ghost use Rattle.listing.specs.Lines.{line_of};
ghost use Rattle.listing.specs.Reading.{read_of};
ghost use Rattle.listing.specs.Writing.{written, left, so_far, put_at, listed_at, listed_words};

use isa::Form;

mod lines;

// Why a word is not listed.
#[derive(Clone, Copy, Debug, PartialEq, Eq)]
pub enum ListError {
    Undefined,
    NoRoom,
}

impl From<ListError> for u32 {
    ghost from_gives = { λ why code. code ≡ list_error_code why };

    // The code: 2 UNDEFINED, 10 NOROOM.
    fn from(why: ListError) -> u32 {
        match why {
            ListError::Undefined => 2,
            ListError::NoRoom => 10,
        }
    }
}

// Why a text is not read.
#[derive(Clone, Copy, Debug, PartialEq, Eq)]
pub enum ReadError {
    BadLine,
}

impl From<ReadError> for u32 {
    ghost from_gives = { λ why code. code ≡ read_error_code why };

    // The code: 11 BADLINE.
    fn from(why: ReadError) -> u32 {
        match why {
            ReadError::BadLine => 11,
        }
    }
}

// Puts a line at at, if it fits in the room left there, and answers the place behind it.
#[tactic(auto, using(std::proofs::lemmas::Bool::Decides::nat_tests), unfolding(crate::specs::Writing::put_at, text::specs::Lines::room_for))]
fn put_at(out: &mut [u8], at: usize, line: &[u8]) -> Result<usize, ListError>
    ensures { left out.new at result ≡ put_at out.old at line.now }
{
    if text::put_if_room(out, at, line) {
        Ok(at + line.len())
    } else {
        Err(ListError::NoRoom)
    }
}

// Puts the line of a word at at, and answers the place of the next line. A refusal writes nothing.
#[tactic(auto, unfolding(crate::specs::Writing::listed_at))]
pub fn list_at(out: &mut [u8], at: usize, word: u32) -> Result<usize, ListError>
    ensures { left out.new at result ≡ listed_at out.old at word }
{
    match isa::decode(word) {
        Some(form) => put_at(out, at, lines::line_of(form, &mut [0; 504])),
        None => Err(ListError::Undefined),
    }
}

// The listing writer: the text that it fills, the place of the next line, and what the last call came to.
#[derive(Drop)]
pub struct Listing<'a> {
    pub out: &'a mut [u8],
    pub at: usize,
    pub last: Result<(), ListError>,
}

impl<'a> Listing<'a> {
    // The borrow goes into the listing, at its start.
    pub fn new(out: &'a mut [u8]) -> Listing<'a>
        ensures { (result.out ≡ out.entry) × (result.at ≡ 0) × (result.last ≡ Ok tt) }
    {
        Listing {
            out,
            at: 0,
            last: Ok(()),
        }
    }

    // Puts the word's line at the listing's place, which is then the place behind it. A refusal writes nothing and keeps the place.
    pub fn list(&mut self, word: u32)
        ensures same_borrow { self.new.out.ghost_name ≡ self.old.out.ghost_name }
        ensures same_place { self.new.out.ref_ptr ≡ self.old.out.ref_ptr }
        ensures listed { so_far self.new ≡ listed_at self.old.out.now self.old.at word }
    {
        let listed = list_at(self.out, self.at, word);
        self.at = listed.unwrap_or(self.at);
        self.last = listed.map(|_| ());
    }

    // Where the next line goes.
    pub fn place(&self) -> usize
        ensures { result ≡ self.now.at }
    {
        self.at
    }

    // The code of the last call.
    pub fn code(&self) -> u32
        ensures { result ≡ list_code self.now.last }
    {
        match self.last {
            Ok(()) => 0,
            Err(why) => u32::from(why),
        }
    }
}

// What a row of calls came to: where the next line goes, and how the last one ended.
#[derive(Clone, Copy, Debug, PartialEq, Eq)]
pub struct Listed {
    pub next: usize,
    pub last: Result<(), ListError>,
}

// The lines of all words, by calls in a row on one listing.
pub fn list_words(out: &mut [u8], words: &[u32]) -> Listed
    ensures { written out.new result.next (list_code result.last) ≡ listed_words (written out.old 0 0) words.now }
{
    let mut listing = Listing::new(out);
    for &word in words {
        listing.list(word);
    }
    Listed {
        next: listing.at,
        last: listing.last,
    }
}

// The word of a form, if its line is the text.
#[tactic(auto, using(crate::proofs::ByMethod::same_by), unfolding(crate::specs::Inside::Method::read_form))]
fn read_form(text: &[u8], form: Form) -> Result<u32, ReadError>
    ensures { result ≡ read_form text.now form }
{
    if lines::line_of(form, &mut [0; 504]) != text {
        return Err(ReadError::BadLine);
    }
    isa::encode(form).ok_or(ReadError::BadLine)
}

// The word whose line a text is, line feed and all. The fields are read loosely, and the line is then written anew and compared; no line
// is longer than 100 bytes, so that a long text is refused at once.
#[tactic(auto, using(crate::proofs::ByMethod::by_method), unfolding(crate::specs::Inside::Method::read_by_method))]
pub fn read_line(text: &[u8]) -> Result<u32, ReadError>
    ensures { result ≡ read_of text.now }
{
    if text.len() > 100 {
        return Err(ReadError::BadLine);
    }
    let read = templates::reader::first_row(text).ok_or(ReadError::BadLine)?;
    read_form(text, lines::form_at(read.row, read.fields))
}
