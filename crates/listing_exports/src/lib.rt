// The writer and the reader of a line as functions on plain numbers, for the comparison with the independent second program.
#![tactic(auto)]

ghost use Rattle.std.specs.Prelude.{◌≡◌};
ghost use Rattle.listing.specs.Codes.{read_code, read_word};
ghost use Rattle.listing.specs.Reading.{read_of};
ghost use Rattle.listing.specs.Writing.{written, listed_at};

// Puts the line of a word at at, leaves the place of the next line in next, and answers the code.
#[unsafe(no_mangle)]
pub extern "C" fn mte_list_word(out: &mut [u8], at: usize, word: u32, next: &mut u64) -> u32
    ensures { written out.new next.new result ≡ listed_at out.old at word }
{
    let listed = listing::list_at(out, at, word);
    *next = listed.unwrap_or(at) as u64;
    match listed {
        Ok(_) => 0,
        Err(why) => u32::from(why),
    }
}

// Leaves the word that a text is read to in word, 0 with BADLINE, and answers the code.
#[unsafe(no_mangle)]
pub extern "C" fn mte_read_line(text: &[u8], word: &mut u32) -> u32
    ensures { (result ≡ read_code (read_of text.now)) × (word.new ≡ read_word (read_of text.now)) }
{
    let read = listing::read_line(text);
    *word = read.unwrap_or(0);
    match read {
        Ok(_) => 0,
        Err(why) => u32::from(why),
    }
}
