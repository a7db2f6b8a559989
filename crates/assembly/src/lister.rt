// Lists a session.
ghost use Rattle.std.specs.Prelude.{◌++◌, ◌≡◌, ◌≤◌, length};
ghost use Rattle.std.proofs.lemmas.List.Edits.{sets};
ghost use Rattle.session_lines.specs.LineFormats.{lines_from};
ghost use Rattle.assembly.specs.Answers.{LendableText, answered, answer_for};
ghost use Rattle.assembly.specs.Listing.{defined_front, listed_numbers, listing_of};

use super::{Refusal, lines};

// How many words stand before the first undefined one.
fn defined_front(words: &[u32]) -> usize
    ensures { result ≡ defined_front words.now }
{
    words
        .iter()
        .position(|word| isa::decode(*word).is_none())
        .unwrap_or(words.len())
}

// Puts the nine lines and a line for each word, which are all defined, at the start of out, and answers their length.
fn put_listing(out: &mut [u8], front: &[u64; 9], words: &[u32]) -> usize
    requires in_bounds { 25748 ≤ length out.old }
    requires words_len_bound { length words.now ≤ 256 }
    requires words_value { defined_front words.now ≡ length words.now }
    ensures value { result ≡ length (lines_from 0 front.now ++ listing_of words.now) }
    ensures out_after { out.new ≡ sets out.old 0 (lines_from 0 front.now ++ listing_of words.now) }
{
    let at = session_lines::put_lines(out, front);
    let listed = listing::list_words(&mut out[at..], words);
    at + listed.next
}

// Lists the numbers of a good session.
pub(crate) fn list_numbers(
    s: &[u8],
    front: &[u64; 9],
    words: &[u32],
    out: &mut [u8; 25748],
) -> Result<usize, Refusal>
    requires words_len_bound { length words.now ≤ 256 }
    ensures lendable_text { LendableText result out.new }
    ensures out_after { let listed = listed_numbers s.now front.now words.now in
        answered result out.new ≡ answer_for listed out.old }
{
    let defined = defined_front(words);
    if defined < words.len() {
        return Err(Refusal::Undefined {
            number: 10 + defined,
            at: lines::behind_lines(s, 9 + defined),
        });
    }
    Ok(put_listing(out, front, words))
}
