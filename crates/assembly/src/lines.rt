// The lines of a text.
ghost use Rattle.std.specs.Prelude.{◌≡◌, length, drop};
ghost use Rattle.std.specs.Iterator.{YieldsFirstRef, item_count};
ghost use Rattle.assembly.specs.SourceLines.{bytes_of, first_line, is_ended, lines_of, passed_over, without_feed};

// The lines of a text, each with its line feed; what stands behind the last line feed is an unended line.
#[derive(Drop)]
pub(crate) struct Lines<'a>(pub(crate) &'a [u8]);

impl<'a> Iterator for Lines<'a> {
    type Item = &'a [u8];

    ghost next_gives = { YieldsFirstRef (λ s. lines_of s.0.now) };

    ghost remaining = { item_count (λ s. lines_of s.0.now) };

    fn next(&mut self) -> Option<&'a [u8]> {
        if self.0.is_empty() {
            return None;
        }
        let (line, rest) = self.0.split_at(first_size(self.0));
        self.0 = rest;
        Some(line)
    }
}

// How many bytes the first line has.
fn first_size(s: &[u8]) -> usize
    ensures { result ≡ length (first_line s.now) }
{
    match s.iter().position(|b| *b == b'\n') {
        Some(i) => i + 1,
        None => s.len(),
    }
}

// The line that starts at at; the empty one if the text ends there.
pub fn line_at(s: &[u8], at: usize) -> &[u8]
    ensures { result.now ≡ first_line (drop at s.now) }
{
    let rest = s.get(at..).unwrap_or(b"");
    &rest[..first_size(rest)]
}

// The place behind the first so many lines.
pub(crate) fn behind_lines(s: &[u8], count: usize) -> usize
    ensures { result ≡ bytes_of count (lines_of s.now) }
{
    Lines(s).take(count).map(|line| line.len()).sum()
}

// Whether a line has its line feed.
#[tactic(auto, unfolding(crate::specs::SourceLines::is_ended))]
pub fn is_ended(line: &[u8]) -> bool
    ensures { result ≡ is_ended line.now }
{
    line.ends_with(b"\n")
}

// A line without its line feed.
#[tactic(auto, unfolding(crate::specs::SourceLines::without_feed, crate::specs::SourceLines::is_ended))]
pub fn without_feed(line: &[u8]) -> &[u8]
    ensures { result.now ≡ without_feed line.now }
{
    line.strip_suffix(b"\n").unwrap_or(line)
}

// Whether a line is passed over.
#[tactic(auto, using(crate::proofs::SourceLines::starts_as), unfolding(crate::specs::SourceLines::passed_over))]
pub(crate) fn passed_over(line: &[u8]) -> bool
    ensures { result ≡ passed_over line.now }
{
    is_ended(line) && (line.starts_with(b"\n") || line.starts_with(b"//"))
}
