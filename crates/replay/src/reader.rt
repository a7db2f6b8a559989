// Reads the lines of a script.
use super::kinds::{FORMS, FormKind, Kind, REQUESTS, RequestKind, SETTINGS, SettingKind};
use super::lines::{
    Call, Lent, Line, MOST_DATA, MOST_HISTORY, MOST_LISTED, MOST_TAGS, Question, Setting,
};
use isa::{Form, Mode};
use tag::Tag;

// The number of so many digits behind a separator, and the text behind it. No width in the table is above 16; without the test that
// would have to be proved.
fn number(text: &[u8], separator: u8, width: usize) -> Option<(u64, &[u8])> {
    let (first, rest) = text.split_first()?;
    if *first != separator || rest.len() < width || 16 < width {
        return None;
    }
    Some((text::hex_at(rest, 0, width)?, &rest[width..]))
}

// The numbers of a line of a kind, with zeros behind them.
fn numbers(text: &[u8], kind: impl Kind) -> Option<[u64; 5]> {
    let shape = kind.shape();
    let mut rest = text.strip_prefix(shape.key)?;
    let mut values = [0; 5];
    let mut separator = b'=';
    for (place, width) in values.iter_mut().zip(shape.widths) {
        let (value, behind) = number(rest, separator, *width)?;
        *place = value;
        rest = behind;
        separator = b' ';
    }
    if rest.is_empty() { Some(values) } else { None }
}

// The kind of a line among some, and its numbers.
fn find<K: Kind + Copy>(kinds: &[K], text: &[u8]) -> Option<(K, [u64; 5])> {
    kinds
        .iter()
        .find_map(|kind| numbers(text, *kind).map(|values| (*kind, values)))
}

fn switch(v: u64) -> Option<bool> {
    match v {
        0 => Some(false),
        1 => Some(true),
        _ => None,
    }
}

fn up_to(v: u64, most: usize) -> Option<usize> {
    usize::try_from(v).ok().filter(|n| *n <= most)
}

fn setting(text: &[u8]) -> Option<Setting> {
    let (kind, [a, b, ..]) = find(&SETTINGS, text)?;
    Some(match kind {
        SettingKind::Fresh => Setting::Fresh(a),
        SettingKind::Access => Setting::Access(switch(a)?),
        SettingKind::Exclude => Setting::Exclude(u16::try_from(a).ok()?),
        SettingKind::Nzcv => Setting::Nzcv(u8::try_from(a).ok()?),
        SettingKind::Rgsr => Setting::Rgsr(u8::try_from(a).ok()?),
        SettingKind::Seed => Setting::Seed(u16::try_from(a).ok()?),
        SettingKind::Next => Setting::Next(usize::try_from(a).ok()?),
        SettingKind::Held => Setting::Held(usize::try_from(a).ok()?),
        SettingKind::Tags => Setting::Tags(up_to(a, MOST_TAGS)?),
        SettingKind::Data => Setting::Data(up_to(a, MOST_DATA)?),
        SettingKind::History => Setting::History(up_to(a, MOST_HISTORY)?),
        SettingKind::X => Setting::X(up_to(a, 31)?, b),
        SettingKind::Tag => Setting::Tag(up_to(a, MOST_TAGS - 1)?, u8::try_from(b).ok()?),
        SettingKind::Byte => Setting::Byte(up_to(a, MOST_DATA - 1)?, u8::try_from(b).ok()?),
        SettingKind::Log => Setting::Log(up_to(a, MOST_HISTORY - 1)?, b),
        SettingKind::List => Setting::List(up_to(a, MOST_LISTED - 1)?, u32::try_from(b).ok()?),
    })
}

fn lent(codes: u64, counts: u64, words: u64) -> Option<Lent> {
    Some(Lent {
        codes: usize::try_from(codes).ok()?,
        counts: usize::try_from(counts).ok()?,
        words: usize::try_from(words).ok()?,
    })
}

fn choice(start: u64, offset: u64, mask: u64) -> Option<Question> {
    Some(Question::Choose {
        start: Tag {
            value: u8::try_from(start % 16).ok()?,
        },
        offset: u8::try_from(offset).ok()?,
        mask: u16::try_from(mask).ok()?,
    })
}

fn request(text: &[u8]) -> Option<Line> {
    let (kind, [a, b, c, ..]) = find(&REQUESTS, text)?;
    Some(match kind {
        RequestKind::Word => Line::Call(Call::Word(u32::try_from(a).ok()?)),
        RequestKind::Run => Line::Call(Call::Run(up_to(a, MOST_LISTED)?)),
        RequestKind::Back => Line::Call(Call::Back),
        RequestKind::Dump => Line::Dump(switch(a)?),
        RequestKind::Play => Line::Play(switch(a)?),
        RequestKind::Lend => Line::Lend(lent(a, b, c)?),
        RequestKind::Show => Line::Ask(Question::Show),
        RequestKind::Decode => Line::Ask(Question::Decode(u32::try_from(a).ok()?)),
        RequestKind::Choose => Line::Ask(choice(a, b, c)?),
        RequestKind::Draw => Line::Ask(Question::Draw(u16::try_from(a).ok()?)),
        RequestKind::Reach => Line::Ask(Question::Reach(a)),
    })
}

// The mode of a form's line is the field of the word.
fn mode(v: u64) -> Option<Mode> {
    match v {
        1 => Some(Mode::Post),
        2 => Some(Mode::Offset),
        3 => Some(Mode::Pre),
        _ => None,
    }
}

fn form(text: &[u8]) -> Option<Form> {
    let (kind, [a, b, c, d, e]) = find(&FORMS, text)?;
    Some(match kind {
        FormKind::AddSub(op) => Form::AddSub {
            op,
            d: a,
            n: b,
            amount: c,
            offset: d,
        },
        FormKind::TwoSource(op) => Form::TwoSource {
            op,
            d: a,
            n: b,
            m: c,
        },
        FormKind::Ldg => Form::Ldg {
            t: a,
            n: b,
            amount: c,
        },
        FormKind::TagStore(op) => Form::TagStore {
            op,
            mode: mode(a)?,
            t: b,
            n: c,
            amount: d,
        },
        FormKind::Stgp => Form::Stgp {
            mode: mode(a)?,
            t: b,
            t2: c,
            n: d,
            amount: e,
        },
    })
}

// What a line says, if it is none of the wrong ones. A line's key tells its kind, so that at most one of the three is found.
pub(crate) fn read(line: &[u8]) -> Option<Line> {
    let text = line.strip_suffix(b"\n")?;
    match text {
        [] | [b'#', ..] => Some(Line::PassedOver),
        _ => setting(text)
            .map(Line::Set)
            .or_else(|| request(text))
            .or_else(|| form(text).map(Question::Encode).map(Line::Ask)),
    }
}
