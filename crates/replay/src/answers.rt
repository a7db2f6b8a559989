// What is written of the state and of calls, and the answers to what is asked.
use super::kinds::{AnswerKind, FormKind, SettingKind};
use super::lines::Question;
use super::player::Player;
use super::writer::Writer;
use isa::{Form, Mode};
use machine::Code;
use simulator::PlayError;

// The lines that every state has.
fn front(player: &Player<'_>) -> [(SettingKind, u64); 11] {
    let settings = player.machine.settings;
    let status = player.machine.registers.status;
    let cursor = player.machine.cursor;
    [
        (SettingKind::Fresh, settings.base),
        (SettingKind::Access, u64::from(settings.access)),
        (SettingKind::Exclude, u64::from(settings.exclude)),
        (SettingKind::Nzcv, u64::from(status.nzcv)),
        (SettingKind::Rgsr, u64::from(status.rgsr)),
        (SettingKind::Seed, u64::from(status.seed)),
        (SettingKind::Next, cursor.next as u64),
        (SettingKind::Held, cursor.held as u64),
        (SettingKind::Tags, player.tags.count() as u64),
        (SettingKind::Data, player.data.count() as u64),
        (SettingKind::History, player.history.count() as u64),
    ]
}

// How many items are looked at together. Mostly they are all zero.
const ROW: usize = 64;

// Puts a line of a kind for each item of a row that is not zero. Rows are numbered from 0.
fn put_row<T: Copy>(writer: &mut Writer<'_>, kind: SettingKind, row: usize, items: &[T])
where
    u64: From<T>,
{
    for (index, item) in items.iter().enumerate() {
        let value = u64::from(*item);
        if value != 0 {
            let first = (row as u64).wrapping_mul(ROW as u64);
            writer.put(kind, &[first.wrapping_add(index as u64), value]);
        }
    }
}

// Puts a line of a kind for each item that is not zero.
fn put_items<T: Copy>(writer: &mut Writer<'_>, kind: SettingKind, items: &[T])
where
    u64: From<T>,
{
    for (row, part) in items.chunks(ROW).enumerate() {
        let any = part.iter().fold(0, |any, item| any | u64::from(*item));
        if any != 0 {
            put_row(writer, kind, row, part);
        }
    }
}

pub(crate) fn put_state(writer: &mut Writer<'_>, player: &Player<'_>) {
    for (kind, number) in front(player) {
        writer.put(kind, &[number]);
    }
    put_items(writer, SettingKind::X, &player.machine.registers.x);
    put_items(writer, SettingKind::Tag, player.tags.used());
    put_items(writer, SettingKind::Byte, player.data.used());
    put_items(writer, SettingKind::Log, player.history.used());
}

// Puts the code of a step, run or step back, and for a run how many words were done.
pub(crate) fn put_code(writer: &mut Writer<'_>, code: Code, count: Option<usize>) {
    let code = u64::from(u32::from(code));
    match count {
        Some(count) => writer.put(AnswerKind::Ran, &[code, count as u64]),
        None => writer.put(AnswerKind::Code, &[code]),
    }
}

// Puts the code of a list of calls, and how many were played. A refused list has played none.
pub(crate) fn put_played(writer: &mut Writer<'_>, played: Result<usize, PlayError>) {
    let code = u64::from(simulator::play_code(played));
    writer.put(AnswerKind::Played, &[code, played.unwrap_or(0) as u64]);
}

// The mode of a form's line is the field of the word.
fn mode_number(mode: Mode) -> u64 {
    match mode {
        Mode::Post => 1,
        Mode::Offset => 2,
        Mode::Pre => 3,
    }
}

fn put_form(writer: &mut Writer<'_>, form: Form) {
    match form {
        Form::AddSub {
            op,
            d,
            n,
            amount,
            offset,
        } => writer.put(FormKind::AddSub(op), &[d, n, amount, offset]),
        Form::TwoSource { op, d, n, m } => writer.put(FormKind::TwoSource(op), &[d, n, m]),
        Form::Ldg { t, n, amount } => writer.put(FormKind::Ldg, &[t, n, amount]),
        Form::TagStore {
            op,
            mode,
            t,
            n,
            amount,
        } => writer.put(FormKind::TagStore(op), &[mode_number(mode), t, n, amount]),
        Form::Stgp {
            mode,
            t,
            t2,
            n,
            amount,
        } => writer.put(FormKind::Stgp, &[mode_number(mode), t, t2, n, amount]),
    }
}

fn put_decoded(writer: &mut Writer<'_>, word: u32) {
    writer.put(AnswerKind::Decoded, &[u64::from(isa::word_code(word))]);
    if let Some(form) = isa::decode(word) {
        put_form(writer, form);
    }
}

fn put_encoded(writer: &mut Writer<'_>, form: Form) {
    let code = u64::from(isa::form_code(form));
    let word = u64::from(isa::form_word(form));
    writer.put(AnswerKind::Encoded, &[code, word]);
}

// Puts where the part that a pointer reaches starts in the data, its length and its checksum. An empty part starts at 0.
fn put_reached(writer: &mut Writer<'_>, player: &Player<'_>, pointer: u64) {
    let base = player.machine.settings.base;
    let part = reach::reachable(pointer, base, player.data.used(), player.tags.used());
    let start = if part.is_empty() {
        0
    } else {
        (pointer % 0x100_0000_0000_0000).wrapping_sub(base)
    };
    let sum = checksum::with_numbers(0, part);
    writer.put(AnswerKind::Reached, &[start, part.len() as u64, sum]);
}

pub(crate) fn put_answer(writer: &mut Writer<'_>, player: &Player<'_>, question: Question) {
    match question {
        Question::Show => put_state(writer, player),
        Question::Decode(word) => put_decoded(writer, word),
        Question::Encode(form) => put_encoded(writer, form),
        Question::Choose {
            start,
            offset,
            mask,
        } => {
            let chosen = tag::choose(start, offset, mask);
            writer.put(AnswerKind::Chosen, &[u64::from(chosen.value)]);
        },
        Question::Draw(seed) => {
            let drawn = tag::draw(seed);
            writer.put(
                AnswerKind::Drawn,
                &[u64::from(drawn.bits), u64::from(drawn.seed)],
            );
        },
        Question::Reach(pointer) => put_reached(writer, player, pointer),
    }
}
