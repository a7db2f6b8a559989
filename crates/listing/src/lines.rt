// The line of a form: the row of its template, and its fields; and back.
ghost use Rattle.std.specs.Prelude.{◌≡◌};
ghost use Rattle.listing.specs.Inside.Method.{add_sub_at, two_source_at, tag_store_at, mode_at, form_at};
ghost use Rattle.listing.specs.Lines.{add_sub_row, two_source_row, shown_row, tag_store_row, mode_row, row_of, fields_of, line_of};

use isa::{AddSubOp, Form, Mode, TagStoreOp, TwoSourceOp};
use templates::Fields;

// The rows are the templates' and the operations isa's, so that a conversion between them is a function here, and no `From`.

fn add_sub_row(op: AddSubOp) -> usize
    ensures { result ≡ add_sub_row op }
{
    match op {
        AddSubOp::Addg => 0,
        AddSubOp::Subg => 1,
    }
}

fn two_source_row(op: TwoSourceOp) -> usize
    ensures { result ≡ two_source_row op }
{
    match op {
        TwoSourceOp::Subp => 2,
        TwoSourceOp::Subps => 3,
        TwoSourceOp::Irg => 4,
        TwoSourceOp::Gmi => 5,
    }
}

fn tag_store_row(op: TagStoreOp) -> usize
    ensures { result ≡ tag_store_row op }
{
    match op {
        TagStoreOp::Stg => 8,
        TagStoreOp::Stzg => 12,
        TagStoreOp::St2g => 16,
        TagStoreOp::Stz2g => 20,
    }
}

// A zero amount is left out.
fn shown_row(amount: u64) -> usize
    ensures { result ≡ shown_row amount }
{
    usize::from(amount != 0)
}

fn mode_row(mode: Mode, amount: u64) -> usize
    ensures { result ≡ mode_row mode amount }
{
    match mode {
        Mode::Post => 0,
        Mode::Pre => 1,
        Mode::Offset => 2 + shown_row(amount),
    }
}

// The row of a form's template.
fn row_of(form: Form) -> usize
    ensures { result ≡ row_of form }
{
    match form {
        Form::AddSub { op, .. } => add_sub_row(op),
        Form::TwoSource { op, .. } => two_source_row(op),
        Form::Ldg { amount, .. } => 6 + shown_row(amount),
        Form::TagStore {
            op,
            mode,
            amount,
            ..
        } => tag_store_row(op) + mode_row(mode, amount),
        Form::Stgp { mode, amount, .. } => 24 + mode_row(mode, amount),
    }
}

// The fields of a form's line.
fn fields_of(form: Form) -> Fields
    ensures { result ≡ fields_of form }
{
    let none = Fields::default();
    match form {
        Form::AddSub {
            d,
            n,
            amount,
            offset,
            ..
        } => Fields {
            first: d,
            second: n,
            amount,
            offset,
            ..none
        },
        Form::TwoSource { d, n, m, .. } => Fields {
            first: d,
            second: n,
            third: m,
            ..none
        },
        Form::Ldg { t, n, amount } | Form::TagStore { t, n, amount, .. } => Fields {
            first: t,
            second: n,
            amount,
            ..none
        },
        Form::Stgp {
            t,
            t2,
            n,
            amount,
            ..
        } => Fields {
            first: t,
            second: t2,
            third: n,
            amount,
            ..none
        },
    }
}

// The line of a form, made in a room that holds any.
pub(crate) fn line_of(form: Form, room: &mut [u8; 504]) -> &[u8]
    ensures { result.now ≡ line_of form }
{
    let n = templates::put_line(room, row_of(form), fields_of(form));
    &room[..n]
}

// The form of a row, with the fields that were read.

fn add_sub_at(row: usize) -> AddSubOp
    ensures { result ≡ add_sub_at row }
{
    match row {
        0 => AddSubOp::Addg,
        _ => AddSubOp::Subg,
    }
}

fn two_source_at(row: usize) -> TwoSourceOp
    ensures { result ≡ two_source_at row }
{
    match row {
        2 => TwoSourceOp::Subp,
        3 => TwoSourceOp::Subps,
        4 => TwoSourceOp::Irg,
        _ => TwoSourceOp::Gmi,
    }
}

fn tag_store_at(row: usize) -> TagStoreOp
    ensures { result ≡ tag_store_at row }
{
    match row {
        ..=11 => TagStoreOp::Stg,
        12..=15 => TagStoreOp::Stzg,
        16..=19 => TagStoreOp::St2g,
        _ => TagStoreOp::Stz2g,
    }
}

fn mode_at(row: usize) -> Mode
    ensures { result ≡ mode_at row }
{
    match row % 4 {
        0 => Mode::Post,
        1 => Mode::Pre,
        _ => Mode::Offset,
    }
}

#[tactic(auto, unfolding(crate::specs::Inside::Method::form_at))]
pub(crate) fn form_at(row: usize, fields: Fields) -> Form
    ensures { result ≡ form_at row fields }
{
    let Fields {
        first,
        second,
        third,
        amount,
        offset,
    } = fields;
    match row {
        0..=1 => Form::AddSub {
            op: add_sub_at(row),
            d: first,
            n: second,
            amount,
            offset,
        },
        2..=5 => Form::TwoSource {
            op: two_source_at(row),
            d: first,
            n: second,
            m: third,
        },
        6..=7 => Form::Ldg {
            t: first,
            n: second,
            amount,
        },
        8..=23 => Form::TagStore {
            op: tag_store_at(row),
            mode: mode_at(row),
            t: first,
            n: second,
            amount,
        },
        _ => Form::Stgp {
            mode: mode_at(row),
            t: first,
            t2: second,
            n: third,
            amount,
        },
    }
}
