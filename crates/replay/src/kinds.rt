// The kinds of lines, and what each of them looks like.
use isa::{AddSubOp, TagStoreOp, TwoSourceOp};

// What a kind of line looks like: its key, and how many digits each of its numbers has.
#[derive(Clone, Copy)]
pub(crate) struct Shape {
    pub(crate) key: &'static [u8],
    pub(crate) widths: &'static [usize],
}

// A kind of line, by which a line is found or put.
pub(crate) trait Kind {
    fn shape(self) -> Shape;
}

fn row(key: &'static [u8], widths: &'static [usize]) -> Shape {
    Shape { key, widths }
}

// What a script sets. The state is written as lines of these kinds.
#[derive(Clone, Copy)]
pub(crate) enum SettingKind {
    Fresh,
    Access,
    Exclude,
    Nzcv,
    Rgsr,
    Seed,
    Next,
    Held,
    Tags,
    Data,
    History,
    X,
    Tag,
    Byte,
    Log,
    List,
}

pub(crate) const SETTINGS: [SettingKind; 16] = [
    SettingKind::Fresh,
    SettingKind::Access,
    SettingKind::Exclude,
    SettingKind::Nzcv,
    SettingKind::Rgsr,
    SettingKind::Seed,
    SettingKind::Next,
    SettingKind::Held,
    SettingKind::Tags,
    SettingKind::Data,
    SettingKind::History,
    SettingKind::X,
    SettingKind::Tag,
    SettingKind::Byte,
    SettingKind::Log,
    SettingKind::List,
];

impl Kind for SettingKind {
    fn shape(self) -> Shape {
        match self {
            SettingKind::Fresh => row(b"fresh", &[16]),
            SettingKind::Access => row(b"access", &[1]),
            SettingKind::Exclude => row(b"exclude", &[4]),
            SettingKind::Nzcv => row(b"nzcv", &[2]),
            SettingKind::Rgsr => row(b"rgsr", &[2]),
            SettingKind::Seed => row(b"seed", &[4]),
            SettingKind::Next => row(b"next", &[16]),
            SettingKind::Held => row(b"held", &[16]),
            SettingKind::Tags => row(b"tags", &[8]),
            SettingKind::Data => row(b"data", &[8]),
            SettingKind::History => row(b"history", &[8]),
            SettingKind::X => row(b"x", &[2, 16]),
            SettingKind::Tag => row(b"tag", &[8, 2]),
            SettingKind::Byte => row(b"byte", &[8, 2]),
            SettingKind::Log => row(b"log", &[8, 16]),
            SettingKind::List => row(b"list", &[8, 8]),
        }
    }
}

// What a script asks for.
#[derive(Clone, Copy)]
pub(crate) enum RequestKind {
    Word,
    Run,
    Back,
    Dump,
    Play,
    Lend,
    Show,
    Decode,
    Choose,
    Draw,
    Reach,
}

pub(crate) const REQUESTS: [RequestKind; 11] = [
    RequestKind::Word,
    RequestKind::Run,
    RequestKind::Back,
    RequestKind::Dump,
    RequestKind::Play,
    RequestKind::Lend,
    RequestKind::Show,
    RequestKind::Decode,
    RequestKind::Choose,
    RequestKind::Draw,
    RequestKind::Reach,
];

impl Kind for RequestKind {
    fn shape(self) -> Shape {
        match self {
            RequestKind::Word => row(b"word", &[8]),
            RequestKind::Run => row(b"run", &[8]),
            RequestKind::Back => row(b"back", &[]),
            RequestKind::Dump => row(b"dump", &[1]),
            RequestKind::Play => row(b"play", &[1]),
            RequestKind::Lend => row(b"lend", &[8, 8, 8]),
            RequestKind::Show => row(b"show", &[]),
            RequestKind::Decode => row(b"decode", &[8]),
            RequestKind::Choose => row(b"choose", &[1, 1, 4]),
            RequestKind::Draw => row(b"draw", &[4]),
            RequestKind::Reach => row(b"reach", &[16]),
        }
    }
}

// The form of a form's line.
#[derive(Clone, Copy)]
pub(crate) enum FormKind {
    AddSub(AddSubOp),
    TwoSource(TwoSourceOp),
    Ldg,
    TagStore(TagStoreOp),
    Stgp,
}

pub(crate) const FORMS: [FormKind; 12] = [
    FormKind::AddSub(AddSubOp::Addg),
    FormKind::AddSub(AddSubOp::Subg),
    FormKind::TwoSource(TwoSourceOp::Subp),
    FormKind::TwoSource(TwoSourceOp::Subps),
    FormKind::TwoSource(TwoSourceOp::Irg),
    FormKind::TwoSource(TwoSourceOp::Gmi),
    FormKind::Ldg,
    FormKind::TagStore(TagStoreOp::Stg),
    FormKind::TagStore(TagStoreOp::Stzg),
    FormKind::TagStore(TagStoreOp::St2g),
    FormKind::TagStore(TagStoreOp::Stz2g),
    FormKind::Stgp,
];

impl Kind for FormKind {
    fn shape(self) -> Shape {
        match self {
            FormKind::AddSub(AddSubOp::Addg) => row(b"addg", &[16, 16, 16, 16]),
            FormKind::AddSub(AddSubOp::Subg) => row(b"subg", &[16, 16, 16, 16]),
            FormKind::TwoSource(TwoSourceOp::Subp) => row(b"subp", &[16, 16, 16]),
            FormKind::TwoSource(TwoSourceOp::Subps) => row(b"subps", &[16, 16, 16]),
            FormKind::TwoSource(TwoSourceOp::Irg) => row(b"irg", &[16, 16, 16]),
            FormKind::TwoSource(TwoSourceOp::Gmi) => row(b"gmi", &[16, 16, 16]),
            FormKind::Ldg => row(b"ldg", &[16, 16, 16]),
            FormKind::TagStore(TagStoreOp::Stg) => row(b"stg", &[1, 16, 16, 16]),
            FormKind::TagStore(TagStoreOp::Stzg) => row(b"stzg", &[1, 16, 16, 16]),
            FormKind::TagStore(TagStoreOp::St2g) => row(b"st2g", &[1, 16, 16, 16]),
            FormKind::TagStore(TagStoreOp::Stz2g) => row(b"stz2g", &[1, 16, 16, 16]),
            FormKind::Stgp => row(b"stgp", &[1, 16, 16, 16, 16]),
        }
    }
}

// What is answered beside the state and the forms.
#[derive(Clone, Copy)]
pub(crate) enum AnswerKind {
    Code,
    Ran,
    Played,
    Decoded,
    Encoded,
    Chosen,
    Drawn,
    Reached,
    Bad,
}

impl Kind for AnswerKind {
    fn shape(self) -> Shape {
        match self {
            AnswerKind::Code => row(b"code", &[1]),
            AnswerKind::Ran => row(b"ran", &[1, 8]),
            AnswerKind::Played => row(b"played", &[2, 8]),
            AnswerKind::Decoded => row(b"decoded", &[1]),
            AnswerKind::Encoded => row(b"encoded", &[1, 8]),
            AnswerKind::Chosen => row(b"chosen", &[1]),
            AnswerKind::Drawn => row(b"drawn", &[1, 4]),
            AnswerKind::Reached => row(b"reached", &[8, 8, 16]),
            AnswerKind::Bad => row(b"bad", &[8]),
        }
    }
}
