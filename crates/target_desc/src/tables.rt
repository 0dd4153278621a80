//! The words that have a meaning of their own.

ghost use Rattle.std.specs.Prelude.{◌≡◌, map};
ghost use Rattle.target_base.specs.Storage.{same_numbers};
ghost use Rattle.target_desc.specs.Words.{meaning_in, row_of, form_words, version_words, text_form_words, effect_words, plain_role_words, named_role_words};

use crate::raw::{LineForm, NamedRole, TextForm};
use crate::text::are_same;
use target_base::{Effect, OpaqueKind, Role};

static FORMS: [(&str, LineForm); 10] = [
    ("target", LineForm::Target),
    ("unit", LineForm::Unit),
    ("reg", LineForm::Reg),
    ("reserved", LineForm::Reserved),
    ("index", LineForm::Index),
    ("class", LineForm::Class),
    ("mask", LineForm::Mask),
    ("op", LineForm::Opcode),
    ("form", LineForm::Forms),
    ("flags", LineForm::Flags),
];

static VERSIONS: [(&str, u8); 2] = [("1", 1), ("2", 2)];

static TEXT_FORMS: [(&str, TextForm); 4] = [
    ("offset", TextForm::Offset),
    ("pool", TextForm::Pool),
    ("noreg", TextForm::Noreg),
    ("open", TextForm::Open),
];

static EFFECTS: [(&str, Effect); 41] = [
    ("const", Effect::Const),
    ("addr", Effect::Addr),
    ("add", Effect::Add),
    ("sub", Effect::Sub),
    ("mul", Effect::Mul),
    ("and", Effect::And),
    ("or", Effect::Or),
    ("xor", Effect::Xor),
    ("shl", Effect::Shl),
    ("shr", Effect::Shr),
    ("sar", Effect::Sar),
    ("neg", Effect::Neg),
    ("not", Effect::Not),
    ("udiv", Effect::Udiv),
    ("urem", Effect::Urem),
    ("madd", Effect::Madd),
    ("zext", Effect::Zext),
    ("sext", Effect::Sext),
    ("cmp", Effect::Cmp),
    ("load/1", Effect::Load(1)),
    ("load/2", Effect::Load(2)),
    ("load/4", Effect::Load(4)),
    ("load/8", Effect::Load(8)),
    ("load/16", Effect::Load(16)),
    ("store/1", Effect::Store(1)),
    ("store/2", Effect::Store(2)),
    ("store/4", Effect::Store(4)),
    ("store/8", Effect::Store(8)),
    ("store/16", Effect::Store(16)),
    ("jump", Effect::Jump),
    ("jcc", Effect::Jcc),
    ("jnz", Effect::Jnz),
    ("call", Effect::Call),
    ("ret", Effect::Ret),
    ("marker", Effect::Marker),
    ("spill", Effect::Spill),
    ("reload", Effect::Reload),
    ("opaque", Effect::Opaque(OpaqueKind::Plain)),
    ("opaque/branch", Effect::Opaque(OpaqueKind::Branch)),
    ("opaque/call", Effect::Opaque(OpaqueKind::Call)),
    ("opaque/ret", Effect::Opaque(OpaqueKind::Return)),
];

static PLAIN_ROLES: [(&str, Role); 10] = [
    ("imm", Role::Imm),
    ("target", Role::Target),
    ("slot", Role::Slot),
    ("lanes", Role::Lanes),
    ("sym", Role::Sym),
    ("frame", Role::Frame),
    ("mask", Role::Mask),
    ("val", Role::Value(None)),
    ("any", Role::Any),
    ("rest", Role::Rest),
];

static NAMED_ROLES: [(&str, NamedRole); 8] = [
    ("def", NamedRole::Def),
    ("early", NamedRole::Early),
    ("use", NamedRole::Read),
    ("tied", NamedRole::Tied),
    ("addr", NamedRole::Address),
    ("val", NamedRole::Value),
    ("impdef", NamedRole::ImpDef),
    ("impuse", NamedRole::ImpRead),
];

/// What a word of a table means.
fn meaning_in<T: Copy>(table: &[(&str, T)], word: &[u8]) -> Option<T>
    ensures { result ≡ meaning_in (map row_of table.now) word.now }
{
    for row in table {
        if are_same(word, row.0.as_bytes()) {
            return Some(row.1);
        }
    }
    None
}

/// What the first word of a line says that the line is.
pub(crate) fn form_of(word: &[u8]) -> Option<LineForm>
    ensures { result ≡ meaning_in form_words word.now }
{
    meaning_in(&FORMS, word)
}

/// The version that a word names.
pub(crate) fn version_of(word: &[u8]) -> Option<u8>
    ensures { result ≡ meaning_in version_words word.now }
{
    meaning_in(&VERSIONS, word)
}

/// The form of text that a word opts in.
pub(crate) fn text_form_of(word: &[u8]) -> Option<TextForm>
    ensures { result ≡ meaning_in text_form_words word.now }
{
    meaning_in(&TEXT_FORMS, word)
}

/// The effect of a word.
pub(crate) fn effect_of(word: &[u8]) -> Option<Effect>
    ensures { result ≡ meaning_in effect_words word.now }
{
    meaning_in(&EFFECTS, word)
}

/// The role that is one word.
pub(crate) fn plain_role_of(word: &[u8]) -> Option<Role>
    ensures { result ≡ meaning_in plain_role_words word.now }
{
    meaning_in(&PLAIN_ROLES, word)
}

/// What a role asks that has this word before its colon.
pub(crate) fn named_role_of(word: &[u8]) -> Option<NamedRole>
    ensures { result ≡ meaning_in named_role_words word.now }
{
    meaning_in(&NAMED_ROLES, word)
}
