//! What single words are in texts of strategies.
ghost use Rattle.std.specs.Prelude.{◌≡◌, IfOk};
ghost use Rattle.mau_shapes.specs.Words;
ghost use Rattle.mau_shapes.specs.Machine;
ghost use Rattle.mau_shapes.specs.Shape;

use mau_terms::NoMemory;

/// What a word begins, where a strategy is wanted.
#[derive(Clone, Copy)]
pub enum Beginning {
    /// `(`
    Parenthesis,
    /// `all`
    All,
    /// `idle`, `fail`
    Form,
    /// `match`, `xmatch`, `amatch`
    Test,
    /// `top`
    Top,
    /// `not`, `try`, `test`
    Wrapper,
    /// What never begins a strategy.
    Nothing,
    /// Any other word.
    Name,
}

/// What a word is behind these.
#[derive(Clone, Copy)]
pub enum Role {
    /// `*`, `+`, `!`
    Mark,
    /// `;` and `|` and `or-else`, with the levels of their forms.
    Joint(u32),
    /// `?`
    Question,
    /// `:`
    Colon,
    /// `s.t.`
    Condition,
    /// `such`
    Such,
    /// `/\`
    Conjunction,
    /// `,`
    Comma,
    /// `<-`
    Arrow,
    /// `(`
    OpeningRound,
    /// `[`
    OpeningSquare,
    /// `{`
    OpeningCurly,
    /// `)`
    ClosingRound,
    /// `]`
    ClosingSquare,
    /// `}`
    ClosingCurly,
    /// Any other word.
    Other,
}

/// Whether a word never begins a strategy.
fn begins_nothing(word: &str) -> bool
    ensures { result ≡ Words.begins_nothing word.now }
{
    matches!(
        word,
        "matchrew" | "xmatchrew" | "amatchrew" | ";" | "|" | "?" | ":" | ")" | "]" | "}"
    )
}

/// What a word begins.
#[tactic(auto, unfolding(crate::specs::Words::beginning))]
pub fn beginning_of(word: &str) -> Beginning
    ensures { result ≡ Words.beginning word.now }
{
    match word {
        "(" => Beginning::Parenthesis,
        "all" => Beginning::All,
        "idle" | "fail" => Beginning::Form,
        "match" | "xmatch" | "amatch" => Beginning::Test,
        "top" => Beginning::Top,
        "not" | "try" | "test" => Beginning::Wrapper,
        _ => {
            if begins_nothing(word) {
                Beginning::Nothing
            } else {
                Beginning::Name
            }
        }
    }
}

/// What a word is.
#[tactic(auto, unfolding(crate::specs::Words::role))]
pub fn role_of(word: &str) -> Role
    ensures { result ≡ Words.role word.now }
{
    match word {
        "(" => Role::OpeningRound,
        ")" => Role::ClosingRound,
        "[" => Role::OpeningSquare,
        "]" => Role::ClosingSquare,
        "{" => Role::OpeningCurly,
        "}" => Role::ClosingCurly,
        "," => Role::Comma,
        ";" => Role::Joint(3),
        "|" => Role::Joint(4),
        "or-else" => Role::Joint(5),
        "?" => Role::Question,
        ":" => Role::Colon,
        "*" | "+" | "!" => Role::Mark,
        "s.t." => Role::Condition,
        "such" => Role::Such,
        "/\\" => Role::Conjunction,
        "<-" => Role::Arrow,
        _ => Role::Other,
    }
}

/// Whether a word closes a bracket.
pub fn closes(role: Role) -> bool
    ensures { result ≡ Words.closes role }
{
    matches!(
        role,
        Role::ClosingRound | Role::ClosingSquare | Role::ClosingCurly
    )
}

/// How many brackets are open behind a word, where `depth` are open before it. More than can be counted don't fit into memory.
pub fn behind(depth: usize, role: Role) -> Result<usize, NoMemory>
    ensures { IfOk result (λ d. d ≡ Words.behind depth role) }
{
    match role {
        Role::OpeningRound | Role::OpeningSquare | Role::OpeningCurly => match depth.checked_add(
            1,
        ) {
            Some(more) => Ok(more),
            None => Err(NoMemory),
        },
        Role::ClosingRound | Role::ClosingSquare | Role::ClosingCurly => Ok(depth.saturating_sub(
            1,
        )),
        _ => Ok(depth),
    }
}

/// Whether a word ends the term of a test.
fn ends_test(role: Role) -> bool
    ensures { result ≡ Words.ends_test role }
{
    matches!(
        role,
        Role::Joint(_) | Role::Question | Role::Colon | Role::Condition | Role::Such
    )
}

/// What some words are a part of.
#[derive(Clone, Copy)]
pub enum PartKind {
    /// `name(t, ..)`: t.
    Argument,
    /// `label[X <- t, ..]`: X.
    Variable,
    /// The same: t.
    Value,
    /// The term of a test.
    Pattern,
    /// A fragment of its condition.
    Fragment,
}

/// Whether a word ends a part of this kind, outside brackets.
pub fn ends(kind: PartKind, role: Role) -> bool
    ensures { result ≡ Machine.part_ends kind role }
{
    match kind {
        PartKind::Argument | PartKind::Value => matches!(role, Role::Comma),
        PartKind::Variable => matches!(role, Role::Arrow | Role::Comma),
        PartKind::Pattern => ends_test(role),
        PartKind::Fragment => matches!(role, Role::Conjunction) || ends_test(role),
    }
}

/// Whether a part of this kind may end the text.
pub fn is_last(kind: PartKind) -> bool
    ensures { result ≡ Machine.is_last kind }
{
    matches!(kind, PartKind::Pattern | PartKind::Fragment)
}

/// Whether a word ends a part of this kind, in which so many brackets are open.
pub fn stops(kind: PartKind, depth: usize, role: Role) -> bool
    ensures { result ≡ Shape.stops (Machine.part_ends kind) depth role }
{
    depth == 0 && (ends(kind, role) || closes(role))
}
