//! The signs and the operators that tokens are.
ghost use Rattle.std.specs.Prelude.{◌≡◌, ◌≢◌, IfSome, None};
ghost use Rattle.pas_syntax.specs.Words.{sign_kind, multiplying_kind, adding_kind, relation_kind};

use crate::operators::{Adding, Multiplying, Relation, Sign};
use pas_tokens::Kind;

// The sign that a token is.
pub(crate) fn sign_of(kind: Kind) -> Option<Sign>
    ensures some { IfSome result (λ op. kind ≡ sign_kind op) }
    ensures none { result ≡ None → (op : Sign) → kind ≢ sign_kind op }
{
    match kind {
        Kind::Plus => Some(Sign::Plus),
        Kind::Minus => Some(Sign::Minus),
        _ => None,
    }
}

// The operator between factors that a token is.
pub(crate) fn multiplying_of(kind: Kind) -> Option<Multiplying>
    ensures some { IfSome result (λ op. kind ≡ multiplying_kind op) }
    ensures none { result ≡ None → (op : Multiplying) → kind ≢ multiplying_kind op }
{
    match kind {
        Kind::Star => Some(Multiplying::Times),
        Kind::Div => Some(Multiplying::Div),
        Kind::Mod => Some(Multiplying::Mod),
        Kind::And => Some(Multiplying::And),
        _ => None,
    }
}

// The operator between terms that a token is.
pub(crate) fn adding_of(kind: Kind) -> Option<Adding>
    ensures some { IfSome result (λ op. kind ≡ adding_kind op) }
    ensures none { result ≡ None → (op : Adding) → kind ≢ adding_kind op }
{
    match kind {
        Kind::Plus => Some(Adding::Plus),
        Kind::Minus => Some(Adding::Minus),
        Kind::Or => Some(Adding::Or),
        _ => None,
    }
}

// The operator between sums that a token is.
pub(crate) fn relation_of(kind: Kind) -> Option<Relation>
    ensures some { IfSome result (λ op. kind ≡ relation_kind op) }
    ensures none { result ≡ None → (op : Relation) → kind ≢ relation_kind op }
{
    match kind {
        Kind::Equal => Some(Relation::Equal),
        Kind::NotEqual => Some(Relation::NotEqual),
        Kind::Less => Some(Relation::Less),
        Kind::LessOrEqual => Some(Relation::LessOrEqual),
        Kind::Greater => Some(Relation::Greater),
        Kind::GreaterOrEqual => Some(Relation::GreaterOrEqual),
        _ => None,
    }
}
