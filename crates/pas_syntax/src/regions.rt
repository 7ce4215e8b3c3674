//! What the tokens before a place tell of it.
ghost use Rattle.std.specs.Prelude.{◌≡◌, ◌<◌, ◌≤◌, suc, length, take, drop};
ghost use Rattle.wb_base.specs.declared.faults.TheConstants.{FILE_LIMIT};
ghost use Rattle.pas_tokens.specs.declared.kinds.Kind.{Kind};
ghost use Rattle.pas_tokens.specs.declared.kinds.Kind.TheVariants as k;
ghost use Rattle.pas_tokens.specs.inner.CodeCuts.{token_by, payload_by};
ghost use Rattle.pas_syntax.specs.Regions.{stage_behind, records_behind, part_at_stage, local_part, spells_forward};
ghost use Rattle.pas_syntax.specs.Regions.{part_behind};
ghost use Rattle.pas_syntax.specs.inner.Prog.{head};
ghost use Rattle.pas_syntax.specs.inner.RegionViews.{stage_in, part_in};

use pas_tokens::{Cursor, Kind, Payload, Token};
use wb_base::faults::{LOCAL_CONSTANTS_AND_TYPES, NESTED_ROUTINES, VARIANT_RECORDS};

// The name that has a meaning of its own behind a heading.
const FORWARD: &[u8] = b"forward";

// Where a place stands to the routines.
#[derive(Clone, Copy)]
pub(crate) enum Stage {
    // In none, or behind the `begin` of one.
    Outside,
    // In a heading.
    InHeading,
    // In the parameters of a heading.
    InParameters,
    // Directly behind the semicolon of a heading.
    BehindHeading,
    // Further in the declarations of a routine.
    InDeclarations,
}

impl Stage {
    // Behind one token more.
    fn behind(self, token: Token<'_>) -> Stage
        ensures { stage_in result ≡ stage_behind (stage_in self) (token_by token.entry).payload
            (token_by token.entry).kind }
    {
        match (self, token.kind) {
            (Stage::Outside, Kind::Procedure | Kind::Function) => Stage::InHeading,
            (Stage::Outside, _) => Stage::Outside,
            (Stage::InHeading, Kind::LeftParenthesis) => Stage::InParameters,
            (Stage::InHeading, Kind::Semicolon) => Stage::BehindHeading,
            (Stage::InHeading, _) => Stage::InHeading,
            (Stage::InParameters, Kind::RightParenthesis) => Stage::InHeading,
            (Stage::InParameters, _) => Stage::InParameters,
            (Stage::BehindHeading | Stage::InDeclarations, Kind::Begin) => Stage::Outside,
            (Stage::BehindHeading, Kind::Name) if spells_forward(token.payload) => Stage::Outside,
            (Stage::BehindHeading | Stage::InDeclarations, _) => Stage::InDeclarations,
        }
    }

    // The part of Pascal that a token of this kind shows here, if it may not stand here.
    fn part(self, kind: Kind) -> Option<u8>
        ensures { result ≡ part_at_stage (stage_in self) kind }
    {
        match self {
            Stage::BehindHeading | Stage::InDeclarations => local_part(kind),
            _ => None,
        }
    }
}

// Whether a name is `forward`.
fn spells_forward(payload: Payload<'_>) -> bool
    ensures { (kind : Kind) → k.Name ≡ kind → result ≡ spells_forward (payload_by kind payload.exit) }
{
    match payload {
        Payload::Spelling(bytes) => bytes.eq_ignore_ascii_case(FORWARD),
        _ => false,
    }
}

// The part of Pascal that a token of this kind shows in the declarations of a routine.
fn local_part(kind: Kind) -> Option<u8>
    ensures { result ≡ local_part kind }
{
    match kind {
        Kind::Procedure | Kind::Function => Some(NESTED_ROUTINES),
        Kind::Const | Kind::Type => Some(LOCAL_CONSTANTS_AND_TYPES),
        _ => None,
    }
}

// What the tokens before a place tell of it: how many record types are open, and where it stands to the routines.
#[derive(Clone, Copy)]
pub(crate) struct Region {
    records: usize,
    stage: Stage,
}

impl Region {
    // Before the first token.
    const FIRST: Region = Region {
        records: 0,
        stage: Stage::Outside,
    };

    // Behind one token more.
    fn behind(self, token: Token<'_>) -> Region
        requires { self.records ≤ FILE_LIMIT }
        ensures records { result.records ≡ records_behind self.records (token_by token.entry).kind }
        ensures stage { stage_in result.stage ≡ stage_behind (stage_in self.stage) (token_by token.entry).payload
            (token_by token.entry).kind }
    {
        Region {
            records: match token.kind {
                Kind::Record => self.records + 1,
                Kind::End => self.records.saturating_sub(1),
                _ => self.records,
            },
            stage: self.stage.behind(token),
        }
    }

    // The part of Pascal that a token of this kind shows here, if it may not stand here.
    fn part(self, kind: Kind) -> Option<u8>
        ensures { result ≡ part_in self.records (stage_in self.stage) kind }
    {
        match kind {
            Kind::Case if self.records > 0 => Some(VARIANT_RECORDS),
            Kind::Case => None,
            _ => self.stage.part(kind),
        }
    }
}

// The part of Pascal that the token behind so many shows, if it may not stand there.
pub(crate) fn part_behind(mut cursor: Cursor<'_>, taken: usize) -> Option<u8>
    requires within { taken < length cursor }
    requires few { length cursor ≤ suc FILE_LIMIT }
    ensures { result ≡ part_behind (take taken cursor.entry) (head (drop taken cursor.entry)).kind }
{
    let mut region = Region::FIRST;
    for _ in 0..taken {
        region = region.behind(cursor.peek());
        cursor.advance();
    }
    region.part(cursor.peek().kind)
}
