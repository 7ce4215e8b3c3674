//! The pieces of items, and of what is held of a run.
ghost use Rattle.std.specs.Prelude.{◌≡◌, ◌+◌, ◌≤◌, ◌<◌, ◌++◌, [], ◌∷◌, map, length, None, Some};
ghost use Rattle.tangle_out.specs.inner.CodePieces.{AllShort};
ghost use Rattle.tangle_out.specs.Folder.{IsShort};
ghost use Rattle.tangle_out.specs.Packer.{longest_text};
ghost use Rattle.macro_expand.specs.Items.{item_of};
ghost use Rattle.tangle_out.specs.Pieces.{piece_of};
ghost use Rattle.tangle_out.specs.Folding.{item_piece, fault_of_item, sum_piece, alone_piece, sign_pieces};
ghost use Rattle.tangle_out.specs.Folding.{glued_first, loose};
ghost use Rattle.macro_expand.specs.Foldable.{IsConstant, IsFoldable};
ghost use Rattle.tangle_out.specs.inner.Table.{IsSmall, pieces_of_held, joined_after, goes_with, fault_of_follower};

use crate::folding::{Held, Lead, Sign};
use crate::packing::WIDTH;
use crate::pieces::{OutPiece, PieceKind, PieceText};
use crate::texts::{
    Short, alone_text, begin_text, byte_text, closing, end_text, joined_text, kind_by_end, opening,
    sign_byte, sum_text,
};
use arrayvec::ArrayVec;
use macro_expand::Item;
use wb_base::faults::{STRAY_END_OF_METACOMMENT, STRING_TOO_LONG};

// What comes after a run that ends.
#[derive(Clone, Copy)]
pub(crate) enum Follower {
    // A product sign or word, or a join: the last of several terms goes with it.
    Product,
    Other,
}

// The pieces that a call gives, and whether the next one is the first after a join.
#[derive(Drop)]
pub(crate) struct Given<'w> {
    pub(crate) pieces: ArrayVec<OutPiece<'w>, 4>,
    pub(crate) joined: bool,
}

impl<'w> Given<'w> {
    // No pieces yet.
    pub(crate) fn new(joined: bool) -> Self
        ensures pieces { result.pieces.items ≡ [] }
        ensures joined { result.joined ≡ joined }
    {
        Given {
            pieces: ArrayVec::new(),
            joined,
        }
    }

    // Gives one more piece, glued if it is the first after a join.
    pub(crate) fn put(&mut self, piece: OutPiece<'w>)
        requires room { length self.old.pieces.items < 4 }
        requires short { IsShort (piece_of piece) }
        ensures pieces { map piece_of self.new.pieces.items
            ≡ map piece_of self.old.pieces.items ++ glued_first self.old.joined (piece_of piece.entry ∷ []) }
        ensures len { length self.new.pieces.items ≡ length self.old.pieces.items + 1 }
        ensures joined { self.new.joined ≡ joined_after (piece_of piece.entry ∷ []) self.old.joined }
        ensures short { AllShort self.old.pieces → AllShort self.new.pieces }
    {
        self.pieces.push(glued(self.joined, piece));
        self.joined = false;
    }
}

// A piece, glued if it is the first after a join.
#[inline(always)]
pub(crate) fn glued<'w>(after_join: bool, piece: OutPiece<'w>) -> OutPiece<'w>
    requires short { IsShort (piece_of piece) }
    ensures value { piece_of result ∷ [] ≡ glued_first after_join (piece_of piece.entry ∷ []) }
    ensures short { IsShort (piece_of result) }
{
    OutPiece {
        glued: after_join || piece.glued,
        text: piece.text,
        kind: piece.kind,
    }
}

// A piece of made bytes.
#[inline(always)]
fn short<'w>(kind: PieceKind, text: Short) -> OutPiece<'w>
    requires { length text.items ≤ 16 }
    ensures value { piece_of result ≡ loose kind text.items }
    ensures short { IsShort (piece_of result) }
{
    OutPiece {
        text: PieceText::Short(text),
        kind,
        glued: false,
    }
}

// A piece of the web's bytes.
#[inline(always)]
fn slice(kind: PieceKind, text: &[u8]) -> OutPiece<'_>
    requires { length text.now ≤ longest_text WIDTH kind }
    ensures value { piece_of result ≡ loose kind text.now }
    ensures short { IsShort (piece_of result) }
{
    OutPiece {
        text: PieceText::Slice(text),
        kind,
        glued: false,
    }
}

// The piece of a sum.
fn sum_piece<'w>(lead: Lead, value: i64) -> OutPiece<'w>
    requires { IsConstant value }
    ensures value { piece_of result ≡ sum_piece lead value }
    ensures short { IsShort (piece_of result) }
{
    short(PieceKind::Number, sum_text(lead, value))
}

// The piece of signs.
fn sign_piece<'w>(sign: Sign) -> OutPiece<'w>
    ensures value { piece_of result ∷ [] ≡ sign_pieces (Some sign) }
    ensures short { IsShort (piece_of result) }
{
    short(PieceKind::Other, byte_text(sign_byte(sign)))
}

// The piece of a number that stands alone.
pub(crate) fn alone_piece<'w>(value: i64) -> OutPiece<'w>
    requires { IsConstant value }
    ensures value { piece_of result ≡ alone_piece value }
    ensures short { IsShort (piece_of result) }
{
    let kind = if value < 0 {
        PieceKind::Other
    } else {
        PieceKind::Number
    };
    short(kind, alone_text(value))
}

// The piece of a product sign or word or of another item, inside this many metacomments.
#[inline(always)]
pub(crate) fn item_piece(depth: u32, item: Item<'_>) -> OutPiece<'_>
    requires word { IsFoldable (item_of item) }
    requires fine { fault_of_item depth (item_of item) ≡ None }
    ensures value { piece_of result ≡ item_piece depth (item_of item.entry) }
    ensures short { IsShort (piece_of result) }
{
    match item {
        Item::Word(bytes) => slice(PieceKind::Word, bytes),
        Item::Sign(byte) => short(kind_by_end(byte), byte_text(byte)),
        Item::Joined(sign) => slice(PieceKind::Other, joined_text(sign)),
        Item::Quoted(bytes) | Item::Verbatim(bytes) => slice(PieceKind::Other, bytes),
        Item::MetaOpen => short(PieceKind::Other, byte_text(opening(depth))),
        Item::MetaClose => {
            let brace = closing(depth.saturating_sub(1));
            short(kind_by_end(brace), byte_text(brace))
        }
        Item::Open(section) => short(kind_by_end(closing(depth)), begin_text(depth, section)),
        Item::Close(section) => short(kind_by_end(closing(depth)), end_text(depth, section)),
        Item::Digit(_) | Item::Number(_) | Item::Join | Item::Line => {
            short(PieceKind::Break, Short::new())
        }
    }
}

// The fault of another item by itself.
#[inline(always)]
pub(crate) fn fault_of_item(depth: u32, item: Item<'_>) -> Option<u16>
    ensures { result ≡ fault_of_item depth (item_of item.entry) }
{
    match item {
        Item::Quoted(bytes) | Item::Verbatim(bytes) if bytes.len() > WIDTH => {
            Some(STRING_TOO_LONG)
        }
        Item::MetaClose if depth == 0 => Some(STRAY_END_OF_METACOMMENT),
        _ => None,
    }
}

// Gives the pieces of what is held, before what follows it.
pub(crate) fn put_held(held: Held, follower: Follower, given: &mut Given<'_>)
    requires small { IsSmall held }
    requires fine { fault_of_follower follower held ≡ None }
    requires room { length given.old.pieces.items ≤ 1 }
    ensures pieces { map piece_of given.new.pieces.items ≡ map piece_of given.old.pieces.items
        ++ glued_first given.old.joined (pieces_of_held (goes_with follower) held) }
    ensures len { length given.new.pieces.items ≤ length given.old.pieces.items + 2 }
    ensures joined { given.new.joined ≡ joined_after (pieces_of_held (goes_with follower) held) given.old.joined }
    ensures short { AllShort given.old.pieces → AllShort given.new.pieces }
{
    match held {
        Held::Nothing | Held::Factor => {}
        Held::Signs(signs) => given.put(sign_piece(signs)),
        Held::Sum(lead, value) => given.put(sum_piece(lead, value)),
        Held::SumAndSigns(lead, value, signs) => {
            given.put(sum_piece(lead, value));
            given.put(sign_piece(signs));
        }
        Held::SumAndTerm(lead, value, term) => match follower {
            Follower::Product => {
                given.put(sum_piece(lead, value));
                given.put(sum_piece(Lead::Signed, term));
            }
            Follower::Other => given.put(sum_piece(lead, value + term)),
        },
    }
}
