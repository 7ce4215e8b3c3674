//! The folding of constants.
ghost use Rattle.std.specs.Prelude.{◌≡◌, ◌+◌, ◌≤◌, ◌<◌, ◌++◌, map, length, All, Bool};
ghost use Rattle.std.specs.Prelude.{IfOk, OnOk, IfErr, IfSome, IfNone, Ok, Some, None, true};
ghost use Rattle.macro_expand.specs.Items.{item_of};
ghost use Rattle.tangle_out.specs.Pieces.{piece_of};
ghost use Rattle.tangle_out.specs.Runs.{sign_times, signed_value};
ghost use Rattle.tangle_out.specs.Folding.{glued_first, fault_of_item};
ghost use Rattle.tangle_out.specs.Folder.{IsShort};
ghost use Rattle.tangle_out.specs.inner.CodePieces.{AllShort, pieces_in};
ghost use Rattle.macro_expand.specs.Foldable.{IsConstant, IsDigit, IsFoldable};
ghost use Rattle.tangle_out.specs.Metacomments.{HasRoom};
ghost use Rattle.tangle_out.specs.inner.Table.{IsSmall, CanTake, sum_of, after_sign, after_constant};
ghost use Rattle.tangle_out.specs.inner.Table.{fault_of_held, last_of, depth_after, kept_after, pieces_at, joined_at};
ghost use Rattle.tangle_out.specs.inner.Table.{continues, piece_here, keeping, nothing_kept};
ghost use Rattle.tangle_out.specs.inner.Table.{IsSmallNumber, kept_after_number, pieces_at_number, joined_at_number};
ghost use Rattle.tangle_out.specs.inner.Table.{with_digit, is_free, joined_after};
ghost use Rattle.tangle_out.specs.Units.{constant, product, joining, other};
ghost use Rattle.tangle_out.specs.declared.folding.Last.TheVariants.{Else};
ghost use Rattle.tangle_out.specs.inner.CodeUnits.{unit_seen};

use crate::pieces::OutPiece;
use crate::putting::{Follower, Given, alone_piece, fault_of_item, item_piece, put_held};
use crate::units::Unit;
use macro_expand::Item;
use wb_base::faults::{CONSTANT_TOO_BIG, NUMBERS_WITHOUT_SIGN, REAL_CONSTANT};

// The greatest constant; the least is its negative.
pub(crate) const GREATEST_CONSTANT: u32 = 2_147_483_647;

// A sign of a term.
#[derive(Clone, Copy)]
pub(crate) enum Sign {
    Plus,
    Minus,
}

// How a sum that is not below 0 is printed: with a plus, because its first term has a sign, or without.
#[derive(Clone, Copy)]
pub(crate) enum Lead {
    Signed,
    Bare,
}

// What is held of the run so far.
#[derive(Clone, Copy)]
pub(crate) enum Held {
    // There is no run.
    Nothing,
    // There is no run, and a number that comes next stands alone: a product sign or word, or a join, came last.
    Factor,
    // Signs, by their product.
    Signs(Sign),
    // A sum of terms.
    Sum(Lead, i64),
    // A sum of terms, and the signs after it.
    SumAndSigns(Lead, i64, Sign),
    // A sum of terms, and a term after it that may yet go with a product.
    SumAndTerm(Lead, i64, i64),
}

// What the last unit was, as far as the next one needs it.
#[derive(Clone, Copy)]
pub(crate) enum Last {
    // The sign `.`.
    Point,
    // A single-quoted string.
    Quote,
    Else,
}

// What is kept of the units so far: the run, the last unit, and the number of open metacomments.
#[derive(Clone, Copy)]
pub(crate) struct Kept {
    pub(crate) held: Held,
    pub(crate) last: Last,
    pub(crate) depth: u32,
}

// The product of two signs.
fn sign_times(first: Sign, second: Sign) -> Sign
    ensures { result ≡ sign_times first second }
{
    match (first, second) {
        (Sign::Plus, sign) => sign,
        (Sign::Minus, Sign::Plus) => Sign::Minus,
        (Sign::Minus, Sign::Minus) => Sign::Plus,
    }
}

// A number times a sign.
fn signed_value(sign: Sign, value: i64) -> i64
    requires { IsConstant value }
    ensures value { result ≡ signed_value sign value }
    ensures small { IsConstant result }
{
    match sign {
        Sign::Plus => value,
        Sign::Minus => -value,
    }
}

// The sum, which may be too big.
fn sum_of(value: i64, term: i64) -> Result<i64, u16>
    requires value { IsConstant value }
    requires term { IsConstant term }
    ensures value { result ≡ sum_of value term }
    ensures small { IfOk result IsConstant }
{
    let sum = value + term;
    if sum.unsigned_abs() > u64::from(GREATEST_CONSTANT) {
        return Err(CONSTANT_TOO_BIG);
    }
    Ok(sum)
}

// What is held after a sign.
#[inline(always)]
fn after_sign(held: Held, sign: Sign) -> Result<Held, u16>
    requires { IsSmall held }
    ensures value { result ≡ after_sign held sign }
    ensures small { IfOk result IsSmall }
{
    match held {
        Held::Nothing | Held::Factor => Ok(Held::Signs(sign)),
        Held::Signs(signs) => Ok(Held::Signs(sign_times(signs, sign))),
        Held::Sum(lead, value) => Ok(Held::SumAndSigns(lead, value, sign)),
        Held::SumAndSigns(lead, value, signs) => {
            Ok(Held::SumAndSigns(lead, value, sign_times(signs, sign)))
        }
        Held::SumAndTerm(lead, value, term) => {
            Ok(Held::SumAndSigns(lead, sum_of(value, term)?, sign))
        }
    }
}

// What is held after a number. One that stands alone ends what is held.
fn after_constant(held: Held, value: i64) -> Result<Held, u16>
    requires held { IsSmall held }
    requires value { IsConstant value }
    ensures value { result ≡ after_constant held value }
    ensures small { IfOk result IsSmall }
{
    match held {
        Held::Nothing => Ok(Held::Sum(Lead::Bare, value)),
        Held::Factor => Ok(Held::Nothing),
        Held::Signs(signs) => Ok(Held::Sum(Lead::Signed, signed_value(signs, value))),
        Held::SumAndSigns(lead, sum, signs) => {
            Ok(Held::SumAndTerm(lead, sum, signed_value(signs, value)))
        }
        Held::Sum(_, _) | Held::SumAndTerm(_, _, _) => Err(NUMBERS_WITHOUT_SIGN),
    }
}

// The fault of the sum that ends here.
pub(crate) fn fault_of_held(held: Held) -> Option<u16>
    requires { IsSmall held }
    ensures { result ≡ fault_of_held held }
{
    match held {
        Held::SumAndTerm(_, value, term) => sum_of(value, term).err(),
        _ => None,
    }
}

// Whether there is no run.
#[inline(always)]
fn is_free(held: Held) -> bool
    ensures { result ≡ is_free held }
{
    match held {
        Held::Nothing | Held::Factor => true,
        Held::Signs(_) | Held::Sum(_, _) | Held::SumAndSigns(_, _, _) | Held::SumAndTerm(_, _, _) =>
            false,
    }
}

// What an item is to the next one.
#[inline(always)]
fn last_of(item: Item<'_>) -> Last
    ensures { result ≡ last_of (item_of item.entry) }
{
    match item {
        Item::Sign(b'.') => Last::Point,
        Item::Quoted(_) => Last::Quote,
        _ => Last::Else,
    }
}

// How many metacomments are open after an item.
#[inline(always)]
fn depth_after(depth: u32, item: Item<'_>) -> u32
    requires { HasRoom depth (item_of item) }
    ensures { result ≡ depth_after depth (item_of item.entry) }
{
    match item {
        Item::MetaOpen => depth + 1,
        Item::MetaClose => depth.saturating_sub(1),
        _ => depth,
    }
}

impl Kept {
    // Before any unit.
    pub(crate) fn new() -> Self
        ensures { result ≡ nothing_kept }
    {
        Kept {
            held: Held::Nothing,
            last: Last::Else,
            depth: 0,
        }
    }

    // What is kept after a unit, which gives its pieces, or its fault.
    pub(crate) fn after<'w>(self, unit: Unit<'w>, given: &mut Given<'w>) -> Result<Kept, u16>
        requires small { IsSmall self.held }
        requires unit { CanTake self (unit_seen unit) }
        requires room { length given.old.pieces.items ≤ 1 }
        ensures value { result ≡ kept_after self (unit_seen unit.entry) }
        ensures small { IfOk result (λ kept. IsSmall kept.held) }
        ensures pieces { IfOk result (λ _. map piece_of given.new.pieces.items ≡ map piece_of given.old.pieces.items
            ++ glued_first given.old.joined (pieces_at self (unit_seen unit.entry))) }
        ensures joined { IfOk result (λ _. given.new.joined
            ≡ joined_at self (unit_seen unit.entry) given.old.joined) }
        ensures short { AllShort given.old.pieces → AllShort given.new.pieces }
    {
        match unit {
            Unit::Sign(sign) => Ok(self.holding(after_sign(self.held, sign)?)),
            Unit::Number(value) => self.after_number(value, given),
            Unit::Product(item) => Ok(self.after_product(item, given)),
            Unit::Join => Ok(self.after_join(given)),
            Unit::Other(item) => self.after_other(item, given),
        }
    }

    // What is kept after a number.
    #[inline(always)]
    pub(crate) fn after_number(self, value: i64, given: &mut Given<'_>) -> Result<Kept, u16>
        requires small { IsSmall self.held }
        requires value { IsConstant value }
        requires room { length given.old.pieces.items < 4 }
        ensures value { result ≡ kept_after self (constant value) }
        ensures small { IfOk result (λ kept. IsSmall kept.held) }
        ensures pieces { IfOk result (λ _. map piece_of given.new.pieces.items ≡ map piece_of given.old.pieces.items
            ++ glued_first given.old.joined (pieces_at self (constant value))) }
        ensures joined { IfOk result (λ _. given.new.joined ≡ joined_at self (constant value) given.old.joined) }
        ensures short { AllShort given.old.pieces → AllShort given.new.pieces }
        ensures len { length given.new.pieces.items ≤ length given.old.pieces.items + 1 }
    {
        if let Held::Factor = self.held {
            given.put(alone_piece(value));
        }
        Ok(self.holding(after_constant(self.held, value)?))
    }

    // What is kept after the number that digits were, if there is one.
    #[inline(always)]
    pub(crate) fn after_digits(
        self,
        number: Option<u32>,
        given: &mut Given<'_>,
    ) -> Result<Kept, u16>
        requires small { IsSmall self.held }
        requires value { IsSmallNumber number }
        requires room { length given.old.pieces.items < 4 }
        ensures value { result ≡ kept_after_number self number }
        ensures small { IfOk result (λ kept. IsSmall kept.held) }
        ensures pieces { IfOk result (λ _. map piece_of given.new.pieces.items ≡ map piece_of given.old.pieces.items
            ++ glued_first given.old.joined (pieces_at_number self number)) }
        ensures joined { IfOk result (λ _. given.new.joined ≡ joined_at_number self number given.old.joined) }
        ensures short { AllShort given.old.pieces → AllShort given.new.pieces }
        ensures len { length given.new.pieces.items ≤ length given.old.pieces.items + 1 }
    {
        match number {
            Some(value) => self.after_number(i64::from(value), given),
            None => Ok(self),
        }
    }

    // The number that digits are with one more digit.
    pub(crate) fn with_digit(self, number: Option<u32>, byte: u8) -> Result<u32, u16>
        requires value { IsSmallNumber number }
        requires digit { IsDigit byte }
        ensures value { result ≡ with_digit self.last number byte }
        ensures small { IfOk result (λ value. IsSmallNumber (Some value)) }
    {
        if let (Last::Point, None) = (self.last, number) {
            return Err(REAL_CONSTANT);
        }
        let value = 10 * u64::from(number.unwrap_or(0)) + u64::from(byte - b'0');
        if value > u64::from(GREATEST_CONSTANT) {
            return Err(CONSTANT_TOO_BIG);
        }
        Ok(value as u32)
    }

    // Takes a unit that ends no run and shows no fault, and answers its piece, if it gives one. None where the unit may
    // be another; what is kept is then as it was.
    #[inline(always)]
    pub(crate) fn take_plain<'w>(&mut self, unit: Unit<'w>) -> Option<Option<OutPiece<'w>>>
        requires small { IsSmall self.old.held }
        requires unit { CanTake self.old (unit_seen unit) }
        ensures value { IfSome result (λ _. kept_after self.old (unit_seen unit.entry) ≡ Ok self.new) }
        ensures left { IfNone result (self.new ≡ self.old) }
        ensures small { IsSmall self.new.held }
        ensures pieces { IfSome result (λ piece. pieces_at self.old (unit_seen unit.entry) ≡ pieces_in piece) }
        ensures joined { IfSome result (λ piece. (joined : Bool) → joined_at self.old (unit_seen unit.entry) joined
            ≡ joined_after (pieces_in piece) joined) }
        ensures short { IfSome result (λ piece. All IsShort (pieces_in piece)) }
    {
        match unit {
            Unit::Sign(sign) => {
                let held = after_sign(self.held, sign).ok()?;
                *self = self.holding(held);
                Some(None)
            }
            Unit::Product(item) if is_free(self.held) => {
                let piece = self.piece_here(item);
                *self = self.holding(Held::Factor);
                Some(Some(piece))
            }
            Unit::Other(item) if is_free(self.held) => self.take_plain_item(item),
            _ => None,
        }
    }

    // The same for another item, where there is no run.
    #[inline(always)]
    fn take_plain_item<'w>(&mut self, item: Item<'w>) -> Option<Option<OutPiece<'w>>>
        requires small { IsSmall self.old.held }
        requires free { is_free self.old.held ≡ true }
        requires item { HasRoom self.old.depth (item_of item) }
        requires word { IsFoldable (item_of item) }
        ensures value { IfSome result (λ _. kept_after self.old (other (item_of item.entry)) ≡ Ok self.new) }
        ensures left { IfNone result (self.new ≡ self.old) }
        ensures small { IsSmall self.new.held }
        ensures pieces { IfSome result (λ piece. pieces_at self.old (other (item_of item.entry)) ≡ pieces_in piece) }
        ensures joined { IfSome result (λ piece. (joined : Bool)
            → joined_at self.old (other (item_of item.entry)) joined ≡ joined_after (pieces_in piece) joined) }
        ensures short { IfSome result (λ piece. All IsShort (pieces_in piece)) }
    {
        if fault_of_item(self.depth, item).is_some() {
            return None;
        }
        let piece = self.piece_here(item);
        *self = Kept {
            held: Held::Nothing,
            last: last_of(item),
            depth: depth_after(self.depth, item),
        };
        Some(Some(piece))
    }

    // What is kept after a product sign or word.
    fn after_product<'w>(self, item: Item<'w>, given: &mut Given<'w>) -> Kept
        requires small { IsSmall self.held }
        requires word { IsFoldable (item_of item) }
        requires fine { fault_of_item self.depth (item_of item) ≡ None }
        requires room { length given.old.pieces.items ≤ 1 }
        ensures value { Ok result ≡ kept_after self (product (item_of item.entry)) }
        ensures pieces { map piece_of given.new.pieces.items ≡ map piece_of given.old.pieces.items
            ++ glued_first given.old.joined (pieces_at self (product (item_of item.entry))) }
        ensures joined { given.new.joined ≡ joined_at self (product (item_of item.entry)) given.old.joined }
        ensures short { AllShort given.old.pieces → AllShort given.new.pieces }
    {
        put_held(self.held, Follower::Product, given);
        given.put(self.piece_here(item));
        self.holding(Held::Factor)
    }

    // What is kept after a join.
    fn after_join(self, given: &mut Given<'_>) -> Kept
        requires small { IsSmall self.held }
        requires room { length given.old.pieces.items ≤ 1 }
        ensures value { Ok result ≡ kept_after self joining }
        ensures pieces { map piece_of given.new.pieces.items ≡ map piece_of given.old.pieces.items
            ++ glued_first given.old.joined (pieces_at self joining) }
        ensures joined { given.new.joined ≡ joined_at self joining given.old.joined }
        ensures short { AllShort given.old.pieces → AllShort given.new.pieces }
    {
        put_held(self.held, Follower::Product, given);
        given.joined = true;
        self.holding(Held::Factor)
    }

    // What is kept after another item.
    fn after_other<'w>(self, item: Item<'w>, given: &mut Given<'w>) -> Result<Kept, u16>
        requires small { IsSmall self.held }
        requires item { HasRoom self.depth (item_of item) }
        requires word { IsFoldable (item_of item) }
        requires room { length given.old.pieces.items ≤ 1 }
        ensures value { result ≡ kept_after self (other (item_of item.entry)) }
        ensures small { IfOk result (λ kept. IsSmall kept.held) }
        ensures pieces { IfOk result (λ _. map piece_of given.new.pieces.items ≡ map piece_of given.old.pieces.items
            ++ glued_first given.old.joined (pieces_at self (other (item_of item.entry)))) }
        ensures joined { IfOk result (λ _. given.new.joined
            ≡ joined_at self (other (item_of item.entry)) given.old.joined) }
        ensures short { AllShort given.old.pieces → AllShort given.new.pieces }
    {
        check(fault_of_held(self.held))?;
        check(fault_of_item(self.depth, item))?;
        put_held(self.held, Follower::Other, given);
        given.put(self.piece_here(item));
        Ok(Kept {
            held: Held::Nothing,
            last: last_of(item),
            depth: depth_after(self.depth, item),
        })
    }

    // The same with this held, after a unit that matters in no other way.
    #[inline(always)]
    fn holding(self, held: Held) -> Kept
        ensures { result ≡ keeping self Else held }
    {
        Kept {
            held,
            last: Last::Else,
            depth: self.depth,
        }
    }

    // The piece of an item.
    #[inline(always)]
    fn piece_here(self, item: Item<'_>) -> OutPiece<'_>
        requires word { IsFoldable (item_of item) }
        requires fine { fault_of_item self.depth (item_of item) ≡ None }
        ensures value { piece_of result ≡ piece_here self (item_of item.entry) }
        ensures short { IsShort (piece_of result) }
    {
        let mut piece = item_piece(self.depth, item);
        piece.glued = matches!((self.last, item), (Last::Quote, Item::Quoted(_)));
        piece
    }
}

// Refuses where there is a fault.
pub(crate) fn check(fault: Option<u16>) -> Result<(), u16>
    ensures ok { OnOk result (fault ≡ None) }
    ensures err { IfErr result (λ code. fault ≡ Some code) }
{
    match fault {
        Some(code) => Err(code),
        None => Ok(()),
    }
}
